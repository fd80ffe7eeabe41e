//! PLLs that count as raised no more.

ghost use Rattle.std.specs.Prelude.{◌≡◌, [], ◌∷◌};
ghost use Rattle.std.specs.Option.{option_map_or};
ghost use Rattle.clk_model.specs.State.{link_in};
ghost use Rattle.clk_model.specs.Tree.{path, path_within};
ghost use Rattle.clk_flight.specs.declared.front.Front.TheVariants.{Empty};
ghost use Rattle.core_parts.specs.Letting.{LetsGoAll};

use clk_base::{ClockId, depth};
use clk_flight::Flight;
use clk_tree::Tree;

/// The first so many clocks of a path count as raised no more.
pub fn let_go_path(levels: u32, tree: &Tree, flight: &mut Flight, clock: ClockId)
    requires { flight.old.front ≡ Empty }
    ensures { LetsGoAll (path_within (link_in tree.now.clocks) levels clock.0) flight.old flight.new }
{
    if levels == 0 {
        return;
    }
    flight.let_go(clock);
    if let Some(parent) = tree.parent(clock) {
        let_go_path(levels - 1, tree, flight, parent);
    }
}

/// A clock that isn't registered yet and the path of the parent that it is to get count as raised no
/// more.
pub fn let_go_under(tree: &Tree, flight: &mut Flight, parent: Option<ClockId>, clock: ClockId)
    requires { flight.old.front ≡ Empty }
    ensures { LetsGoAll (clock.0 ∷ option_map_or (λ p. path tree.now.clocks p.0) parent []) flight.old flight.new }
{
    flight.let_go(clock);
    if let Some(parent) = parent {
        let_go_path(depth(), tree, flight, parent);
    }
}
