//! Rates as the tree keeps them.

ghost use Rattle.std.specs.Prelude.{◌≡◌, ◌<◌, true, Some, length};
ghost use Rattle.clk_model.specs.Round as round;
ghost use Rattle.clk_model.specs.State.{registered};
ghost use Rattle.rate_planner.specs.Rounded.{rounded_of, NamesRegistered};
ghost use Rattle.rate_planner.specs.Kept.{Always};

use crate::kind::sets_rate_parent;
use crate::rounded::Rounded;
use clk_base::ClockId;
use clk_tree::Tree;

/// The rate of a registered clock now.
pub(crate) fn rate_now(tree: &Tree, clock: ClockId) -> u64
    requires there { registered tree.now.clocks clock.0 ≡ true }
    ensures rate { Always tree.now.defs tree.now (λ w. result ≡ round.rate_in w clock.0) }
    ensures place { clock.0 < length tree.now.defs }
{
    // Its clause says that the tree stands, so a registered clock is one of the description.
    let _there = tree.registered(clock);
    tree.rate(clock)
}

/// The rate of a clock's parent now, 0 if it has none.
pub(crate) fn parent_rate_now(tree: &Tree, clock: ClockId) -> u64
    ensures { Always tree.now.defs tree.now (λ w. result ≡ round.parent_rate_in w clock.0) }
{
    match tree.parent(clock) {
        Some(parent) => rate_now(tree, parent),
        None => 0,
    }
}

/// Whether a clock passes requests on to its parent.
pub(crate) fn passes_on(tree: &Tree, clock: ClockId) -> bool
    ensures { Always tree.now.defs tree.now (λ w. result ≡ round.passes_on w clock.0) }
{
    sets_rate_parent(tree, clock) && tree.parent(clock).is_some()
}

/// A rounding that leaves the parent as it is and gives this rate.
pub(crate) fn over_parent(tree: &Tree, clock: ClockId, rate: u64) -> Rounded
    ensures rounding { Always tree.now.defs tree.now (λ w. rounded_of result ≡ round.over_parent w clock.0 rate) }
    ensures names { NamesRegistered tree.now.clocks (Some result) }
{
    let parent = tree.parent(clock);
    Rounded {
        rate,
        parent,
        parent_rate: parent_rate_now(tree, clock),
    }
}
