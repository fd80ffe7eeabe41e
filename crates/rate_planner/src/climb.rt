//! The chain of a request.

ghost use Rattle.std.specs.Prelude.{◌≡◌, ◌<◌, ◌≤◌, true, Some, None, length, IfOk, OnOk, if◌then◌else◌, option_map};
ghost use Rattle.clk_base.specs.Levels.{depth};
ghost use Rattle.clk_model.specs.State.{registered};
ghost use Rattle.clk_model.specs.Chain.{chain_within};
ghost use Rattle.clk_model.specs.Round.{round};
ghost use Rattle.rate_planner.specs.Chains.{AllThere};
ghost use Rattle.rate_planner.specs.Kept.{Always};
ghost use Rattle.rate_planner.specs.Rounded.{rounded_of, NamesRegistered};

use crate::next::{Next, next_step};
use crate::rest::Rest;
use crate::rounded::Rounded;
use crate::rounding::rounding;
use clk_base::{ClockId, depth};
use clk_io::NoMemory;
use clk_tree::{PlannedChain, Tree, View};

/// The chain from a clock that is asked for a rate to the top, if the clock would be rounded so,
/// before boundaries are looked at. Answers whether there is one.
pub(crate) fn climb<V: View, W: Rest>(
    steps: &mut PlannedChain,
    tree: &Tree,
    view: &V,
    rest: &W,
    clock: ClockId,
    x: u64,
    first: Option<Rounded>,
) -> Result<bool, NoMemory>
    requires seen { length tree.now.defs ≤ V.size view.now }
    requires there { registered tree.now.clocks clock.0 ≡ true }
    requires names { NamesRegistered tree.now.clocks first }
    ensures chain { IfOk result (λ found. Always tree.now.defs tree.now (λ w.
        option_map rounded_of first ≡ round w (V.means view.now) clock.0 x
        → (if found then Some steps.new else None) ≡ chain_within depth w (V.means view.now) clock.0 x)) }
    ensures some { IfOk result (λ found. found ≡ true → 0 < length steps.new) }
    ensures there { OnOk result (AllThere tree.now.clocks steps.new) }
{
    steps.clear();
    let mut at = clock;
    let mut request = x;
    let mut rounded = first;
    for _level in 0..depth() {
        match next_step(tree, view, at, request, rounded) {
            Next::NoPlan => return Ok(false),
            Next::Last(step) => {
                steps.push(step)?;
                return Ok(true);
            }
            Next::More(step, parent, wanted) => {
                steps.push(step)?;
                at = parent;
                request = wanted;
                rounded = rounding(tree, view, rest, parent, wanted);
            }
        }
    }
    Ok(false)
}
