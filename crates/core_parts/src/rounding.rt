//! What a request for a rate would give, over handles and counts.

ghost use Rattle.std.specs.Prelude.{◌≡◌, ℕ, ◌<◌, ◌≤◌, true, length, IfSome};
ghost use Rattle.clk_model.specs.Laws.Lifting.{LiftedSees};
ghost use Rattle.clk_model.specs.Round.{wiring, round_rate};
ghost use Rattle.clk_model.specs.State.{State, registered};
ghost use Rattle.clk_model.specs.Views as model;
ghost use Rattle.clk_model.specs.Views.{lift};
ghost use Rattle.rate_planner.specs.Kept.{wired};
ghost use Rattle.core_parts.specs.Free.{is_sole};
ghost use Rattle.core_parts.specs.Planned.{IsGiven};
ghost use Rattle.core_parts.specs.Seen.{handles_seen};
ghost use Rattle.core_parts.specs.Tied.{AreTied, desc_of};

use crate::free::{FreeSeen, freed_above, is_sole};
use crate::seen::Seen;
use crate::window::Window;
use clk_base::ClockId;
use clk_model::HandleRow;
use clk_tree::{Tree, View};
use rate_planner::{Rest, round_resting};
use reg_bank::Bank;

/// The rate in Hz that a clock would get for a request, as planning sees the clocks.
pub(crate) fn round_seen<B: Bank, V: View, W: Rest>(
    window: &Window<B>,
    tree: &Tree,
    view: &V,
    rest: &W,
    clock: ClockId,
    rate: u64,
) -> Option<u64>
    requires tied { AreTied (desc_of tree.now) window.now tree.now }
    requires seen { length tree.now.defs ≤ V.size view.now }
    requires there { registered tree.now.clocks clock.0 ≡ true }
    ensures { IfSome window.now.words (λ regs. result ≡ round_rate (wired tree.now.defs regs tree.now) (V.means view.now) clock.0 rate) }
{
    round_resting(tree, window.bank(), view, rest, clock, rate)
}

/// The rate in Hz that the clock of a handle would get for a request. One exclusive of the handle doesn't
/// count. Rests once a candidate.
pub fn round_lifted<B: Bank, W: Rest>(
    window: &Window<B>,
    tree: &Tree,
    view: &Seen,
    rest: &W,
    row: HandleRow,
    rate: u64,
) -> Option<u64>
    requires tied { AreTied (desc_of tree.now) window.now tree.now }
    requires seen { length view.now.counts.now.links ≡ length tree.now.defs }
    requires there { registered tree.now.clocks row.clock.0 ≡ true }
    ensures { (s : State) (number : ℕ)
        → IsGiven (desc_of tree.now) window.now tree.now (handles_seen view.now.ranged view.now.handles.now.handles) view.now.counts.now s
        → LiftedSees s number row
        → result ≡ round_rate (wiring s) (model.view (lift s number)) row.clock.0 rate }
{
    let clock = row.clock;
    if !is_sole(view.counts, row) {
        return round_seen(window, tree, view, rest, clock, rate);
    }
    let free = FreeSeen {
        seen: view,
        tree,
        clock,
        many: freed_above(tree, view.counts, clock),
    };
    round_seen(window, tree, &free, rest, clock, rate)
}
