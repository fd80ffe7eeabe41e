//! A request for a rate of which one exclusive of its own handle doesn't count.

ghost use Rattle.std.specs.Prelude.{◌≡◌, ℕ, true, false, length, IfOk};
ghost use Rattle.clk_model.specs.Laws.Lifting.{LiftedSees};
ghost use Rattle.clk_model.specs.State.{State, registered};
ghost use Rattle.clk_model.specs.Views.{lift};
ghost use Rattle.counts_core.specs.Counted.{is_prepared};
ghost use Rattle.core_parts.specs.Decisions.{decision_of};
ghost use Rattle.core_parts.specs.Planned.{AreItsNotifiers, ArePlanned, IsAnswer, IsGiven};
ghost use Rattle.core_parts.specs.Seen.{handles_seen};
ghost use Rattle.core_parts.specs.Tied.{AreTied, desc_of};

use crate::decision::Verdict;
use crate::draft::Draft;
use crate::free::{FreeSeen, freed_above, is_sole};
use crate::planning::{decide_request, decide_unguarded};
use crate::seen::Seen;
use crate::window::Window;
use clk_io::NoMemory;
use clk_model::HandleRow;
use clk_tree::Tree;
use notifiers::Notifiers;
use rate_planner::Rest;
use reg_bank::Bank;

/// What a request for a rate comes to, if one exclusive of a handle on the clock doesn't count. If that
/// exclusive alone protects the clock, the clock is free, and else all is as it is. Rests once a candidate.
/// Its one error is that memory runs out.
#[inline(always)]
pub fn decide_lifted<B: Bank, W: Rest>(
    draft: &mut Draft,
    window: &Window<B>,
    tree: &Tree,
    view: &Seen,
    rest: &W,
    notifiers: &Notifiers,
    row: HandleRow,
    wanted: u64,
) -> Result<Verdict, NoMemory>
    requires tied { AreTied (desc_of tree.now) window.now tree.now }
    requires seen { length view.now.counts.now.links ≡ length tree.now.defs }
    requires there { registered tree.now.clocks row.clock.0 ≡ true }
    ensures decides { IfOk result (λ verdict. (s : State) (number : ℕ)
        → IsGiven (desc_of tree.now) window.now tree.now (handles_seen view.now.ranged view.now.handles.now.handles) view.now.counts.now s
        → AreItsNotifiers notifiers.now s
        → LiftedSees s number row → IsAnswer s (lift s number) row.clock.0 wanted (decision_of draft.new verdict)) }
    ensures there { IfOk result (λ verdict. ArePlanned tree.now (is_prepared view.now.counts.now) notifiers.now false
        (decision_of draft.new verdict)) }
{
    let clock = row.clock;
    if !is_sole(view.counts, row) {
        return decide_request(draft, window, tree, view, rest, notifiers, clock, wanted);
    }
    let free = FreeSeen {
        seen: view,
        tree,
        clock,
        many: freed_above(tree, view.counts, clock),
    };
    decide_unguarded(draft, window, tree, &free, rest, notifiers, clock, wanted)
}
