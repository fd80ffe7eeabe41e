//! Whether a clock can get another parent, and the plan of its change of parent.

ghost use Rattle.std.specs.Prelude.{◌≡◌, ◌≢◌, ◌<◌, true, false, length, Some, IfSome, OnOk};
ghost use Rattle.clk_base.specs.Description.{parents_of};
ghost use Rattle.clk_base.specs.Flags as flags;
ghost use Rattle.clk_base.specs.Places.{places};
ghost use Rattle.clk_model.specs.Lists.{is_in, is_at};
ghost use Rattle.clk_model.specs.State.{registered, link_in};
ghost use Rattle.rate_planner.specs.Kept.{wired};
ghost use Rattle.clk_tree.specs.Plans.{AreThere};
ghost use Rattle.rate_planner.specs.Walks.{parent_chain, walked_rates};
ghost use Rattle.core_parts.specs.Tied.{AreTied, desc_of};
ghost use Rattle.core_parts.specs.Reparenting.{is_bound, is_candidate, parent_refusal};

use crate::draft::Draft;
use crate::free::is_sole;
use crate::window::Window;
use bitflags::Flags;
use clk_base::{ClkFlags, ClockId, Errno, Kind};
use clk_io::NoMemory;
use clk_model::HandleRow;
use clk_tree::Tree;
use counts_core::Counts;
use reg_bank::Bank;

// Whether a clock is a mux that is only read, with two possible parents or more.
fn is_bound(tree: &Tree, clock: ClockId) -> bool
    requires { clock.0 < length tree.now.defs }
    ensures { result ≡ is_bound tree.now.defs clock.0 }
{
    let def = tree.def(clock);
    match def.kind {
        Kind::Mux { read_only, .. } => read_only && def.parents.as_slice().len() >= 2,
        _ => false,
    }
}

// Whether a prepared clock keeps its parent.
fn keeps_parent(tree: &Tree, clock: ClockId) -> bool
    requires { clock.0 < length tree.now.defs }
    ensures { result ≡ flags.sets_parent_gate tree.now.defs clock.0 }
{
    Flags::contains(&tree.def(clock).flags, ClkFlags::SET_PARENT_GATE)
}

// Whether a clock is among these.
fn is_among(wanted: ClockId, clocks: &[ClockId]) -> bool
    ensures { result ≡ is_in wanted.0 (places clocks.now) }
{
    for clock in clocks {
        if *clock == wanted {
            return true;
        }
    }
    false
}

/// Whether a clock is a mux with this possible parent, which is rooted.
pub(crate) fn is_candidate(tree: &Tree, clock: ClockId, parent: ClockId) -> bool
    requires place { clock.0 < length tree.now.defs }
    ensures { result ≡ is_candidate tree.now.defs tree.now.clocks clock.0 parent.0 }
{
    let def = tree.def(clock);
    matches!(def.kind, Kind::Mux { .. })
        && is_among(parent, def.parents.as_slice())
        && tree.rooted(parent)
}

/// Why the clock of a handle doesn't get another parent, if it doesn't. One exclusive of the handle
/// doesn't count.
pub fn refusal(tree: &Tree, counts: &Counts, row: HandleRow, parent: ClockId) -> Option<Errno>
    requires lies { row.clock.0 < length tree.now.defs }
    requires clock { row.clock.0 < length counts.now.links }
    ensures cause { result ≡ parent_refusal tree.now.defs tree.now.clocks counts.now row parent.0 }
{
    if is_bound(tree, row.clock) {
        return Some(Errno::EPERM);
    }
    if keeps_parent(tree, row.clock) && counts.prepared(row.clock) > 0 {
        return Some(Errno::EBUSY);
    }
    if counts.protected(row.clock) > 0 && !is_sole(counts, row) {
        return Some(Errno::EBUSY);
    }
    if is_candidate(tree, row.clock, parent) {
        None
    } else {
        Some(Errno::EINVAL)
    }
}

/// Whether a clock has this parent.
pub fn is_linked(tree: &Tree, clock: ClockId, parent: ClockId) -> bool
    ensures { result ≡ is_at parent.0 (link_in tree.now.clocks clock.0) }
{
    match tree.parent(clock) {
        Some(link) => link == parent,
        None => false,
    }
}

/// Works out the plan of a change of parent. Its one refusal is that memory runs out.
pub fn plan_move<B: Bank>(
    draft: &mut Draft,
    window: &Window<B>,
    tree: &Tree,
    clock: ClockId,
    parent: ClockId,
) -> Result<(), NoMemory>
    requires tied { AreTied (desc_of tree.now) window.now tree.now }
    requires clock { registered tree.now.clocks clock.0 ≡ true }
    requires parent { registered tree.now.clocks parent.0 ≡ true }
    requires possible { is_in parent.0 (parents_of tree.now.defs clock.0) ≡ true }
    requires other { link_in tree.now.clocks clock.0 ≢ Some parent.0 }
    ensures chain { OnOk result (IfSome window.now.words (λ regs. draft.new.planning.plan.chain
        ≡ parent_chain (wired tree.now.defs regs tree.now) clock.0 parent.0)) }
    ensures rates { OnOk result (IfSome window.now.words (λ regs. draft.new.planning.plan.rates
        ≡ walked_rates tree.now.order (wired tree.now.defs regs tree.now) draft.new.planning.plan.chain)) }
    ensures set_parent { OnOk result (draft.new.planning.plan.set_parent ≡ true) }
    ensures there { OnOk result (AreThere tree.now.clocks draft.new.planning.plan.rates) }
{
    rate_planner::plan_move(&mut draft.planning, tree, window.bank(), clock, parent)
}
