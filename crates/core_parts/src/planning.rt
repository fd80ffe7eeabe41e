//! What a request for a rate comes to, as its beginning finds it.

ghost use Rattle.std.specs.Prelude.{◌≡◌, ◌≤◌, true, false, Some, None, length, if◌then◌else◌, IfOk, IfSome, OnOk};
ghost use Rattle.std.specs.Option.{option_map};
ghost use Rattle.change_walk.specs.Given.{OfPlan};
ghost use Rattle.change_walk.specs.Steps.{IsMadeOf};
ghost use Rattle.clk_model.specs.Chain as chain;
ghost use Rattle.clk_model.specs.Lists.{is_at};
ghost use Rattle.clk_model.specs.Rate.{rate};
ghost use Rattle.clk_model.specs.Round.{round, round_rate};
ghost use Rattle.clk_model.specs.State.{State, registered};
ghost use Rattle.counts_core.specs.Counted.{AreCounts, is_prepared};
ghost use Rattle.rate_planner.specs.Kept.{wired};
ghost use Rattle.rate_planner.specs.Rounded.{rounded_of, NamesRegistered};
ghost use Rattle.clk_tree.specs.Plans.{AreThere};
ghost use Rattle.rate_planner.specs.Walks.{walked_rates};
ghost use Rattle.core_parts.specs.Decisions.{decision_of};
ghost use Rattle.core_parts.specs.Planned.{AreItsNotifiers, ArePlanned, IsAnswer, IsGiven, IsOver, IsScriptOf, SeesFree};
ghost use Rattle.core_parts.specs.Free.{free_seen, freed};
ghost use Rattle.core_parts.specs.Seen.{handles_seen};
ghost use Rattle.core_parts.specs.Tied.{AreTied, desc_of};

use crate::decision::Verdict;
use crate::draft::Draft;
use crate::free::{FreeSeen, freed_above};
use crate::rounding::round_seen;
use crate::seen::Seen;
use crate::window::Window;
use change_walk::script_of;
use clk_base::{ClockId, Errno};
use clk_io::NoMemory;
use clk_tree::{Tree, View};
use notifiers::Notifiers;
use rate_planner::{Rest, Rounded, first_rounding, plan_from};
use reg_bank::Bank;

// Whether a guarded clock would get the rate for a request that it has, if it were free.
fn keeps_rate<B: Bank, W: Rest>(
    window: &Window<B>,
    tree: &Tree,
    view: &Seen,
    rest: &W,
    clock: ClockId,
    wanted: u64,
) -> bool
    requires tied { AreTied (desc_of tree.now) window.now tree.now }
    requires seen { length view.now.counts.now.links ≡ length tree.now.defs }
    requires there { registered tree.now.clocks clock.0 ≡ true }
    ensures stands { AreCounts view.now.counts.now }
    ensures keeps { IfSome window.now.words (λ regs. result ≡ is_at (rate tree.now.defs regs tree.now.clocks clock.0)
        (round_rate (wired tree.now.defs regs tree.now)
        (free_seen (handles_seen view.now.ranged view.now.handles.now.handles) view.now.counts.now
        (freed tree.now.clocks view.now.counts.now clock.0)) clock.0 wanted)) }
{
    let free = FreeSeen {
        seen: view,
        tree,
        clock,
        many: freed_above(tree, view.counts, clock),
    };
    match round_seen(window, tree, &free, rest, clock, wanted) {
        Some(rounded) => rounded == tree.rate(clock),
        None => false,
    }
}

// How a clock would be rounded for a request.
fn first_seen<B: Bank, V: View, W: Rest>(
    window: &Window<B>,
    tree: &Tree,
    view: &V,
    rest: &W,
    clock: ClockId,
    wanted: u64,
) -> Option<Rounded>
    requires tied { AreTied (desc_of tree.now) window.now tree.now }
    requires seen { length tree.now.defs ≤ V.size view.now }
    requires there { registered tree.now.clocks clock.0 ≡ true }
    ensures rounding { IfSome window.now.words (λ regs. option_map rounded_of result
        ≡ round (wired tree.now.defs regs tree.now) (V.means view.now) clock.0 wanted) }
    ensures names { NamesRegistered tree.now.clocks result }
{
    first_rounding(tree, window.bank(), view, rest, clock, wanted)
}

// Whether a clock that has a rate in Hz keeps it if it is rounded so.
fn leaves_rate(rounding: Option<Rounded>, rate: u64) -> bool
    ensures { result ≡ is_at rate (option_map (λ r. r.rate) rounding) }
{
    match rounding {
        Some(rounded) => rounded.rate == rate,
        None => false,
    }
}

// Works out the plan of a request for a rate, if the clock would be rounded so. Answers whether there
// is one.
fn plan_seen<B: Bank, V: View, W: Rest>(
    draft: &mut Draft,
    window: &Window<B>,
    tree: &Tree,
    view: &V,
    rest: &W,
    clock: ClockId,
    wanted: u64,
    first: Option<Rounded>,
) -> Result<bool, NoMemory>
    requires tied { AreTied (desc_of tree.now) window.now tree.now }
    requires seen { length tree.now.defs ≤ V.size view.now }
    requires there { registered tree.now.clocks clock.0 ≡ true }
    requires rounding { IfSome window.now.words (λ regs. option_map rounded_of first
        ≡ round (wired tree.now.defs regs tree.now) (V.means view.now) clock.0 wanted) }
    requires names { NamesRegistered tree.now.clocks first }
    ensures chain { IfOk result (λ found. IfSome window.now.words (λ regs. (if found then Some draft.new.planning.plan.chain else None)
        ≡ chain.chain (wired tree.now.defs regs tree.now) (V.means view.now) clock.0 wanted)) }
    ensures rates { IfOk result (λ found. found ≡ true → IfSome window.now.words (λ regs. draft.new.planning.plan.rates
        ≡ walked_rates tree.now.order (wired tree.now.defs regs tree.now) draft.new.planning.plan.chain)) }
    ensures set_parent { OnOk result (draft.new.planning.plan.set_parent ≡ false) }
    ensures there { IfOk result (λ found. found ≡ true → AreThere tree.now.clocks draft.new.planning.plan.rates) }
{
    let planning = &mut draft.planning;
    plan_from(
        planning,
        tree,
        window.bank(),
        view,
        rest,
        clock,
        wanted,
        first,
    )
}

/// The plan of a draft gets its script, which is in the draft then. Its one error is that memory runs
/// out.
#[inline(always)]
pub fn write_script<V: View>(
    draft: &mut Draft,
    tree: &Tree,
    view: &V,
    notifiers: &Notifiers,
) -> Result<(), NoMemory>
    requires seen { length tree.now.defs ≤ V.size view.now }
    requires there { AreThere tree.now.clocks draft.old.planning.plan.rates }
    ensures script { OnOk result (OfPlan tree.now (V.means view.now).prepared notifiers.now draft.old.planning.plan
        (λ s. IsScriptOf s draft.old.planning.plan draft.new.script)) }
    ensures made { OnOk result (IsMadeOf tree.now (V.means view.now).prepared notifiers.now draft.old.planning.plan draft.new.script) }
    ensures plan { draft.new.planning ≡ draft.old.planning }
{
    let plan = &draft.planning.plan;
    script_of(&mut draft.script, tree, view, notifiers, plan)?;
    Ok(())
}

/// What a request for a rate of a clock comes to that isn't guarded as planning sees it. Its first
/// rounding says whether the clock keeps its rate, and else the plan begins with it. Its one error is
/// that memory runs out.
pub(crate) fn decide_unguarded<B: Bank, V: View, W: Rest>(
    draft: &mut Draft,
    window: &Window<B>,
    tree: &Tree,
    view: &V,
    rest: &W,
    notifiers: &Notifiers,
    clock: ClockId,
    wanted: u64,
) -> Result<Verdict, NoMemory>
    requires tied { AreTied (desc_of tree.now) window.now tree.now }
    requires seen { length tree.now.defs ≤ V.size view.now }
    requires there { registered tree.now.clocks clock.0 ≡ true }
    ensures decides { IfOk result (λ verdict. (new lifted : State) → IsOver (desc_of tree.now) window.now tree.now new
        → AreItsNotifiers notifiers.now new → SeesFree (V.means view.now) clock.0 new lifted
        → IsAnswer new lifted clock.0 wanted (decision_of draft.new verdict)) }
    ensures there { IfOk result (λ verdict. ArePlanned tree.now (V.means view.now).prepared notifiers.now false
        (decision_of draft.new verdict)) }
{
    let first = first_seen(window, tree, view, rest, clock, wanted);
    if leaves_rate(first, tree.rate(clock)) {
        return Ok(Verdict::AtOnce);
    }
    if !plan_seen(draft, window, tree, view, rest, clock, wanted, first)? {
        return Ok(Verdict::Refused(Errno::EINVAL));
    }
    write_script(draft, tree, view, notifiers)?;
    Ok(Verdict::Change)
}

/// What a request for a rate comes to, which is planned over these handles and counts. If it goes on,
/// its plan and its script are in the draft. Rests once a candidate. Its one error is that memory runs out.
#[inline(always)]
pub fn decide_request<B: Bank, W: Rest>(
    draft: &mut Draft,
    window: &Window<B>,
    tree: &Tree,
    view: &Seen,
    rest: &W,
    notifiers: &Notifiers,
    clock: ClockId,
    wanted: u64,
) -> Result<Verdict, NoMemory>
    requires tied { AreTied (desc_of tree.now) window.now tree.now }
    requires seen { length view.now.counts.now.links ≡ length tree.now.defs }
    requires there { registered tree.now.clocks clock.0 ≡ true }
    ensures decides { IfOk result (λ verdict. (s : State)
        → IsGiven (desc_of tree.now) window.now tree.now (handles_seen view.now.ranged view.now.handles.now.handles) view.now.counts.now s
        → AreItsNotifiers notifiers.now s
        → IsAnswer s s clock.0 wanted (decision_of draft.new verdict)) }
    ensures there { IfOk result (λ verdict. ArePlanned tree.now (is_prepared view.now.counts.now) notifiers.now false
        (decision_of draft.new verdict)) }
    ensures stands { AreCounts view.now.counts.now }
{
    if view.counts.protected(clock) == 0 {
        return decide_unguarded(draft, window, tree, view, rest, notifiers, clock, wanted);
    }
    if !keeps_rate(window, tree, view, rest, clock, wanted) {
        return Ok(Verdict::Refused(Errno::EBUSY));
    }
    Ok(Verdict::AtOnce)
}
