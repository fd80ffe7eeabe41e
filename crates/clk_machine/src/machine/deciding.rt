//! How the calls that change a rate or a parent begin, if there is room for what they go on with. Nothing
//! is changed by the decision.

ghost use Rattle.std.specs.Prelude.{◌≡◌, true, false, max, min, IfOk};
ghost use Rattle.clk_base.specs.declared.call.Sleeping.TheVariants.{SetRate, SetRateExclusive, SetRange};
ghost use Rattle.core_parts.specs.Decisions.{decision_of};
ghost use Rattle.clk_machine.specs.ChangeCalls.{call_of};
ghost use Rattle.clk_machine.specs.Copied.{AreDecided, told_of};
ghost use Rattle.clk_machine.specs.Deciding.{ArePlannedOver, Decided, IsOwned};
ghost use Rattle.clk_machine.specs.Parts.{IsWhole};

use super::Machine;
use crate::change::{ChangeCall, Wanted};
use crate::decision::Decision;
use change_walk::StepList;
use clk_base::{Errno, Handle, Reply};
use clk_io::NoMemory;
use clk_tree::Plan;
use core_parts::{Draft, OtherRange, Seen, Verdict, decide_lifted, decide_request};
use rate_planner::Rest;
use reg_bank::Bank;
use std::alloc::Global;
use std::mem::replace;

// A rate between two others.
fn within(rate: u64, least: u64, most: u64) -> u64
    ensures { result ≡ min most (max least rate) }
{
    rate.max(least).min(most)
}

// The decision that a verdict and a draft tell together. What the draft has goes over to it.
fn taken_from(draft: &mut Draft, alloc: Global, verdict: Verdict) -> Decision
    ensures { result ≡ told_of (decision_of draft.old verdict) }
{
    match verdict {
        Verdict::Refused(errno) => Decision::Reply(Reply::Refused(errno)),
        Verdict::AtOnce => Decision::Reply(Reply::Fine),
        Verdict::Change => Decision::Script {
            plan: replace(&mut draft.planning.plan, Plan::none(alloc)),
            steps: replace(&mut draft.script, StepList::none(alloc)),
        },
    }
}

impl<B: Bank> Machine<B> {
    /// Decides how a call begins that changes a rate or a parent, if there is room for what it goes on
    /// with. Rests once a candidate. The one error is want of memory.
    pub(crate) fn planned<W: Rest>(
        &self,
        rest: &W,
        driver: u32,
        change: ChangeCall,
    ) -> Result<Decision, NoMemory>
        requires quiet { self.now.flight.going ≡ false }
        ensures decides { IfOk result (λ decision. AreDecided self.now driver (call_of change) decision) }
        ensures whole { IsWhole self.now }
    {
        let mut draft = Draft::none(self.alloc);
        let verdict = self.decide(&mut draft, rest, driver, change)?;
        Ok(taken_from(&mut draft, self.alloc, verdict))
    }

    /// Decides how a call begins that changes a rate or a parent: it is refused, answered by Ok at once,
    /// or goes on with a plan and its script, which are in the draft then, if there is room. Rests once a
    /// candidate.
    pub(crate) fn decide<W: Rest>(
        &self,
        draft: &mut Draft,
        rest: &W,
        driver: u32,
        change: ChangeCall,
    ) -> Result<Verdict, NoMemory>
        requires quiet { self.now.flight.going ≡ false }
        ensures decides { IfOk result (λ verdict. Decided self.now driver (call_of change) (decision_of draft.new verdict)) }
        ensures there { IfOk result (λ verdict. ArePlannedOver self.now (call_of change) (decision_of draft.new verdict)) }
        ensures own { IfOk result (λ verdict. IsOwned self.now.table.handles driver (call_of change) (decision_of draft.new verdict)) }
    {
        let handle = change.handle;
        match change.wanted {
            Wanted::Rate(rate) => self.decide_rate(draft, rest, driver, handle, rate),
            Wanted::HeldRate(rate) => self.decide_exclusive(draft, rest, driver, handle, rate),
            Wanted::Range(least, most) => {
                self.decide_range(draft, rest, driver, handle, least, most)
            }
            Wanted::Parent(parent) => self.decide_parent(draft, driver, handle, parent),
        }
    }

    /// Decides how a request for a rate begins. One exclusive of the handle itself doesn't count.
    fn decide_rate<W: Rest>(
        &self,
        draft: &mut Draft,
        rest: &W,
        driver: u32,
        handle: Handle,
        rate: u64,
    ) -> Result<Verdict, NoMemory>
        requires quiet { self.now.flight.going ≡ false }
        ensures decides { IfOk result (λ verdict. Decided self.now driver (SetRate handle rate) (decision_of draft.new verdict)) }
        ensures there { IfOk result (λ verdict. ArePlannedOver self.now (SetRate handle rate) (decision_of draft.new verdict)) }
        ensures own { IfOk result (λ verdict. IsOwned self.now.table.handles driver (SetRate handle rate) (decision_of draft.new verdict)) }
    {
        let Some(row) = self.own(driver, handle) else {
            return Ok(Verdict::Refused(Errno::ENOENT));
        };
        let view = Seen {
            handles: &self.handles,
            ranged: None,
            counts: &self.counts,
        };
        decide_lifted(
            draft,
            &self.window,
            &self.tree,
            &view,
            rest,
            &self.notifiers,
            row,
            rate,
        )
    }

    /// Decides how a request for a rate begins that takes an exclusive of the handle.
    fn decide_exclusive<W: Rest>(
        &self,
        draft: &mut Draft,
        rest: &W,
        driver: u32,
        handle: Handle,
        rate: u64,
    ) -> Result<Verdict, NoMemory>
        requires quiet { self.now.flight.going ≡ false }
        ensures decides { IfOk result (λ verdict. Decided self.now driver (SetRateExclusive handle rate) (decision_of draft.new verdict)) }
        ensures there { IfOk result (λ verdict. ArePlannedOver self.now (SetRateExclusive handle rate) (decision_of draft.new verdict)) }
        ensures own { IfOk result (λ verdict. IsOwned self.now.table.handles driver (SetRateExclusive handle rate)
            (decision_of draft.new verdict)) }
    {
        let Some(row) = self.own(driver, handle) else {
            return Ok(Verdict::Refused(Errno::ENOENT));
        };
        let view = Seen {
            handles: &self.handles,
            ranged: None,
            counts: &self.counts,
        };
        decide_request(
            draft,
            &self.window,
            &self.tree,
            &view,
            rest,
            &self.notifiers,
            row.clock,
            rate,
        )
    }

    /// Decides how a request for a range begins: the last request is made anew within it. One exclusive of
    /// the handle itself doesn't count.
    fn decide_range<W: Rest>(
        &self,
        draft: &mut Draft,
        rest: &W,
        driver: u32,
        handle: Handle,
        least: u64,
        most: u64,
    ) -> Result<Verdict, NoMemory>
        requires quiet { self.now.flight.going ≡ false }
        ensures decides { IfOk result (λ verdict. Decided self.now driver (SetRange handle least most) (decision_of draft.new verdict)) }
        ensures there { IfOk result (λ verdict. ArePlannedOver self.now (SetRange handle least most) (decision_of draft.new verdict)) }
        ensures own { IfOk result (λ verdict. IsOwned self.now.table.handles driver (SetRange handle least most)
            (decision_of draft.new verdict)) }
    {
        let Some(row) = self.own(driver, handle) else {
            return Ok(Verdict::Refused(Errno::ENOENT));
        };
        if !self.handles.fits(handle, least, most) {
            return Ok(Verdict::Refused(Errno::EINVAL));
        }
        let wanted = within(self.tree.last_request(row.clock), least, most);
        let view = Seen {
            handles: &self.handles,
            ranged: Some(OtherRange {
                handle,
                least,
                most,
            }),
            counts: &self.counts,
        };
        decide_lifted(
            draft,
            &self.window,
            &self.tree,
            &view,
            rest,
            &self.notifiers,
            row,
            wanted,
        )
    }
}
