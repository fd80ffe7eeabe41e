//! The beginning of a call that changes a rate or a parent: it is made ready before anything changes.

ghost use Rattle.std.specs.Prelude.{◌≡◌, ◌+◌, ◌<◌, ◌≤◌, true, false, Some, is_some, IfOk, OnOk, OnErr};
ghost use Rattle.clk_base.specs.declared.call.Sleeping.TheVariants.{SetRange};
ghost use Rattle.clk_base.specs.declared.event.Event.TheVariants.{Begin};
ghost use Rattle.clk_base.specs.declared.event.Reply.TheVariants.{Fine};
ghost use Rattle.clk_base.specs.declared.event.Turn.TheVariants.{Done, Going};
ghost use Rattle.clk_model.specs.Journal.{is_going};
ghost use Rattle.clk_model.specs.State.{handle_at};
ghost use Rattle.clk_tree.specs.Plans.{AreThere};
ghost use Rattle.clk_machine.specs.ChangeCalls.{call_of};
ghost use Rattle.clk_machine.specs.Readied.{AtOnce, Change, readied_of, scripted_of};
ghost use Rattle.core_parts.specs.InFlight.{is_ranged};
ghost use Rattle.clk_machine.specs.Kinds.{is_answer_to};
ghost use Rattle.clk_machine.specs.Parts.{own_in, IsOwnCall, IsWhole, steps_left};
ghost use Rattle.clk_machine.specs.Readying.{CanBeginSo, CanGoAlong, IsReady, LeadsSo, Scripts, StartsAlong, moves_well, weight_of};
ghost use Rattle.clk_machine.specs.Stands.{Enters, Proceeds};

use super::Machine;
use crate::change::{ChangeCall, Wanted};
use crate::log::Log;
use clk_base::{Errno, Handle, Reply, Turn};
use clk_flight::Start;
use clk_io::NoMemory;
use clk_model::HandleRow;
use clk_tree::Plan;
use core_parts::{Draft, Verdict, can_go_along, fits, told_clocks};
use rate_planner::NoRest;
use reg_bank::Bank;

// How many entries a call that was made ready may come to besides its own.
fn weight_of(draft: &Draft, verdict: Verdict) -> u64
    ensures { result ≡ weight_of (readied_of draft.now verdict) }
{
    match verdict {
        Verdict::Change => draft.script.weight(),
        _ => 0,
    }
}

impl<B: Bank> Machine<B> {
    // How many credits and steps the entries so far may come to.
    pub(super) fn used(&self) -> u64
        ensures { result ≡ self.now.credits + self.now.steps }
    {
        u64::from(self.credits) + u64::from(self.steps)
    }

    // Whether the moves of a plan can be made.
    fn can_move(&self, plan: &Plan) -> bool
        ensures moves { result ≡ moves_well self.now plan.now }
        ensures whole { IsWhole self.now }
    {
        let chain = plan.chain.as_slice();
        can_go_along(&self.tree, plan.set_parent, chain)
    }

    // A plan with its script goes on, if there is room for the entries of its steps and its moves can be
    // made: the clocks that it tells are found.
    pub(super) fn tell_clocks(&self, draft: &mut Draft) -> Result<Verdict, NoMemory>
        requires there { AreThere self.now.tree.clocks draft.old.planning.plan.rates }
        ensures scripts { IfOk result (λ verdict. Scripts self.now draft.old.planning.plan draft.old.script
            (readied_of draft.new verdict)) }
        ensures whole { IsWhole self.now }
    {
        let used = self.used();
        let weight = draft.script.weight();
        let moves = self.can_move(&draft.planning.plan);
        if !fits(used, weight) {
            return Ok(Verdict::Refused(Errno::ENOSPC));
        }
        if !moves {
            return Ok(Verdict::Refused(Errno::EINVAL));
        }
        let rates = draft.planning.plan.rates.as_slice();
        told_clocks(&mut draft.told, &self.tree, &self.notifiers, rates)?;
        Ok(Verdict::Change)
    }

    // Makes a call ready that changes a rate or a parent. Nothing is changed but the draft.
    pub(super) fn ready(
        &self,
        draft: &mut Draft,
        driver: u32,
        change: ChangeCall,
    ) -> Result<Verdict, NoMemory>
        requires credit { self.now.spent < self.now.credits }
        requires quiet { self.now.flight.going ≡ false }
        ensures ready { IfOk result (λ verdict. IsReady self.now driver (call_of change) (readied_of draft.new verdict)) }
        ensures can { IfOk result (λ verdict. CanBeginSo self.now driver (call_of change) (readied_of draft.new verdict)) }
    {
        let verdict = self.decide(draft, &NoRest, driver, change)?;
        match verdict {
            Verdict::Refused(errno) => Ok(Verdict::Refused(errno)),
            Verdict::AtOnce => Ok(Verdict::AtOnce),
            Verdict::Change => self.tell_clocks(draft),
        }
    }

    // The row of a handle that is the driver's own.
    pub(crate) fn known(&self, _driver: u32, handle: Handle) -> HandleRow
        requires { is_some (own_in self.now.table.handles _driver handle.number) ≡ true }
        ensures own { own_in self.now.table.handles _driver handle.number ≡ Some result }
        ensures live { handle_at self.now.table.handles handle.number ≡ Some result }
        ensures whole { IsWhole self.now }
    {
        self.handles.of(handle)
    }

    // Answers a call by Ok that changes a rate or a parent and has nothing to do.
    pub(super) fn answer_at_once(&mut self, driver: u32, change: ChangeCall)
        requires credit { self.old.spent < self.old.credits }
        requires quiet { self.old.flight.going ≡ false }
        requires own { IsOwnCall self.old.table.handles driver (call_of change) }
        ensures proceeds { Proceeds self.old driver (Begin (call_of change)) (Done Fine) self.new }
        ensures leads { LeadsSo self.old driver (call_of change) AtOnce (Done Fine) self.new }
    {
        let handle = change.handle;
        match change.wanted {
            Wanted::Rate(_) => self.spend(),
            Wanted::Parent(_) => self.spend(),
            Wanted::HeldRate(_) => {
                let row = self.known(driver, handle);
                self.add_exclusive(handle, row);
            }
            Wanted::Range(least, most) => {
                let row = self.known(driver, handle);
                self.keep_range(handle, row, least, most);
            }
        }
    }

    // A change of rate or parent goes on with what the draft holds, of a handle that had this range in Hz
    // where the call sets one. All memory that it needs is taken.
    #[inline(always)]
    fn start_along(
        &mut self,
        draft: &mut Draft,
        driver: u32,
        change: ChangeCall,
        range: Option<(u64, u64)>,
    ) -> Result<(), NoMemory>
        requires credit { self.old.spent < self.old.credits }
        requires quiet { self.old.flight.going ≡ false }
        requires can { CanGoAlong self.old driver (call_of change) (scripted_of draft.old) }
        ensures ok { OnOk result (StartsAlong self.old driver (call_of change) range (scripted_of draft.old) self.new) }
        ensures err { OnErr result (self.new ≡ self.old) }
    {
        let start = Start {
            driver,
            call: change.call(),
            script: draft.script.take_steps(self.alloc),
            range,
            extra: draft.script.extra() as usize,
            vetoed: draft.script.vetoed(),
        };
        self.start_change(start, draft)
    }

    // A change of rate or parent goes on that sets no range. All memory that it needs is taken.
    fn go_along(
        &mut self,
        draft: &mut Draft,
        driver: u32,
        change: ChangeCall,
    ) -> Result<(), NoMemory>
        requires credit { self.old.spent < self.old.credits }
        requires quiet { self.old.flight.going ≡ false }
        requires unranged { is_ranged (call_of change) ≡ false }
        requires can { CanGoAlong self.old driver (call_of change) (scripted_of draft.old) }
        ensures proceeds { OnOk result (Proceeds self.old driver (Begin (call_of change)) Going self.new) }
        ensures leads { OnOk result (LeadsSo self.old driver (call_of change) (Change (scripted_of draft.old)) Going self.new) }
        ensures left { OnOk result (steps_left self.new ≡ (scripted_of draft.old).weight) }
        ensures err { OnErr result (self.new ≡ self.old) }
    {
        self.start_along(draft, driver, change, None)
    }

    // A change of rate goes on that gives a handle another range in Hz. All memory that it needs is
    // taken.
    fn go_along_within(
        &mut self,
        draft: &mut Draft,
        driver: u32,
        handle: Handle,
        least: u64,
        most: u64,
    ) -> Result<(), NoMemory>
        requires credit { self.old.spent < self.old.credits }
        requires quiet { self.old.flight.going ≡ false }
        requires can { CanGoAlong self.old driver (SetRange handle least most) (scripted_of draft.old) }
        ensures proceeds { OnOk result (Proceeds self.old driver (Begin (SetRange handle least most)) Going self.new) }
        ensures leads { OnOk result (LeadsSo self.old driver (SetRange handle least most) (Change (scripted_of draft.old)) Going self.new) }
        ensures left { OnOk result (steps_left self.new ≡ (scripted_of draft.old).weight) }
        ensures err { OnErr result (self.new ≡ self.old) }
    {
        let row = self.known(driver, handle);
        let wanted = Wanted::Range(least, most);
        let change = ChangeCall { handle, wanted };
        self.start_along(draft, driver, change, Some((row.min, row.max)))?;
        self.write_range(handle, row, least, most);
        Ok(())
    }

    // A change of rate or parent goes on.
    fn go_on(&mut self, draft: &mut Draft, driver: u32, change: ChangeCall) -> Result<(), NoMemory>
        requires credit { self.old.spent < self.old.credits }
        requires quiet { self.old.flight.going ≡ false }
        requires can { CanGoAlong self.old driver (call_of change) (scripted_of draft.old) }
        ensures proceeds { OnOk result (Proceeds self.old driver (Begin (call_of change)) Going self.new) }
        ensures leads { OnOk result (LeadsSo self.old driver (call_of change) (Change (scripted_of draft.old)) Going self.new) }
        ensures left { OnOk result (steps_left self.new ≡ (scripted_of draft.old).weight) }
        ensures err { OnErr result (self.new ≡ self.old) }
    {
        match change.wanted {
            Wanted::Range(least, most) => {
                self.go_along_within(draft, driver, change.handle, least, most)
            }
            Wanted::Rate(_) | Wanted::HeldRate(_) | Wanted::Parent(_) => {
                self.go_along(draft, driver, change)
            }
        }
    }

    // Begins a call that changes a rate or a parent as it was made ready.
    fn begin_so(
        &mut self,
        draft: &mut Draft,
        driver: u32,
        change: ChangeCall,
        verdict: Verdict,
    ) -> Result<Turn, NoMemory>
        requires credit { self.old.spent < self.old.credits }
        requires quiet { self.old.flight.going ≡ false }
        requires can { CanBeginSo self.old driver (call_of change) (readied_of draft.old verdict) }
        ensures proceeds { IfOk result (λ turn. Proceeds self.old driver (Begin (call_of change)) turn self.new) }
        ensures kind { IfOk result (λ turn. is_answer_to (Begin (call_of change)) turn ≡ true) }
        ensures leads { IfOk result (λ turn. LeadsSo self.old driver (call_of change) (readied_of draft.old verdict) turn self.new) }
        ensures left { IfOk result (λ turn. is_going turn ≡ true → steps_left self.new ≡ weight_of (readied_of draft.old verdict)) }
        ensures err { OnErr result (self.new ≡ self.old) }
    {
        match verdict {
            Verdict::Refused(errno) => {
                self.spend();
                Ok(Turn::Done(Reply::Refused(errno)))
            }
            Verdict::AtOnce => {
                self.answer_at_once(driver, change);
                Ok(Turn::Done(Reply::Fine))
            }
            Verdict::Change => {
                self.go_on(draft, driver, change)?;
                Ok(Turn::Going)
            }
        }
    }

    // Begins a call that changes a rate or a parent as it was made ready, with room in the log for the
    // entries of its steps.
    pub(super) fn begin_readied(
        &mut self,
        draft: &mut Draft,
        log: &mut Log,
        driver: u32,
        change: ChangeCall,
        verdict: Verdict,
    ) -> Result<Turn, NoMemory>
        requires credit { self.old.spent < self.old.credits }
        requires quiet { self.old.flight.going ≡ false }
        requires can { CanBeginSo self.old driver (call_of change) (readied_of draft.old verdict) }
        requires paid { self.old.credits ≤ self.old.spent + log.old.room }
        ensures proceeds { IfOk result (λ turn. Proceeds self.old driver (Begin (call_of change)) turn self.new) }
        ensures kind { IfOk result (λ turn. is_answer_to (Begin (call_of change)) turn ≡ true) }
        ensures leads { IfOk result (λ turn. LeadsSo self.old driver (call_of change) (readied_of draft.old verdict) turn self.new) }
        ensures room { IfOk result (λ turn. is_going turn ≡ true → self.old.credits + steps_left self.new ≤ self.old.spent + log.new.room) }
        ensures entries { log.new.entries ≡ log.old.entries }
        ensures kept { log.old.room ≤ log.new.room }
        ensures err { OnErr result (self.new ≡ self.old) }
    {
        log.make_room(self.credits_left(), weight_of(draft, verdict))?;
        self.begin_so(draft, driver, change, verdict)
    }

    /// Begins a call that changes a rate or a parent, with room in the log for the entries of its steps.
    pub(crate) fn begin_change(
        &mut self,
        draft: &mut Draft,
        log: &mut Log,
        driver: u32,
        change: ChangeCall,
    ) -> Result<Turn, NoMemory>
        requires credit { self.old.spent < self.old.credits }
        requires quiet { self.old.flight.going ≡ false }
        requires paid { self.old.credits ≤ self.old.spent + log.old.room }
        ensures ok { IfOk result (λ turn. Enters self.old driver (Begin (call_of change)) turn self.new) }
        ensures kind { IfOk result (λ turn. is_answer_to (Begin (call_of change)) turn ≡ true) }
        ensures room { IfOk result (λ turn. is_going turn ≡ true → self.old.credits + steps_left self.new ≤ self.old.spent + log.new.room) }
        ensures entries { log.new.entries ≡ log.old.entries }
        ensures kept { log.old.room ≤ log.new.room }
        ensures err { OnErr result (self.new ≡ self.old) }
    {
        let verdict = self.ready(draft, driver, change)?;
        self.begin_readied(draft, log, driver, change, verdict)
    }
}
