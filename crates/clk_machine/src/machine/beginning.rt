//! The beginning of a call as it was decided over a copy of the prepare tier. Nothing is rounded or
//! planned here. What holds only if a state is known is tested, and is so then.

ghost use Rattle.std.specs.List.{list_all};
ghost use Rattle.std.specs.Prelude.{◌≡◌, ◌+◌, ◌<◌, ◌≤◌, true, false, is_some, IfOk, OnErr};
ghost use Rattle.clk_base.specs.declared.event.Event.TheVariants.{Begin};
ghost use Rattle.clk_base.specs.declared.event.Reply.TheVariants.{Fine};
ghost use Rattle.clk_base.specs.declared.event.Turn.TheVariants.{Done};
ghost use Rattle.clk_model.specs.Journal.{is_going};
ghost use Rattle.clk_model.specs.Laws.PlansRead.{asks};
ghost use Rattle.clk_model.specs.Laws.PrepBegins.{is_decided};
ghost use Rattle.clk_model.specs.Step.{sets_parent};
ghost use Rattle.clk_model.specs.State.{registered};
ghost use Rattle.clk_machine.specs.Beginning.{BeginsAsPlanned, IsSuited, LeadsAnswered, LeadsPlanned};
ghost use Rattle.clk_machine.specs.ChangeCalls.{call_of};
ghost use Rattle.clk_machine.specs.Deciding.{handle_of};
ghost use Rattle.clk_machine.specs.Kinds.{is_answer_to};
ghost use Rattle.clk_machine.specs.Parts.{own_in, steps_left, IsWhole};
ghost use Rattle.clk_machine.specs.Readied.{readied_of};
ghost use Rattle.clk_machine.specs.Readying.{CanBeginSo};
ghost use Rattle.clk_machine.specs.Stands.{Proceeds};

use super::Machine;
use crate::change::{ChangeCall, Wanted, change_of};
use crate::log::Log;
use clk_base::{Errno, Reply, Sleeping, Turn};
use clk_io::NoMemory;
use clk_tree::{Plan, Tree, WalkRate};
use core_parts::{Draft, Seen, Verdict, write_script};
use reg_bank::Bank;

// Whether a call asks for a rate or a parent.
pub(crate) fn is_asking(what: &Sleeping) -> bool
    ensures { result ≡ asks what.now }
{
    matches!(
        what,
        Sleeping::GetRate(_) | Sleeping::RoundRate(_, _) | Sleeping::GetParent(_)
    )
}

// Whether a call changes a parent.
fn is_reparenting(change: ChangeCall) -> bool
    ensures { result ≡ sets_parent (call_of change) }
{
    matches!(change.wanted, Wanted::Parent(_))
}

// Whether the clock of a rate is registered.
fn is_there(tree: &Tree, rate: &WalkRate) -> bool
    ensures { result ≡ registered tree.now.clocks rate.now.clock.0 }
{
    tree.registered(rate.clock)
}

// Whether the clocks of these rates are registered.
fn are_there(tree: &Tree, rates: &[WalkRate]) -> bool
    ensures { result ≡ list_all (λ r. registered tree.now.clocks r.clock.0) rates.now }
{
    rates.iter().all(|rate| is_there(tree, rate))
}

impl<B: Bank> Machine<B> {
    // Whether a call that changes a rate or a parent is on a handle of its driver.
    fn owns(&self, driver: u32, change: ChangeCall) -> bool
        ensures own { result ≡ is_some (own_in self.now.table.handles driver (handle_of (call_of change))) }
        ensures whole { IsWhole self.now }
    {
        self.own(driver, change.handle).is_some()
    }

    // Answers a call by Ok that changes a rate or a parent, if the handle is the driver's own.
    fn answer_fine(&mut self, driver: u32, change: ChangeCall)
        requires credit { self.old.spent < self.old.credits }
        requires quiet { self.old.flight.going ≡ false }
        ensures proceeds { Proceeds self.old driver (Begin (call_of change)) (Done Fine) self.new }
        ensures leads { LeadsAnswered self.old driver (call_of change) Fine self.new }
    {
        if !self.owns(driver, change) {
            self.spend();
            return;
        }
        self.answer_at_once(driver, change);
    }

    // Answers a call that changes a rate or a parent so.
    fn answer_planned(&mut self, driver: u32, change: ChangeCall, reply: Reply)
        requires credit { self.old.spent < self.old.credits }
        requires quiet { self.old.flight.going ≡ false }
        ensures proceeds { Proceeds self.old driver (Begin (call_of change)) (Done reply) self.new }
        ensures leads { LeadsAnswered self.old driver (call_of change) reply self.new }
    {
        match reply {
            Reply::Fine => self.answer_fine(driver, change),
            _ => self.spend(),
        }
    }

    /// Answers a call so that asks or plans.
    pub(crate) fn answer_as(&mut self, driver: u32, what: Sleeping, reply: Reply)
        requires credit { self.old.spent < self.old.credits }
        requires quiet { self.old.flight.going ≡ false }
        requires decided { is_decided what ≡ true }
        ensures proceeds { Proceeds self.old driver (Begin what) (Done reply) self.new }
        ensures leads { LeadsAnswered self.old driver what reply self.new }
    {
        match change_of(what) {
            Some(change) => self.answer_planned(driver, change, reply),
            None => self.spend(),
        }
    }

    // Whether a call can go on with a plan, whatever the bank tells: its handle is the driver's own, and
    // the plan is of such a call, over registered clocks.
    fn suits(&self, driver: u32, change: ChangeCall, plan: &Plan) -> bool
        ensures yes { result ≡ true → IsSuited self.now driver (call_of change) plan.now }
        ensures no { IsSuited self.now driver (call_of change) plan.now → result ≡ true }
        ensures whole { IsWhole self.now }
    {
        if !self.owns(driver, change) {
            return false;
        }
        if plan.set_parent != is_reparenting(change) {
            return false;
        }
        are_there(&self.tree, plan.rates.as_slice())
    }

    // Makes a call ready with the plan of a draft, whose script is made anew. Nothing is changed but the
    // draft.
    pub(super) fn ready_planned(
        &self,
        draft: &mut Draft,
        driver: u32,
        change: ChangeCall,
    ) -> Result<Verdict, NoMemory>
        requires credit { self.now.spent < self.now.credits }
        requires quiet { self.now.flight.going ≡ false }
        ensures ready { IfOk result (λ verdict. BeginsAsPlanned self.now driver (call_of change) draft.old.planning.plan
            (readied_of draft.new verdict)) }
        ensures can { IfOk result (λ verdict. CanBeginSo self.now driver (call_of change) (readied_of draft.new verdict)) }
    {
        if !self.suits(driver, change, &draft.planning.plan) {
            return Ok(Verdict::Refused(Errno::EINVAL));
        }
        let view = Seen {
            handles: &self.handles,
            ranged: None,
            counts: &self.counts,
        };
        write_script(draft, &self.tree, &view, &self.notifiers)?;
        self.tell_clocks(draft)
    }

    /// Begins a call that changes a rate or a parent with the plan of a draft, with room in the log for
    /// the entries of its steps. Its script is made anew, and whether there is room for it is tested here.
    pub(crate) fn begin_planned(
        &mut self,
        draft: &mut Draft,
        log: &mut Log,
        driver: u32,
        change: ChangeCall,
    ) -> Result<Turn, NoMemory>
        requires credit { self.old.spent < self.old.credits }
        requires quiet { self.old.flight.going ≡ false }
        requires paid { self.old.credits ≤ self.old.spent + log.old.room }
        ensures proceeds { IfOk result (λ turn. Proceeds self.old driver (Begin (call_of change)) turn self.new) }
        ensures kind { IfOk result (λ turn. is_answer_to (Begin (call_of change)) turn ≡ true) }
        ensures leads { IfOk result (λ turn. LeadsPlanned self.old driver (call_of change) draft.old.planning.plan turn self.new) }
        ensures room { IfOk result (λ turn. is_going turn ≡ true → self.old.credits + steps_left self.new ≤ self.old.spent + log.new.room) }
        ensures entries { log.new.entries ≡ log.old.entries }
        ensures kept { log.old.room ≤ log.new.room }
        ensures err { OnErr result (self.new ≡ self.old) }
    {
        let verdict = self.ready_planned(draft, driver, change)?;
        self.begin_readied(draft, log, driver, change, verdict)
    }
}
