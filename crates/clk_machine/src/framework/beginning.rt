//! The beginning of a call as it was decided over a copy of the prepare tier.

ghost use Rattle.std.specs.Prelude.{◌≡◌, ◌<◌, ◌&&◌, true, false, IfOk, IsOk, OnErr};
ghost use Rattle.clk_base.specs.declared.event.Event.TheVariants.{Begin};
ghost use Rattle.clk_base.specs.declared.event.Turn.TheVariants.{Done};
ghost use Rattle.clk_model.specs.Journal.{cost, slotless};
ghost use Rattle.clk_model.specs.Laws.CallCauses.{CallTurns};
ghost use Rattle.clk_model.specs.Laws.Causes.{LeavesRefused};
ghost use Rattle.clk_model.specs.Laws.PrepBegins.{is_decided};
ghost use Rattle.clk_machine.specs.ChangeCalls.{call_of};
ghost use Rattle.clk_machine.specs.Copied.{IsDecided};
ghost use Rattle.clk_machine.specs.declared.decision.Decision.TheVariants as decided;
ghost use Rattle.clk_machine.specs.Kinds.{gets_handle, gets_parent, gets_rate, gives_up, is_answer_to, is_reply_to};
ghost use Rattle.clk_machine.specs.Memory.{NeedsMemory};
ghost use Rattle.clk_machine.specs.Run.{Appends, in_flight, now_of};
ghost use Rattle.clk_machine.specs.Sound.{IsPlaced, takes_memory};
ghost use Rattle.clk_machine.specs.Weighed.{GoesOnWithin};

use super::Core;
use crate::change::{ChangeCall, change_of};
use crate::machine::is_asking;
use change_walk::StepList;
use clk_base::{Entry, Event, Reply, Sleeping, Turn};
use clk_io::NoMemory;
use clk_tree::Plan;
use reg_bank::Bank;

// Whether a call is decided by the prepare tier alone.
fn is_decided(what: &Sleeping) -> bool
    ensures { result ≡ is_decided what.now }
{
    is_asking(what) || change_of(*what).is_some()
}

// Whether a call gives up a prepare or an exclusive hold.
fn is_giving_up(what: &Sleeping) -> bool
    ensures { result ≡ gives_up what.now }
{
    matches!(what, Sleeping::Unprepare(_) | Sleeping::ExclusivePut(_))
}

// Whether a call gets a handle.
fn is_getting_handle(what: &Sleeping) -> bool
    ensures { result ≡ gets_handle what.now }
{
    matches!(what, Sleeping::Get(_))
}

// Whether a call gets a rate.
fn is_getting_rate(what: &Sleeping) -> bool
    ensures { result ≡ gets_rate what.now }
{
    matches!(what, Sleeping::GetRate(_) | Sleeping::RoundRate(_, _))
}

// Whether a call gets a parent.
fn is_getting_parent(what: &Sleeping) -> bool
    ensures { result ≡ gets_parent what.now }
{
    matches!(what, Sleeping::GetParent(_))
}

// Whether a call may be answered so.
fn is_reply_to(what: &Sleeping, reply: Reply) -> bool
    ensures { result ≡ is_reply_to what.now reply }
{
    match reply {
        Reply::Fine => {
            !(is_getting_handle(what) || is_getting_rate(what) || is_getting_parent(what))
        }
        Reply::Warn => is_giving_up(what),
        Reply::Yes | Reply::No => false,
        Reply::Handle(_) => is_getting_handle(what),
        Reply::Rate(_) => is_getting_rate(what),
        Reply::Clock(_) => is_getting_parent(what),
        Reply::Refused(_) => true,
    }
}

// Whether a call is decided by the prepare tier alone, and may be answered so. Over a bank that tells
// nothing a decision may be any.
fn takes_reply(what: &Sleeping, reply: Reply) -> bool
    ensures { result ≡ (is_decided what.now && is_reply_to what.now reply) }
{
    is_decided(what) && is_reply_to(what, reply)
}

impl<B: Bank> Core<B> {
    // Begins a call that was decided to be answered so.
    pub(super) fn begin_replied(
        &mut self,
        driver: u32,
        what: &Sleeping,
        reply: Reply,
    ) -> Result<Turn, NoMemory>
        requires credit { cost self.old.journal < self.old.start.credits }
        requires quiet { in_flight self.old.journal ≡ false }
        requires place { IsPlaced self.old.start.defs what.now }
        requires decided { self.old.told ≡ true → IsDecided (now_of self.old) driver what.now (decided.Reply reply) }
        ensures ok { IfOk result (λ turn. Appends self.old driver (Begin what.now) turn self.new) }
        ensures kind { IfOk result (λ turn. is_answer_to (Begin what.now) turn ≡ true) }
        ensures turns { self.old.told ≡ true → IfOk result (λ turn. CallTurns (now_of self.old) driver what.now (slotless turn)) }
        ensures refused { self.old.told ≡ true → IfOk result (λ turn. LeavesRefused turn (now_of self.old) (now_of self.new)) }
        ensures weight { self.old.told ≡ true → IfOk result (λ turn. GoesOnWithin turn self.new) }
        ensures err { OnErr result (self.new ≡ self.old) }
        ensures memory { takes_memory what.now ≡ false → IsOk result }
        ensures needs { self.old.told ≡ true → OnErr result (NeedsMemory (now_of self.old) driver what.now) }
    {
        if !takes_reply(what, reply) {
            return self.begin(driver, what);
        }
        Ok(self.begin_answered(driver, *what, reply))
    }

    // Enters that a call which asks or plans is answered so.
    fn begin_answered(&mut self, driver: u32, what: Sleeping, reply: Reply) -> Turn
        requires credit { cost self.old.journal < self.old.start.credits }
        requires quiet { in_flight self.old.journal ≡ false }
        requires place { IsPlaced self.old.start.defs what }
        requires asks_or_plans { is_decided what ≡ true }
        requires kind { is_reply_to what reply ≡ true }
        requires decided { self.old.told ≡ true → IsDecided (now_of self.old) driver what (decided.Reply reply) }
        ensures ok { Appends self.old driver (Begin what) result self.new }
        ensures done { result ≡ Done reply }
    {
        self.machine.answer_as(driver, what, reply);
        self.log.push(Entry {
            driver,
            event: Event::Begin(what),
            turn: Turn::Done(reply),
        });
        Turn::Done(reply)
    }

    // Begins a call that was decided to go on with this plan.
    pub(super) fn begin_scripted(
        &mut self,
        driver: u32,
        what: &Sleeping,
        plan: Plan,
        steps: StepList,
    ) -> Result<Turn, NoMemory>
        requires credit { cost self.old.journal < self.old.start.credits }
        requires quiet { in_flight self.old.journal ≡ false }
        requires place { IsPlaced self.old.start.defs what.now }
        requires decided { self.old.told ≡ true → IsDecided (now_of self.old) driver what.now (decided.Script plan steps) }
        ensures ok { IfOk result (λ turn. Appends self.old driver (Begin what.now) turn self.new) }
        ensures kind { IfOk result (λ turn. is_answer_to (Begin what.now) turn ≡ true) }
        ensures turns { self.old.told ≡ true → IfOk result (λ turn. CallTurns (now_of self.old) driver what.now (slotless turn)) }
        ensures refused { self.old.told ≡ true → IfOk result (λ turn. LeavesRefused turn (now_of self.old) (now_of self.new)) }
        ensures weight { self.old.told ≡ true → IfOk result (λ turn. GoesOnWithin turn self.new) }
        ensures err { OnErr result (self.new ≡ self.old) }
        ensures memory { takes_memory what.now ≡ false → IsOk result }
        ensures needs { self.old.told ≡ true → OnErr result (NeedsMemory (now_of self.old) driver what.now) }
    {
        let Some(change) = change_of(*what) else {
            return self.begin(driver, what);
        };
        let turn = self.begin_planned(driver, change, plan, steps)?;
        self.weigh();
        Ok(turn)
    }

    // Begins a call that changes a rate or a parent with this plan, with room for the entries of its
    // steps.
    fn begin_planned(
        &mut self,
        driver: u32,
        change: ChangeCall,
        plan: Plan,
        _steps: StepList,
    ) -> Result<Turn, NoMemory>
        requires credit { cost self.old.journal < self.old.start.credits }
        requires quiet { in_flight self.old.journal ≡ false }
        requires place { IsPlaced self.old.start.defs (call_of change) }
        requires decided { self.old.told ≡ true → IsDecided (now_of self.old) driver (call_of change) (decided.Script plan _steps) }
        ensures ok { IfOk result (λ turn. Appends self.old driver (Begin (call_of change)) turn self.new) }
        ensures kind { IfOk result (λ turn. is_answer_to (Begin (call_of change)) turn ≡ true) }
        ensures err { OnErr result (self.new ≡ self.old) }
    {
        self.draft.planning.plan = plan;
        let turn = self
            .machine
            .begin_planned(&mut self.draft, &mut self.log, driver, change)?;
        self.log.push(Entry {
            driver,
            event: Event::Begin(change.call()),
            turn,
        });
        Ok(turn)
    }
}
