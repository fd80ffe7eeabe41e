//! The core: the machine with its journal.

ghost use Rattle.std.specs.Prelude.{◌≡◌, ℕ, ◌+◌, ◌<◌, ◌≤◌, true, false, None, [], ◌∷◌};
ghost use Rattle.std.specs.Prelude.{◌++◌, length, take, drop, is_some, IfSome, IfOk, IsOk, OnErr};
ghost use Rattle.std.specs.Option.{option_map};
ghost use Rattle.clk_model.specs.Journal.{opening, Polled, cost};
ghost use Rattle.clk_model.specs.Begin.{most_credits};
ghost use Rattle.clk_base.specs.declared.event.Event.TheVariants.{Step};
ghost use Rattle.core_parts.specs.MadeSteps.{step_of, answer_of, turn_of};

mod beginning;
mod copying;
mod telling;

use crate::decision::Decision;
use crate::log::Log;
use crate::machine::Machine;
use clk_base::{Entry, Event, Handle, Micro, Reply, Sleeping, Turn, ValidDesc};
use clk_io::NoMemory;
use core_parts::{Draft, Made};
use reg_bank::Bank;
use std::alloc::Global;
use std::marker::Model;

/// The whole state of the clock framework over a bank, with the journal of all that happened.
///
/// Contracts see a core as its opening and its journal. Its state is the journal's replay from the
/// opening, by the definitions of `clk_model`, wherever the bank tells its words.
pub struct Core<B: Bank> {
    machine: Machine<B>,
    words: Vec<u32>,
    log: Log,
    // What changes are worked out in before they begin.
    draft: Draft,
}

// A core is let go here, and not in each crate that drops one.
impl<B: Bank> Drop for Core<B> {
    fn drop(self) {
        let Core {
            machine: _,
            words: _,
            log: _,
            draft: _,
        } = self;
    }
}

// Appends the entry of a step that was made. Answers its turn.
fn push_made(log: &mut Log, driver: u32, made: Made) -> Turn
    requires { 0 < log.old.room }
    ensures entries { log.new.entries ≡ log.old.entries
        ++ record { driver = driver; event = Step (step_of made) (answer_of made); turn = turn_of made } ∷ [] }
    ensures room { log.new.room + 1 ≡ log.old.room }
    ensures turn { result ≡ turn_of made }
{
    match made {
        Made::GoesOn(step, answer) => {
            log.push(Entry {
                driver,
                event: Event::Step(step, answer),
                turn: Turn::Going,
            });
            Turn::Going
        }
        Made::Ends(reply) => {
            log.push(Entry {
                driver,
                event: Event::Step(Micro::End, None),
                turn: Turn::Done(reply),
            });
            Turn::Done(reply)
        }
    }
}

impl<B: Bank> Model for Core<B> {
    ghost use Rattle.clk_machine.specs.Run.{Run, run_of, IsRun};

    ghost Value = { Run };

    ghost view = { λ c. run_of c.machine c.words.items c.log };

    ghost invariant = { λ c. IsRun c.machine c.words.items c.log };
}

impl<B: Bank> Core<B> {
    ghost use Rattle.clk_base.specs.declared.event.Event.TheVariants.{Enable, Disable, Running, Begin};
    ghost use Rattle.clk_base.specs.declared.event.Turn.TheVariants.{Done};
    ghost use Rattle.clk_machine.specs.Sound.{IsPlaced, takes_memory};
    ghost use Rattle.clk_model.specs.Journal.{slotless};
    ghost use Rattle.clk_model.specs.Laws.CallCauses.{CallTurns};
    ghost use Rattle.clk_model.specs.Laws.Causes.{EnableCauses, DisableCauses, RunningCauses, LeavesRefused};
    ghost use Rattle.clk_machine.specs.Copied.{IsDecided};
    ghost use Rattle.clk_machine.specs.Kinds.{is_answer_to, LastMayAnswer};
    ghost use Rattle.clk_machine.specs.Memory.{NeedsMemory};
    ghost use Rattle.clk_machine.specs.Run.{Run, now_of, in_flight, Appends, StepsOn, StepTurns};
    ghost use Rattle.clk_machine.specs.Weighed.{GoesOnWithin};
    ghost use Rattle.clk_model.specs.Laws.Paced.{left_of};
    ghost use Rattle.core_parts.specs.Window.{behind_of, delays_in, locks_of, HasDelays};

    /// A core at its opening: the words are written to the bank, nothing is registered, and the
    /// journal is empty with room for all credits. The one error is want of memory.
    pub fn create(
        alloc: Global,
        desc: ValidDesc,
        bank: B,
        words: &[u32],
        ignore_unused: bool,
        credits: u32,
    ) -> Result<Core<B>, NoMemory>
        // There are as many words as the description was checked for.
        requires words { length words.now ≡ desc.words }
        // The bank has at least as many.
        requires bank { length words.now ≤ B.size bank }
        // There are at most as many credits as a run may be given.
        requires credits { credits ≤ most_credits }
        // The core begins at the opening of the description, the words and the credits.
        ensures start { IfOk result (λ core. core.start ≡ opening desc.defs words.now ignore_unused credits) }
        // The journal is empty.
        ensures journal { IfOk result (λ core. core.journal ≡ []) }
        // The core knows its state exactly where the bank tells its words.
        ensures told { IfOk result (λ core. core.told ≡ is_some (B.contents bank)) }
        // What lies behind the given words are the further words of the bank, and the delays of its locks.
        ensures behind { IfOk result (λ core. core.behind ≡ behind_of (length words.now) (B.contents bank) (B.lock bank)) }
        // No step is to come.
        ensures left { IfOk result (λ core. core.left ≡ 0) }
    {
        let log = Log::create(alloc, credits)?;
        let kept = Vec::from_slice(alloc, words)?;
        let machine = Machine::create(alloc, desc, bank, words, ignore_unused, credits)?;
        Ok(Core {
            machine,
            words: kept,
            log,
            draft: Draft::none(alloc),
        })
    }

    /// Enables a handle. Takes no memory.
    pub fn enable(&mut self, driver: u32, handle: Handle) -> Reply
        // A credit is left.
        requires { cost self.old.journal < self.old.start.credits }
        // The machine takes the event, answers so, and its entry is appended.
        ensures entry { Appends self.old driver (Enable handle.number) (Done result) self.new }
        // The answer is of the kind of the event, whatever the bank tells.
        ensures kind { is_answer_to (Enable handle.number) (Done result) ≡ true }
        // Where the bank tells its words, each answer has its cause in the state before.
        ensures causes { self.old.told ≡ true → EnableCauses (now_of self.old) driver handle.number result }
        // Where the bank tells its words, a refusal spends a credit and changes nothing else.
        ensures refused { self.old.told ≡ true → LeavesRefused (Done result) (now_of self.old) (now_of self.new) }
    {
        let reply = self.machine.enable(driver, handle);
        self.log.push(Entry {
            driver,
            event: Event::Enable(handle.number),
            turn: Turn::Done(reply),
        });
        reply
    }

    /// Disables a handle. Takes no memory.
    pub fn disable(&mut self, driver: u32, handle: Handle) -> Reply
        // A credit is left.
        requires { cost self.old.journal < self.old.start.credits }
        // The machine takes the event, answers so, and its entry is appended.
        ensures entry { Appends self.old driver (Disable handle.number) (Done result) self.new }
        // The answer is of the kind of the event, whatever the bank tells.
        ensures kind { is_answer_to (Disable handle.number) (Done result) ≡ true }
        // Where the bank tells its words, each answer has its cause in the state before.
        ensures causes { self.old.told ≡ true → DisableCauses (now_of self.old) driver handle.number result }
        // Where the bank tells its words, a refusal spends a credit and changes nothing else.
        ensures refused { self.old.told ≡ true → LeavesRefused (Done result) (now_of self.old) (now_of self.new) }
    {
        let reply = self.machine.disable(driver, handle);
        self.log.push(Entry {
            driver,
            event: Event::Disable(handle.number),
            turn: Turn::Done(reply),
        });
        reply
    }

    /// Tells whether a handle's clock is active. Takes no memory.
    pub fn running(&mut self, driver: u32, handle: Handle) -> Reply
        // A credit is left.
        requires { cost self.old.journal < self.old.start.credits }
        // The machine takes the event, answers so, and its entry is appended.
        ensures entry { Appends self.old driver (Running handle.number) (Done result) self.new }
        // The answer is of the kind of the event, whatever the bank tells.
        ensures kind { is_answer_to (Running handle.number) (Done result) ≡ true }
        // Where the bank tells its words, each answer has its cause in the state before.
        ensures causes { self.old.told ≡ true → RunningCauses (now_of self.old) driver handle.number result }
        // Where the bank tells its words, a refusal spends a credit and changes nothing else.
        ensures refused { self.old.told ≡ true → LeavesRefused (Done result) (now_of self.old) (now_of self.new) }
    {
        let reply = self.machine.running(driver, handle);
        self.log.push(Entry {
            driver,
            event: Event::Running(handle.number),
            turn: Turn::Done(reply),
        });
        reply
    }

    /// Begins a call of a driver. It is answered at once, or goes on by steps.
    ///
    /// After `NoMemory` the core is as it was, without an entry. It comes at a get, where a notifier
    /// is added, and at a prepare, an unprepare, a change of rate or parent, a probe and the sweep,
    /// which take the room for the entries of their steps before they begin.
    pub fn begin(&mut self, driver: u32, what: &Sleeping) -> Result<Turn, NoMemory>
        // A credit is left.
        requires credit { cost self.old.journal < self.old.start.credits }
        // No call is in flight.
        requires quiet { in_flight self.old.journal ≡ false }
        // The clocks that the call names are clocks of the description.
        requires place { IsPlaced self.old.start.defs what.now }
        // The machine takes the event, answers so, and its entry is appended.
        ensures ok { IfOk result (λ turn. Appends self.old driver (Begin what.now) turn self.new) }
        // The turn is of the kind of the call, whatever the bank tells.
        ensures kind { IfOk result (λ turn. is_answer_to (Begin what.now) turn ≡ true) }
        // Where the bank tells its words, the turn of each call comes exactly where its cause in the state before holds.
        ensures turns { self.old.told ≡ true → IfOk result (λ turn. CallTurns (now_of self.old) driver what.now (slotless turn)) }
        // Where the bank tells its words, a refusal spends a credit and changes nothing else.
        ensures refused { self.old.told ≡ true → IfOk result (λ turn. LeavesRefused turn (now_of self.old) (now_of self.new)) }
        // Where the bank tells its words, a call that goes on may come to as many steps as its script weighs.
        ensures weight { self.old.told ≡ true → IfOk result (λ turn. GoesOnWithin turn self.new) }
        // Where memory runs out, the core is as it was.
        ensures err { OnErr result (self.new ≡ self.old) }
        // That can be only where the call takes memory.
        ensures memory { takes_memory what.now ≡ false → IsOk result }
        // Where the bank tells its words, a prepare and an unprepare that are answered at once take none.
        ensures needs { self.old.told ≡ true → OnErr result (NeedsMemory (now_of self.old) driver what.now) }
    {
        let turn = self.begin_so(driver, *what)?;
        self.weigh();
        Ok(turn)
    }

    /// Begins a call of a driver as it was decided over a copy of the prepare tier. Nothing is rounded
    /// or planned here, unless the call is decided inside its turn.
    ///
    /// After `NoMemory` the core is as it was, without an entry. It comes at the calls at which it
    /// comes from `begin`.
    pub fn begin_as(
        &mut self,
        driver: u32,
        what: &Sleeping,
        decision: Decision,
    ) -> Result<Turn, NoMemory>
        // A credit is left.
        requires credit { cost self.old.journal < self.old.start.credits }
        // No call is in flight.
        requires quiet { in_flight self.old.journal ≡ false }
        // The clocks that the call names are clocks of the description.
        requires place { IsPlaced self.old.start.defs what.now }
        // Where the bank tells its words, it was decided so over the prepare tier's part of the core's state.
        requires decided { self.old.told ≡ true → IsDecided (now_of self.old) driver what.now decision }
        // The machine takes the event, answers so, and its entry is appended.
        ensures ok { IfOk result (λ turn. Appends self.old driver (Begin what.now) turn self.new) }
        // The turn is of the kind of the call, whatever the bank tells.
        ensures kind { IfOk result (λ turn. is_answer_to (Begin what.now) turn ≡ true) }
        // Where the bank tells its words, the turn of each call comes exactly where its cause in the state before holds.
        ensures turns { self.old.told ≡ true → IfOk result (λ turn. CallTurns (now_of self.old) driver what.now (slotless turn)) }
        // Where the bank tells its words, a refusal spends a credit and changes nothing else.
        ensures refused { self.old.told ≡ true → IfOk result (λ turn. LeavesRefused turn (now_of self.old) (now_of self.new)) }
        // Where the bank tells its words, a call that goes on may come to as many steps as its script weighs.
        ensures weight { self.old.told ≡ true → IfOk result (λ turn. GoesOnWithin turn self.new) }
        // Where memory runs out, the core is as it was.
        ensures err { OnErr result (self.new ≡ self.old) }
        // That can be only where the call takes memory.
        ensures memory { takes_memory what.now ≡ false → IsOk result }
        // Where the bank tells its words, a prepare and an unprepare that are answered at once take none.
        ensures needs { self.old.told ≡ true → OnErr result (NeedsMemory (now_of self.old) driver what.now) }
    {
        match decision {
            Decision::Reply(reply) => self.begin_replied(driver, what, reply),
            Decision::Script { plan, steps } => self.begin_scripted(driver, what, plan, steps),
            Decision::Inside => self.begin(driver, what),
        }
    }

    // The steps to come are the weight that is left of the change in flight, where the bank tells its
    // words.
    fn weigh(&self)
        ensures { self.now.told ≡ true → self.now.left ≡ left_of (now_of self.now) }
    {
        self.machine.keep();
    }

    // Begins a call of a driver, with room for the entries of the steps that it may come to.
    fn begin_so(&mut self, driver: u32, what: Sleeping) -> Result<Turn, NoMemory>
        requires credit { cost self.old.journal < self.old.start.credits }
        requires quiet { in_flight self.old.journal ≡ false }
        requires place { IsPlaced self.old.start.defs what }
        ensures ok { IfOk result (λ turn. Appends self.old driver (Begin what) turn self.new) }
        ensures kind { IfOk result (λ turn. is_answer_to (Begin what) turn ≡ true) }
        ensures err { OnErr result (self.new ≡ self.old) }
        ensures memory { takes_memory what ≡ false → IsOk result }
        ensures needs { self.old.told ≡ true → OnErr result (NeedsMemory (now_of self.old) driver what) }
    {
        let turn = self
            .machine
            .begin(&mut self.draft, &mut self.log, driver, what)?;
        self.log.push(Entry {
            driver,
            event: Event::Begin(what),
            turn,
        });
        Ok(turn)
    }

    /// Makes the next step of the call in flight. Takes no memory.
    pub fn step(&mut self) -> Turn
        // A call is in flight.
        requires { in_flight self.old.journal ≡ true }
        // The machine takes the step that comes next, answers so, and its entry is appended; fewer steps are to come then.
        ensures made { StepsOn self.old result self.new }
        // The turn is of the kind of the step, whatever the bank tells: the end is done or refused, and each other step goes on.
        ensures kind { LastMayAnswer self.old.journal self.new.journal result }
        // Where the bank tells its words, the turn comes exactly where its cause holds.
        ensures turns { self.old.told ≡ true → StepTurns self.old self.new result }
        // Where it tells its words and its locks, a poll is answered by the delay of its PLL, as all polls of the journal are.
        ensures polled { self.new.told ≡ true → (delay : ℕ → ℕ) → HasDelays self.new.behind.delays delay → Polled delay self.new.journal }
    {
        let driver = self.machine.driver();
        let made = self.machine.step();
        push_made(&mut self.log, driver, made)
    }

    /// The bank. Where it tells its words, the first ones are the registers of the core's state, and
    /// those behind them are as they were.
    pub fn into_bank(self) -> B
        // It tells its words where the core knew them.
        ensures told { is_some (B.contents result) ≡ self.told }
        // Where it does, the first ones are the registers of the state.
        ensures words { IfSome (B.contents result) (λ words. take (length self.start.regs) words ≡ (now_of self).regs) }
        // Those behind them are as they were.
        ensures behind { option_map (drop (length self.start.regs)) (B.contents result) ≡ self.behind.words }
        // So are the delays of its locks, where it tells them.
        ensures delays { delays_in (locks_of (B.lock result)) ≡ self.behind.delays }
    {
        let Core {
            machine,
            words: _,
            log: _,
            draft: _,
        } = self;
        machine.into_bank()
    }
}
