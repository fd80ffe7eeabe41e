//! What the lock keeps: the core, as a log of entries.

ghost use Rattle.std.specs.Prelude.{◌≡◌, ◌<◌, ◌≤◌, [], ◌∷◌, ◌++◌, true, false, length, IfOk, IsOk, OnErr};
ghost use Rattle.clk_base.specs.declared.event.Event.TheVariants.{Enable, Disable, Running, Begin};
ghost use Rattle.clk_base.specs.declared.event.Turn.TheVariants.{Done};
ghost use Rattle.clk_model.specs.Begin.{most_credits};
ghost use Rattle.clk_model.specs.Journal.{cost};
ghost use Rattle.clk_machine.specs.Copied.{Copies, IsDecided};
ghost use Rattle.clk_machine.specs.Sound.{IsPlaced, takes_memory};
ghost use Rattle.clk_machine.specs.Run.{Appends, StepsOn, in_flight, now_of};
ghost use Rattle.clk_framework.specs.Lawful.{RunsByLaw};
ghost use Rattle.clk_framework.specs.Opening.{opened_with, opened_of, start_of, AnswersPolls, Begins};
ghost use Rattle.clk_framework.specs.Planning.{IsMadeFor};

use crate::opened::Opened;
use clk_base::{Entry, Event, Handle, Reply, Sleeping, Turn, ValidDesc};
use clk_io::NoMemory;
use clk_machine::{Core, Decision, Prep};
use reg_bank::Bank;
use std::alloc::Global;
use std::marker::Model;
use tier_lock::Kept;

/// The core, as a value that drivers take in turns. Contracts see it as the core's `Run`.
#[derive(Drop)]
pub struct Kernel<B: Bank> {
    core: Core<B>,
    credits: u32,
}

impl<B: Bank> Model for Kernel<B> {
    ghost use Rattle.clk_machine.specs.Run.{Run};
    ghost use Rattle.clk_framework.specs.Opening.{IsOpened};

    ghost Value = { Run };

    ghost view = { λ k. k.core };

    ghost invariant = { λ k. IsOpened k.core k.credits };
}

impl<B: Bank> Kept for Kernel<B> {
    ghost use Rattle.std.proofs.Common.{arith, cond, Bool};
    ghost use Rattle.clk_model.specs.Journal.{is_paid};
    ghost use Rattle.clk_framework.specs.Opening.{opened_of};
    ghost use Rattle.clk_framework.specs.Tiers.{is_prepare_tier, price};

    type Entry = Entry;

    type Fixed = Opened;

    ghost entries = { λ run. run.journal };

    ghost fixed = { opened_of };

    ghost by = { λ e. e.driver };

    ghost prep = { is_prepare_tier };

    ghost cost = { price };

    ghost most = { λ opened. opened.credits };

    fn total(&self) -> u32 {
        self.credits
    }

    fn last_cost(&self) -> u32 {
        match self.core.journal().last() {
            None
            | Some(
                Entry {
                    event: Event::Step(_, _),
                    ..
                },
            ) => 0,
            Some(_) => 1,
        }
    }

    ghost costs_little = { λ e. elim (is_paid e.event) as (λ (b : Bool). cond b 1 0 ≤ 1) [ true ↦ Prim.omega arith | false ↦ Prim.omega arith ] };
}

// What a core tells of its journal.
fn look_at<B: Bank>(core: &Core<B>)
    ensures lawful { RunsByLaw core.now }
    ensures polled { AnswersPolls core.now }
{
    let _ = core.journal();
    let _ = core.quiet();
}

impl<B: Bank> Kernel<B> {
    // A core at its opening.
    pub(crate) fn create(
        alloc: Global,
        desc: ValidDesc,
        bank: B,
        words: &[u32],
        ignore_unused: bool,
        credits: u32,
    ) -> Result<Kernel<B>, NoMemory>
        requires words { length words.now ≡ desc.words }
        requires bank { length words.now ≤ B.size bank }
        requires credits { credits ≤ most_credits }
        ensures opened { IfOk result (λ run. Begins (opened_with desc.defs words.now ignore_unused credits (B.contents bank) (B.lock bank)) run) }
    {
        let core = Core::create(alloc, desc, bank, words, ignore_unused, credits)?;
        Ok(Kernel { core, credits })
    }

    // What the core tells of its journal.
    pub(crate) fn look(&self)
        ensures lawful { RunsByLaw self.now }
        ensures opened { self.now.start ≡ start_of (opened_of self.now) }
    {
        look_at(&self.core);
    }

    pub(crate) fn enable(&mut self, driver: u32, handle: Handle) -> Reply
        requires { cost self.old.journal < self.old.start.credits }
        ensures entry { Appends self.old driver (Enable handle.number) (Done result) self.new }
        ensures lawful { RunsByLaw self.new }
        ensures opened { self.old.start ≡ start_of (opened_of self.old) }
    {
        let reply = self.core.enable(driver, handle);
        look_at(&self.core);
        reply
    }

    pub(crate) fn disable(&mut self, driver: u32, handle: Handle) -> Reply
        requires { cost self.old.journal < self.old.start.credits }
        ensures entry { Appends self.old driver (Disable handle.number) (Done result) self.new }
        ensures lawful { RunsByLaw self.new }
        ensures opened { self.old.start ≡ start_of (opened_of self.old) }
    {
        let reply = self.core.disable(driver, handle);
        look_at(&self.core);
        reply
    }

    pub(crate) fn running(&mut self, driver: u32, handle: Handle) -> Reply
        requires { cost self.old.journal < self.old.start.credits }
        ensures entry { Appends self.old driver (Running handle.number) (Done result) self.new }
        ensures lawful { RunsByLaw self.new }
        ensures opened { self.old.start ≡ start_of (opened_of self.old) }
    {
        let reply = self.core.running(driver, handle);
        look_at(&self.core);
        reply
    }

    // A call begins as it was decided, unless memory runs out.
    pub(crate) fn begin_as(
        &mut self,
        driver: u32,
        what: &Sleeping,
        decision: Decision,
    ) -> Result<Turn, NoMemory>
        requires credit { cost self.old.journal < self.old.start.credits }
        requires quiet { in_flight self.old.journal ≡ false }
        requires place { IsPlaced self.old.start.defs what.now }
        requires decided { self.old.start ≡ start_of (opened_of self.old) → self.old.told ≡ true → IsDecided (now_of self.old) driver what.now decision }
        ensures ok { IfOk result (λ turn. Appends self.old driver (Begin what.now) turn self.new) }
        ensures err { OnErr result (self.new ≡ self.old) }
        ensures memory { takes_memory what.now ≡ false → IsOk result }
        ensures lawful { RunsByLaw self.new }
        ensures opened { self.old.start ≡ start_of (opened_of self.old) }
    {
        let begun = self.core.begin_as(driver, what, decision);
        look_at(&self.core);
        begun
    }

    // A copy of the prepare tier, unless memory runs out.
    pub(crate) fn prep_copy(&self) -> Result<Prep, NoMemory>
        requires quiet { in_flight self.now.journal ≡ false }
        ensures made { IfOk result (λ copy. IsMadeFor copy (opened_of self.now)) }
        ensures copies { IfOk result (λ copy. self.now.told ≡ true → Copies copy (now_of self.now)) }
        ensures quiet { IfOk result (λ copy. copy.parts.flight.going ≡ false) }
        ensures opened { self.now.start ≡ start_of (opened_of self.now) }
    {
        // What the core tells of its credits.
        let _ = self.core.quiet();
        self.core.prep_copy()
    }

    // The next step of the call in flight. Its entry.
    pub(crate) fn step(&mut self) -> Entry
        requires { in_flight self.old.journal ≡ true }
        ensures made { StepsOn self.old result.turn self.new }
        ensures entry { self.new.journal ≡ self.old.journal ++ result ∷ [] }
        ensures lawful { RunsByLaw self.new }
        ensures opened { self.old.start ≡ start_of (opened_of self.old) }
    {
        self.core.step();
        look_at(&self.core);
        match self.core.journal().last() {
            Some(entry) => *entry,
            None => unreachable!(),
        }
    }

    // The core itself.
    pub(crate) fn into_core(self) -> Core<B>
        ensures same { result ≡ self }
        ensures opened { self.start ≡ start_of (opened_of self) }
        ensures polled { AnswersPolls result }
        ensures lawful { RunsByLaw result }
    {
        let Kernel { core, credits: _ } = self;
        look_at(&core);
        core
    }
}
