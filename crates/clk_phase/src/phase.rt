//! The phases of clocks, with a journal.

ghost use Rattle.std.specs.Prelude.{◌≡◌, ◌<◌, ◌≤◌, ◌∷◌, [], ◌++◌, All, IfOk, Some, None, length};
ghost use Rattle.clk_phase.specs.Phases.{settings_after, reply_of, IsLegal};
ghost use Rattle.clk_phase.specs.PhaseLogs.{phase_begins};

use crate::degrees::{best, wanted};
use crate::phase_call::{PhaseCall, PhaseEntry, PhaseReply, PhaseStart};
use clk_base::{ClockId, Errno, ValidDesc};
use clk_io::NoMemory;
use shared_log::Journaled;
use std::alloc::Global;
use std::marker::Model;
use tier_lock::Kept;

// Makes a call on a clock with so many steps.
fn make(settings: &mut Vec<u32>, steps: u32, place: usize, set: Option<i32>) -> PhaseReply
    requires place { place < length settings.old.items }
    requires few { steps ≤ 360 }
    requires below { All (λ k. k < 361) settings.old.items }
    ensures settings { settings.new.items ≡ settings_after steps settings.old.items place set }
    ensures reply { result ≡ reply_of steps settings.old.items place set }
    ensures below { All (λ k. k < 361) settings.new.items }
{
    match set {
        Some(_) if steps == 0 => PhaseReply::Refused(Errno::EINVAL),
        Some(degrees) => {
            settings[place] = best(steps, wanted(degrees));
            PhaseReply::Fine
        }
        None if steps == 0 => PhaseReply::Phase(0),
        None => PhaseReply::Phase(360 * settings[place] / steps),
    }
}

/// The phases of clocks, and the journal of all calls. Contracts see it as a `PhaseLog`: what it began
/// with, and its journal.
#[derive(Drop)]
pub struct PhaseCore {
    // How many steps each clock has, and at which it stands.
    steps: Vec<u32>,
    settings: Vec<u32>,
    room: u32,
    journal: Vec<PhaseEntry>,
}

impl Model for PhaseCore {
    ghost use Rattle.std.specs.Prelude.{vec_capacity};
    ghost use Rattle.clk_phase.specs.PhaseLogs.{PhaseLog, IsPhaseRun, phase_log};

    ghost Value = { PhaseLog };

    ghost view = { λ p. phase_log p.steps.items p.room p.journal.items };

    ghost invariant = { λ p. IsPhaseRun p.steps.items p.room (vec_capacity p.journal) p.settings.items p.journal.items };
}

impl PhaseCore {
    /// The clocks of a description at phase 0, and memory for so many entries. The one error
    /// is that memory runs out.
    pub fn create(
        alloc: Global,
        desc: &ValidDesc,
        steps: &[u32],
        room: u32,
    ) -> Result<PhaseCore, NoMemory>
        // There is a number of steps for each clock, 0 for one without phases.
        requires each { length steps.now ≡ length desc.now.defs }
        // No clock has more than 360 steps.
        requires few { All (λ n. n ≤ 360) steps.now }
        // It begins with these, and has no entry.
        ensures { IfOk result (λ core. core ≡ phase_begins steps.now room) }
    {
        Ok(PhaseCore {
            steps: Vec::from_slice(alloc, steps)?,
            settings: vec![in alloc; 0u32; desc.len()]?,
            room,
            journal: Vec::with_capacity(alloc, room as usize)?,
        })
    }

    // Makes a call of a driver.
    fn call(&mut self, driver: u32, what: &PhaseCall) -> PhaseReply
        requires place { what.now.clock.0 < length self.old.start.steps }
        requires room { length self.old.journal < self.old.start.room }
        ensures entry { self.new ≡ record self.old { journal = self.old.journal ++ record { driver = driver; clock = what.now.clock; set = what.now.set; reply = result } ∷ [] } }
        ensures legal { IsLegal self.new.start self.new.journal }
    {
        let place = what.clock.0 as usize;
        let reply = make(&mut self.settings, self.steps[place], place, what.set);
        self.journal.push_reserved(PhaseEntry {
            driver,
            clock: what.clock,
            set: what.set,
            reply,
        });
        reply
    }

    /// Sets the phase of a clock to the greatest of its steps whose degrees are at most these, counted
    /// from 0 to 359. Takes no memory.
    pub fn set(&mut self, driver: u32, c: ClockId, degrees: i32) -> PhaseReply
        // There is such a clock.
        requires place { c.0 < length self.old.start.steps }
        // There is room for an entry.
        requires room { length self.old.journal < self.old.start.room }
        // The call with its reply stands at the end of the journal.
        ensures entry { self.new ≡ record self.old { journal = self.old.journal ++ record { driver = driver; clock = c; set = Some degrees; reply = result } ∷ [] } }
        // The journal is legal: so each reply has its cause.
        ensures legal { IsLegal self.new.start self.new.journal }
    {
        self.call(
            driver,
            &PhaseCall {
                clock: c,
                set: Some(degrees),
            },
        )
    }

    /// The phase of a clock, in degrees from 0 to 359. Takes no memory.
    pub fn get(&mut self, driver: u32, c: ClockId) -> PhaseReply
        // There is such a clock.
        requires place { c.0 < length self.old.start.steps }
        // There is room for an entry.
        requires room { length self.old.journal < self.old.start.room }
        // The call with its reply stands at the end of the journal.
        ensures entry { self.new ≡ record self.old { journal = self.old.journal ++ record { driver = driver; clock = c; set = None; reply = result } ∷ [] } }
        // The journal is legal: so each reply has its cause.
        ensures legal { IsLegal self.new.start self.new.journal }
    {
        self.call(
            driver,
            &PhaseCall {
                clock: c,
                set: None,
            },
        )
    }

    /// The entries, the first first.
    pub fn journal(&self) -> &[PhaseEntry]
        ensures entries { result.now ≡ self.now.journal }
        // The journal is legal from phases of 0.
        ensures legal { IsLegal self.now.start self.now.journal }
    {
        self.journal.as_slice()
    }
}

impl Kept for PhaseCore {
    ghost use Rattle.std.proofs.Common.{arith};
    ghost use Rattle.std.specs.Prelude.{false};

    type Entry = PhaseEntry;

    type Fixed = PhaseStart;

    ghost entries = { λ log. log.journal };

    ghost fixed = { λ log. log.start };

    ghost by = { λ e. e.driver };

    ghost prep = { λ e. false };

    ghost cost = { λ e. 1 };

    ghost most = { λ start. start.room };

    fn total(&self) -> u32 {
        self.room
    }

    fn last_cost(&self) -> u32 {
        if self.journal.is_empty() { 0 } else { 1 }
    }

    ghost costs_little = { λ e. Prim.omega arith };
}

impl Journaled for PhaseCore {
    ghost use Rattle.std.specs.Prelude.{length, refl, ◌<◌};
    ghost use Rattle.clk_phase.specs.Phases.{IsLegal};

    type Call = PhaseCall;

    type Reply = PhaseReply;

    ghost legal = { IsLegal };

    ghost may = { λ start what. what.clock.0 < length start.steps };

    ghost entry = { λ d what r. record { driver = d; clock = what.clock; set = what.set; reply = r } };

    fn answer(&mut self, driver: u32, what: &PhaseCall) -> PhaseReply {
        self.call(driver, what)
    }

    ghost of_driver = { λ d w r. refl };

    ghost of_enable_tier = { λ d w r. refl };

    ghost costs_one = { λ d w r. refl };
}
