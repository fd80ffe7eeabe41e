//! The controller with its journal.

ghost use Rattle.std.specs.Prelude.{◌≡◌, ◌<◌, ℕ, [], ◌∷◌, ◌++◌, length, IfOk, slice_index, take};
ghost use Rattle.reset_core.specs.Turns.{Legal};
ghost use Rattle.reset_core.specs.Standing.{ArePlaced};
ghost use Rattle.reset_core.specs.Sound.{AreApart, IsSound};
ghost use Rattle.reset_core.specs.Logs.{begins, state_of, WritesOwnLines};

use crate::call::{ResetCall, ResetEntry, ResetLine};
use crate::controller::Controller;
use crate::start::ResetStart;
use clk_base::Reply;
use clk_io::NoMemory;
use shared_log::Journaled;
use std::alloc::Global;
use std::marker::Model;
use tier_lock::Kept;

/// Reset lines, the handles that drivers have of them, and the journal of all calls. Contracts see it as
/// a `Log`: what it began with, and its journal.
#[derive(Drop)]
pub struct ResetCore {
    controller: Controller,
    words: u32,
    room: u32,
    journal: Vec<ResetEntry>,
}

impl Model for ResetCore {
    ghost use Rattle.std.specs.Prelude.{vec_capacity};
    ghost use Rattle.reset_core.specs.Logs.{Log, IsRun, log_of};

    ghost Value = { Log };

    ghost view = { λ c. log_of c.words c.controller.state.lines c.room c.journal.items };

    ghost invariant = { λ c. IsRun c.words c.room c.controller (vec_capacity c.journal) c.journal.items };
}

impl ResetCore {
    /// Lines that are all asserted, without a handle, and memory for so many entries. The one error is
    /// that memory runs out.
    pub fn create(
        alloc: Global,
        words: u32,
        lines: &[ResetLine],
        room: u32,
    ) -> Result<ResetCore, NoMemory>
        // Each line has a bit of the words.
        requires placed { ArePlaced words lines.now }
        // No two lines have the same bit.
        requires apart { AreApart lines.now }
        // It begins with these, and has no entry.
        ensures { IfOk result (λ core. core ≡ begins words lines.now room) }
    {
        let controller = Controller::create(alloc, words as usize, lines, room as usize)?;
        Ok(ResetCore {
            controller,
            words,
            room,
            journal: Vec::with_capacity(alloc, room as usize)?,
        })
    }

    /// Makes a call of a driver. Takes no memory.
    pub fn call(&mut self, driver: u32, what: &ResetCall) -> Reply
        // There is room for an entry.
        requires { length self.old.journal < self.old.start.room }
        // The call with its reply stands at the end of the journal.
        ensures entry { self.new ≡ record self.old { journal = self.old.journal ++ record { driver = driver; what = what.now; reply = result } ∷ [] } }
        // The journal is legal: so each reply has its cause.
        ensures legal { Legal (state_of self.new.start []) self.new.journal }
    {
        let reply = self.controller.call(driver, *what);
        self.journal.push_reserved(ResetEntry {
            driver,
            what: *what,
            reply,
        });
        reply
    }

    /// The entries, the first first.
    pub fn journal(&self) -> &[ResetEntry]
        ensures entries { result.now ≡ self.now.journal }
        // The journal is legal from the lines as they were at first.
        ensures legal { Legal (state_of self.now.start []) self.now.journal }
        // After each entry a line with a deassert of a shared handle is deasserted, no line has two acquired handles, and no line has a shared handle beside one of another kind.
        ensures sound { (n : ℕ) → IsSound (state_of self.now.start (take n self.now.journal)) }
        // A line's bit differs from before only after an ok of an assert, a deassert or a pulse on a handle of that line.
        ensures writes { WritesOwnLines self.now.start self.now.journal }
    {
        self.journal.as_slice()
    }

    /// A word.
    pub fn word(&self, word: usize) -> u32
        // There is such a word.
        requires { word < self.now.start.words }
        // It is as the journal leaves it.
        ensures { result ≡ slice_index (state_of self.now.start self.now.journal).regs word }
    {
        self.controller.word(word)
    }
}

impl Kept for ResetCore {
    ghost use Rattle.std.proofs.Common.{arith};
    ghost use Rattle.std.specs.Prelude.{false};

    type Entry = ResetEntry;

    type Fixed = ResetStart;

    ghost entries = { λ log. log.journal };

    ghost fixed = { λ log. log.start };

    ghost by = { λ e. e.driver };

    ghost prep = { λ e. false };

    ghost cost = { λ e. 1 };

    ghost most = { λ start. start.room };

    fn total(&self) -> u32 {
        self.room
    }

    fn last_cost(&self) -> u32 {
        if self.journal.is_empty() { 0 } else { 1 }
    }

    ghost costs_little = { λ e. Prim.omega arith };
}

impl Journaled for ResetCore {
    ghost use Rattle.std.specs.Prelude.{refl, []};
    ghost use Rattle.reset_core.specs.Turns.{Legal};
    ghost use Rattle.reset_core.specs.Logs.{state_of};

    type Call = ResetCall;

    type Reply = Reply;

    ghost legal = { λ start journal. Legal (state_of start []) journal };

    ghost may = { λ start what. Unit {0} };

    ghost entry = { λ d what r. record { driver = d; what = what; reply = r } };

    fn answer(&mut self, driver: u32, what: &ResetCall) -> Reply {
        self.call(driver, what)
    }

    ghost of_driver = { λ d w r. refl };

    ghost of_enable_tier = { λ d w r. refl };

    ghost costs_one = { λ d w r. refl };
}
