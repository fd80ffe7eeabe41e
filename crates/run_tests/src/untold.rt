//! Banks and a sink that tell contracts nothing.

use clk_io::{Failed, Sink};
use reg_bank::{Bank, MemBank};
use std::sync::atomic::{AtomicU64, Ordering};
use std::thread;
use std::time::{Clock, Duration};

/// The word whose writes are counted.
pub(crate) const WATCHED: usize = 1;

/// A bank in memory that tells nothing, and counts the writes of a word with a value that isn't 0.
#[derive(Drop)]
pub(crate) struct Counting<'a> {
    pub(crate) bank: MemBank,
    pub(crate) writes: &'a AtomicU64,
}

impl Bank for Counting<'_> {
    ghost use Rattle.std.specs.Prelude.{None, length};

    ghost size = { λ counting. length counting.bank.words };

    ghost contents = { λ _. None };

    ghost lock = { λ _ _. None };

    fn words(&self) -> usize {
        self.bank.words()
    }

    fn read(&self, word: usize) -> u32 {
        self.bank.read(word)
    }

    fn write(&mut self, word: usize, value: u32) {
        if word == WATCHED && value != 0 {
            self.writes.fetch_add(1, Ordering::SeqCst);
        }
        self.bank.write(word, value);
    }

    fn arm(&mut self, pll: u32, polls: u32) {
        self.bank.arm(pll, polls);
    }

    fn start(&mut self, pll: u32) {
        self.bank.start(pll);
    }

    fn locked(&mut self, pll: u32) -> bool {
        self.bank.locked(pll)
    }

    ghost sized = { λ _. tt };

    ghost whole = { λ _. tt };
}

/// A sink that takes all and keeps nothing.
#[derive(Drop)]
pub(crate) struct Discard;

impl Sink for Discard {
    ghost use Rattle.std.specs.Prelude.{None};

    ghost written = { λ _. None };

    ghost faults = { λ _. 0 };

    fn write(&mut self, bytes: &[u8]) -> Result<usize, Failed> {
        Ok(bytes.len())
    }
}

/// A bank in memory that tells nothing, and takes a millisecond for each write.
#[derive(Drop)]
pub(crate) struct Slow<'a, C> {
    pub(crate) bank: MemBank,
    pub(crate) clock: &'a C,
}

impl<C: Clock> Bank for Slow<'_, C> {
    ghost use Rattle.std.specs.Prelude.{None, length};

    ghost size = { λ slow. length slow.bank.words };

    ghost contents = { λ _. None };

    ghost lock = { λ _ _. None };

    fn words(&self) -> usize {
        self.bank.words()
    }

    fn read(&self, word: usize) -> u32 {
        self.bank.read(word)
    }

    fn write(&mut self, word: usize, value: u32) {
        thread::sleep(self.clock, Duration::from_millis(1));
        self.bank.write(word, value);
    }

    fn arm(&mut self, pll: u32, polls: u32) {
        self.bank.arm(pll, polls);
    }

    fn start(&mut self, pll: u32) {
        self.bank.start(pll);
    }

    fn locked(&mut self, pll: u32) -> bool {
        self.bank.locked(pll)
    }

    ghost sized = { λ _. tt };

    ghost whole = { λ _. tt };
}
