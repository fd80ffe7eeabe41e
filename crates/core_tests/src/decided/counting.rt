//! A bank that counts how often it is read.

use reg_bank::Bank;
use std::cell::Cell;

/// A bank of one word that counts how often it is read. It tells nothing.
#[derive(Drop)]
pub(super) struct Counting<'r> {
    word: u32,
    reads: &'r Cell<u32>,
}

impl<'r> Counting<'r> {
    /// A bank whose word is 0.
    pub(super) fn new(reads: &'r Cell<u32>) -> Counting<'r> {
        Counting { word: 0, reads }
    }
}

impl Bank for Counting<'_> {
    ghost use Rattle.std.specs.Prelude.{None};

    ghost size = { λ _. 1 };

    ghost contents = { λ _. None };

    ghost lock = { λ _ _. None };

    fn words(&self) -> usize {
        1
    }

    fn read(&self, _word: usize) -> u32 {
        self.reads.set(self.reads.get().saturating_add(1));
        self.word
    }

    fn write(&mut self, _word: usize, value: u32) {
        self.word = value;
    }

    fn arm(&mut self, _pll: u32, _polls: u32) {}

    fn start(&mut self, _pll: u32) {}

    fn locked(&mut self, _pll: u32) -> bool {
        false
    }

    ghost sized = { λ _. tt };

    ghost whole = { λ _. tt };
}
