//! A bank that notes what is written to it, in its order.

use reg_bank::Bank;

/// A bank of one word that notes the first values that are written to it. It tells nothing.
#[derive(Drop)]
pub(super) struct Noting {
    word: u32,
    pub(super) values: [u32; 8],
    pub(super) count: usize,
}

impl Noting {
    /// A bank whose word is 0.
    pub(super) fn new() -> Self {
        Noting {
            word: 0,
            values: [0; 8],
            count: 0,
        }
    }
}

impl Bank for Noting {
    ghost use Rattle.std.specs.Prelude.{None};

    ghost size = { λ _. 1 };

    ghost contents = { λ _. None };

    ghost lock = { λ _ _. None };

    fn words(&self) -> usize {
        1
    }

    fn read(&self, _word: usize) -> u32 {
        self.word
    }

    fn write(&mut self, _word: usize, value: u32) {
        self.word = value;
        if self.count < self.values.len() {
            self.values[self.count] = value;
            self.count += 1;
        }
    }

    fn arm(&mut self, _pll: u32, _polls: u32) {}

    fn start(&mut self, _pll: u32) {}

    fn locked(&mut self, _pll: u32) -> bool {
        false
    }

    ghost sized = { λ _. tt };

    ghost whole = { λ _. tt };
}
