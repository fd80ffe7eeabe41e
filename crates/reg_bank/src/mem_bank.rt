ghost use Rattle.std.specs.Prelude.{◌≡◌, ℕ, length, IfOk, Some};
ghost use Rattle.std.specs.List.{All};
ghost use Rattle.reg_bank.specs.Locks.{unarmed};
ghost use Rattle.reg_bank.specs.Memory.{lock_at};

use crate::bank::Bank;
use crate::pll_lock::PllLock;
use crate::zeros::zeros;
use clk_io::NoMemory;
use std::alloc::Global;
use std::marker::Model;

/// The number of words of a [`MemBank`].
pub const MEM_BANK_WORDS: usize = 65_536;

// The number of locks of a [`MemBank`].
const LOCKS: usize = 4096;

/// A bank in memory. It tells its words and its locks.
#[derive(Drop)]
pub struct MemBank {
    cells: Vec<u32>,
    locks: Vec<PllLock>,
}

impl Model for MemBank {
    ghost use Rattle.std.specs.Prelude.{◌≡◌, length};
    ghost use Rattle.reg_bank.specs.Locks.{most_plls};
    ghost use Rattle.reg_bank.specs.Memory.{Memory};

    ghost Value = { Memory };

    ghost view = { λ bank. record { words = bank.cells.items; locks = bank.locks.items } };

    ghost invariant = { λ bank. length bank.locks.items ≡ most_plls };
}

impl MemBank {
    ghost use Rattle.reg_bank.specs.Memory.{Memory};

    /// A bank of [`MEM_BANK_WORDS`] words of 0 with no lock armed. Want of memory is its one
    /// refusal.
    pub fn new(alloc: Global) -> Result<MemBank, NoMemory>
        ensures words { IfOk result (λ bank. length bank.words ≡ MEM_BANK_WORDS) }
        ensures zero { IfOk result (λ bank. All (λ value. value ≡ 0) bank.words) }
        ensures locks { IfOk result (λ bank. (pll : ℕ) → lock_at bank pll ≡ unarmed) }
    {
        let cells = zeros(alloc, MEM_BANK_WORDS)?;
        let locks = vec![in alloc; PllLock { delay: 1, polls: 0 }; LOCKS]?;
        Ok(MemBank { cells, locks })
    }
}

impl Bank for MemBank {
    ghost use Rattle.std.specs.Prelude.{length, Some};
    ghost use Rattle.reg_bank.specs.Memory.{lock_at, low_words, AreWords-low_words, length-low_words};

    ghost size = { λ bank. length bank.words };

    ghost contents = { λ bank. Some (low_words bank.words) };

    ghost lock = { λ bank pll. Some (lock_at bank pll) };

    fn words(&self) -> usize {
        self.cells.len()
    }

    fn read(&self, word: usize) -> u32 {
        self.cells[word]
    }

    fn write(&mut self, word: usize, value: u32) {
        self.cells[word] = value;
    }

    fn arm(&mut self, pll: u32, polls: u32) {
        let place = pll as usize;
        let lock = self.locks[place];
        self.locks[place] = PllLock {
            delay: polls,
            polls: lock.polls,
        };
    }

    fn start(&mut self, pll: u32) {
        let place = pll as usize;
        let lock = self.locks[place];
        self.locks[place] = PllLock {
            delay: lock.delay,
            polls: 0,
        };
    }

    fn locked(&mut self, pll: u32) -> bool {
        let place = pll as usize;
        let lock = self.locks[place];
        let polls = lock.polls.saturating_add(1);
        self.locks[place] = PllLock {
            delay: lock.delay,
            polls,
        };
        lock.delay <= polls
    }

    ghost sized = { λ bank. length-low_words bank.words };

    ghost whole = { λ bank. AreWords-low_words bank.words };
}
