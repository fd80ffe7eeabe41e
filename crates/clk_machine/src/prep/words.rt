//! The words of a copy.

ghost use Rattle.std.specs.Prelude.{◌≡◌, IfOk};

use clk_io::NoMemory;
use reg_bank::Bank;
use std::alloc::Global;
use std::marker::Model;

/// A bank in memory with as many words as it was given. It tells its words and no lock: a copy is
/// told how each poll was answered.
#[derive(Drop)]
pub(super) struct Words {
    cells: Vec<u32>,
}

impl Model for Words {
    ghost use Rattle.reg_bank.specs.Registers.{Registers};

    ghost Value = { Registers };

    ghost view = { λ words. words.cells.items };
}

impl Words {
    /// These words.
    pub(super) fn create(alloc: Global, words: &[u32]) -> Result<Words, NoMemory>
        ensures { IfOk result (λ made. made ≡ words.now) }
    {
        Ok(Words {
            cells: Vec::from_slice(alloc, words)?,
        })
    }
}

impl Bank for Words {
    ghost use Rattle.std.specs.Prelude.{length, Some, None};
    ghost use Rattle.reg_bank.specs.Memory.{low_words, AreWords-low_words, length-low_words};

    ghost size = { λ words. length words };

    ghost contents = { λ words. Some (low_words words) };

    ghost lock = { λ words pll. None };

    fn words(&self) -> usize {
        self.cells.len()
    }

    fn read(&self, word: usize) -> u32 {
        self.cells[word]
    }

    fn write(&mut self, word: usize, value: u32) {
        self.cells[word] = value;
    }

    fn arm(&mut self, _pll: u32, _polls: u32) {}

    fn start(&mut self, _pll: u32) {}

    fn locked(&mut self, _pll: u32) -> bool {
        false
    }

    ghost sized = { λ words. length-low_words words };

    ghost whole = { λ words. AreWords-low_words words };
}
