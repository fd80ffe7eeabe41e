ghost use Rattle.std.specs.Prelude.{◌≡◌, ◌<◌, ℕ, true, false, not, length, IfOk};
ghost use Rattle.reg_bank.specs.Registers.{is_set, put_bit};

use crate::bits::{has_bit, with_bit};
use crate::zeros::zeros;
use clk_io::NoMemory;
use std::alloc::Global;
use std::marker::Model;

/// Which bits of a bank are taken: to contracts, words in which a taken bit is 1.
///
/// Whoever goes over many fields finds the first two that share a bit by taking the bits of each.
#[derive(Drop)]
pub struct TakenBits {
    cells: Vec<u32>,
}

impl Model for TakenBits {
    ghost use Rattle.std.specs.Prelude.{List, ℕ};

    ghost Value = { List ℕ };

    ghost view = { λ taken. taken.cells.items };
}

impl TakenBits {
    /// None of the bits of so many words is taken. Want of memory is its one refusal.
    pub fn create(alloc: Global, words: u32) -> Result<TakenBits, NoMemory>
        ensures words { IfOk result (λ taken. length taken ≡ words) }
        ensures free { IfOk result (λ taken. (word bit : ℕ) → is_set taken word bit ≡ false) }
    {
        Ok(TakenBits {
            cells: zeros(alloc, words as usize)?,
        })
    }

    /// Takes a bit. True exactly where it was free.
    pub fn take(&mut self, word: u32, bit: u32) -> bool
        requires word { word < length self.old }
        requires bit { bit < 32 }
        ensures free { result ≡ not (is_set self.old word bit) }
        ensures taken { self.new ≡ put_bit self.old word bit true }
        ensures words { length self.new ≡ length self.old }
    {
        let place = word as usize;
        let old = self.cells[place];
        self.cells[place] = with_bit(old, bit, true);
        !has_bit(old, bit)
    }
}
