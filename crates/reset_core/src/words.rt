//! The words that have the lines' bits.

ghost use Rattle.std.specs.Prelude.{◌≡◌, ◌<◌, ◌==◌, length, IfOk, if◌then◌else◌, replicate, slice_index};
ghost use Rattle.reg_bank.specs.Registers.{is_set, put_bit, bits_of, with_bits};

use clk_io::NoMemory;
use std::alloc::Global;
use std::marker::Model;

// Whether a bit of this word is 1.
fn has_bit(value: u32, bit: u32) -> bool
    requires { bit < 32 }
    ensures { result ≡ (bits_of value bit 1 == 1) }
{
    value >> bit & 1 == 1
}

// The word with this bit 1 or 0.
fn with_bit(value: u32, bit: u32, set: bool) -> u32
    requires { bit < 32 }
    ensures { result ≡ with_bits value bit 1 (if set then 1 else 0) }
{
    let mask = 1u32 << bit;
    if set { value | mask } else { value & !mask }
}

/// Words of 32 bits. Contracts see them as a list.
#[derive(Drop)]
pub(crate) struct Words {
    cells: Vec<u32>,
}

impl Model for Words {
    ghost use Rattle.std.specs.Prelude.{List, ℕ};

    ghost Value = { List ℕ };

    ghost view = { λ words. words.cells.items };
}

impl Words {
    /// So many words, all 0. The one error is that memory runs out.
    pub fn create(alloc: Global, count: usize) -> Result<Words, NoMemory>
        ensures { IfOk result (λ words. words ≡ replicate count 0) }
    {
        Ok(Words {
            cells: vec![in alloc; 0u32; count]?,
        })
    }

    pub fn word(&self, word: usize) -> u32
        requires { word < length self.now }
        ensures { result ≡ slice_index self.now word }
    {
        self.cells[word]
    }

    /// Whether a bit is 1.
    pub fn bit(&self, word: u32, bit: u32) -> bool
        requires word { word < length self.now }
        requires bit { bit < 32 }
        ensures { result ≡ is_set self.now word bit }
    {
        has_bit(self.cells[word as usize], bit)
    }

    /// Makes a bit 1 or 0.
    pub fn put(&mut self, word: u32, bit: u32, value: bool)
        requires word { word < length self.old }
        requires bit { bit < 32 }
        ensures words { self.new ≡ put_bit self.old word bit value }
        ensures size { length self.new ≡ length self.old }
    {
        let place = word as usize;
        let old = self.cells[place];
        self.cells[place] = with_bit(old, bit, value);
    }
}
