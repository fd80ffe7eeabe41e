//! The words of a bank that a description uses.

ghost use Rattle.std.specs.Prelude.{◌≡◌, ◌≢◌, ℕ, ◌+◌, ◌<◌, ◌≤◌, ◌^◌, IfSome, length, take, drop, slice_index};
ghost use Rattle.std.specs.Option.{option_map};
ghost use Rattle.reg_bank.specs.Locks.{most_plls, started, polled, is_locked};
ghost use Rattle.reg_bank.specs.Registers.{is_set, put_bit, put};
ghost use Rattle.core_parts.specs.Window.{AreTold, behind_of, delays_in, locks_of, lock_in};

use clk_base::ClockId;
use reg_bank::{Bank, read_bit, write_bit, write_field};
use std::marker::Model;

/// The first words of a bank, as many as a description was checked for. The words after them are
/// left alone.
#[derive(Drop)]
pub struct Window<B: Bank> {
    bank: B,
    size: usize,
}

impl<B: Bank> Model for Window<B> {
    ghost use Rattle.std.specs.Prelude.{◌≤◌, take};
    ghost use Rattle.std.specs.Option.{option_map};
    ghost use Rattle.core_parts.specs.Window.{Shown, behind_of, locks_of};

    ghost Value = { Shown };

    ghost view = { λ w. record {
      size = w.size;
      words = option_map (take w.size) (B.contents w.bank);
      behind = behind_of w.size (B.contents w.bank) (B.lock w.bank);
      locks = locks_of (B.lock w.bank);
    } };

    ghost invariant = { λ w. w.size ≤ B.size w.bank };
}

impl<B: Bank> Window<B> {
    /// The window with these words, which are written to the bank.
    pub fn create(mut bank: B, words: &[u32]) -> Window<B>
        requires { length words.now ≤ B.size bank }
        ensures size { result.size ≡ length words.now }
        ensures words { result.words ≡ option_map (λ _. words.now) (B.contents bank) }
        ensures behind { result.behind ≡ behind_of (length words.now) (B.contents bank) (B.lock bank) }
        ensures told { AreTold result.size result.words }
        ensures locks { result.locks ≡ locks_of (B.lock bank) }
    {
        for (place, word) in words.iter().enumerate() {
            bank.write(place, *word);
        }
        Window {
            bank,
            size: words.len(),
        }
    }

    /// The number of words.
    pub fn len(&self) -> usize
        ensures size { result ≡ self.now.size }
        ensures words { AreTold self.now.size self.now.words }
    {
        self.size
    }

    /// The word at this place.
    pub fn word(&self, place: usize) -> u32
        requires { place < self.now.size }
        ensures { IfSome self.now.words (λ words. result ≡ slice_index words place) }
    {
        self.bank.read(place)
    }

    /// Whether a bit is 1.
    pub fn is_set(&self, word: u32, bit: u32) -> bool
        requires word { word < self.now.size }
        requires bit { bit < 32 }
        ensures { IfSome self.now.words (λ words. result ≡ is_set words word bit) }
    {
        read_bit(&self.bank, word as usize, bit)
    }

    /// The bank whose first words these are.
    pub fn bank(&self) -> &B
        ensures fits { self.now.size ≤ B.size result.now }
        ensures words { option_map (take self.now.size) (B.contents result.now) ≡ self.now.words }
        ensures told { AreTold self.now.size self.now.words }
    {
        &self.bank
    }

    /// Makes a bit 1 or 0.
    pub fn put_bit(&mut self, word: u32, bit: u32, value: bool)
        requires word { word < self.old.size }
        requires bit { bit < 32 }
        ensures size { self.new.size ≡ self.old.size }
        ensures words { self.new.words ≡ option_map (λ words. put_bit words word bit value) self.old.words }
        ensures behind { self.new.behind ≡ self.old.behind }
        ensures locks { self.new.locks ≡ self.old.locks }
    {
        write_bit(&mut self.bank, word as usize, bit, value);
    }

    /// Puts a number into a field.
    pub fn put_field(&mut self, word: u32, shift: u32, width: u32, value: u32)
        requires word { word < self.old.size }
        requires bits { shift + width ≤ 32 }
        requires fits { value < 2 ^ width }
        ensures size { self.new.size ≡ self.old.size }
        ensures words { self.new.words ≡ option_map (λ words. put words word shift width value) self.old.words }
        ensures behind { self.new.behind ≡ self.old.behind }
        ensures locks { self.new.locks ≡ self.old.locks }
    {
        write_field(&mut self.bank, word as usize, shift, width, value);
    }

    /// Starts the lock of a PLL. Its delay stays.
    pub fn start(&mut self, pll: ClockId)
        requires { pll.0 < most_plls }
        ensures size { self.new.size ≡ self.old.size }
        ensures words { self.new.words ≡ self.old.words }
        ensures behind { self.new.behind ≡ self.old.behind }
        ensures lock { lock_in self.new.locks pll.0 ≡ option_map started (lock_in self.old.locks pll.0) }
        ensures others { (p : ℕ) → p ≢ pll.0 → lock_in self.new.locks p ≡ lock_in self.old.locks p }
    {
        self.bank.start(pll.0);
    }

    /// Polls the lock of a PLL. Its delay stays.
    pub fn locked(&mut self, pll: ClockId) -> bool
        requires { pll.0 < most_plls }
        ensures size { self.new.size ≡ self.old.size }
        ensures words { self.new.words ≡ self.old.words }
        ensures behind { self.new.behind ≡ self.old.behind }
        ensures lock { lock_in self.new.locks pll.0 ≡ option_map polled (lock_in self.old.locks pll.0) }
        ensures others { (p : ℕ) → p ≢ pll.0 → lock_in self.new.locks p ≡ lock_in self.old.locks p }
        ensures answer { IfSome (lock_in self.new.locks pll.0) (λ now. result ≡ is_locked now) }
        ensures delays { self.new.behind.delays ≡ delays_in self.new.locks }
    {
        self.bank.locked(pll.0)
    }

    /// The whole bank.
    pub fn into_bank(self) -> B
        ensures words { option_map (take self.size) (B.contents result) ≡ self.words }
        ensures behind { option_map (drop self.size) (B.contents result) ≡ self.behind.words }
        ensures delays { delays_in (locks_of (B.lock result)) ≡ self.behind.delays }
        ensures locks { locks_of (B.lock result) ≡ self.locks }
    {
        let Window { bank, size: _ } = self;
        bank
    }
}
