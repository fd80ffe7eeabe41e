ghost use Rattle.std.specs.Prelude.{◌≡◌, ℕ, ◌<◌, ◌==◌, IfSome, is_some, if◌then◌else◌};
ghost use Rattle.std.specs.Option.{option_map};
ghost use Rattle.reg_bank.specs.Registers.{is_set, put_bit, bits_of, with_bits};

use crate::bank::Bank;

/// Whether a bit of this word is 1.
pub(crate) fn has_bit(value: u32, bit: u32) -> bool
    requires { bit < 32 }
    ensures { result ≡ (bits_of value bit 1 == 1) }
{
    value >> bit & 1 == 1
}

/// The word with this bit 1 or 0.
pub(crate) fn with_bit(value: u32, bit: u32, set: bool) -> u32
    requires { bit < 32 }
    ensures { result ≡ with_bits value bit 1 (if set then 1 else 0) }
{
    let mask = 1u32 << bit;
    if set { value | mask } else { value & !mask }
}

/// Whether a bit of a word is 1. Bit 0 is the lowest.
pub fn read_bit<B: Bank>(bank: &B, word: usize, bit: u32) -> bool
    requires word { word < B.size bank.now }
    requires bit { bit < 32 }
    ensures { IfSome (B.contents bank.now) (λ words. result ≡ is_set words word bit) }
{
    has_bit(bank.read(word), bit)
}

/// Makes a bit of a word 1 or 0. All other bits stay.
pub fn write_bit<B: Bank>(bank: &mut B, word: usize, bit: u32, value: bool)
    requires word { word < B.size bank.old }
    requires bit { bit < 32 }
    ensures size { B.size bank.new ≡ B.size bank.old }
    ensures tells { is_some (B.contents bank.new) ≡ is_some (B.contents bank.old) }
    ensures words { B.contents bank.new ≡ option_map (λ words. put_bit words word bit value) (B.contents bank.old) }
    ensures locks { (p : ℕ) → B.lock bank.new p ≡ B.lock bank.old p }
{
    let old = bank.read(word);
    bank.write(word, with_bit(old, bit, value));
}
