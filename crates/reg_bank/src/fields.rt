ghost use Rattle.std.specs.Prelude.{◌≡◌, ℕ, ◌+◌, ◌^◌, ◌<◌, ◌≤◌, IfSome, is_some};
ghost use Rattle.std.specs.Option.{option_map};
ghost use Rattle.reg_bank.specs.Registers.{bits_of, with_bits, field, put};

use crate::bank::Bank;

// The number in the `width` bits of this word from `shift` on.
fn field_of(value: u32, shift: u32, width: u32) -> u32
    requires { shift + width ≤ 32 }
    ensures value { result ≡ bits_of value shift width }
    ensures small { result < 2 ^ width }
{
    ((u64::from(value) >> shift) & ((1u64 << width) - 1)) as u32
}

// The word with this number in the `width` bits from `shift` on.
fn with_field(value: u32, shift: u32, width: u32, number: u32) -> u32
    requires inside { shift + width ≤ 32 }
    requires fits { number < 2 ^ width }
    ensures { result ≡ with_bits value shift width number }
{
    let old = u64::from(value);
    let high = (old >> (shift + width)) << width;
    let low = old & ((1u64 << shift) - 1);
    (((high | u64::from(number)) << shift) | low) as u32
}

/// The number in a field of a word: its `width` bits from bit `shift` on.
pub fn read_field<B: Bank>(bank: &B, word: usize, shift: u32, width: u32) -> u32
    requires word { word < B.size bank.now }
    requires inside { shift + width ≤ 32 }
    ensures small { result < 2 ^ width }
    ensures value { IfSome (B.contents bank.now) (λ words. result ≡ field words word shift width) }
{
    field_of(bank.read(word), shift, width)
}

/// Puts a number into a field of a word. All other bits stay.
pub fn write_field<B: Bank>(bank: &mut B, word: usize, shift: u32, width: u32, value: u32)
    requires word { word < B.size bank.old }
    requires inside { shift + width ≤ 32 }
    requires fits { value < 2 ^ width }
    ensures size { B.size bank.new ≡ B.size bank.old }
    ensures tells { is_some (B.contents bank.new) ≡ is_some (B.contents bank.old) }
    ensures words { B.contents bank.new ≡ option_map (λ words. put words word shift width value) (B.contents bank.old) }
    ensures locks { (p : ℕ) → B.lock bank.new p ≡ B.lock bank.old p }
{
    let old = bank.read(word);
    bank.write(word, with_field(old, shift, width, value));
}
