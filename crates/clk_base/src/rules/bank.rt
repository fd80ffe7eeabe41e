//! The rule that fields lie in the bank.

ghost use Rattle.std.specs.Prelude.{◌≡◌, ◌<◌, ◌^◌, length};
ghost use Rattle.std.specs.List.{list_all};
ghost use Rattle.clk_base.specs.Description.{FindsFirst};
ghost use Rattle.clk_base.specs.Fields.{fields_of, is_in_bank};
ghost use Rattle.clk_base.specs.Valid.{keeps_bank};

use crate::clock::{ClockDef, ClockId, Kind};

/// The first clock with a field outside of a bank of so many words.
pub(super) fn first_outside(defs: &[ClockDef], words: u32) -> Option<ClockId>
    requires { length defs.now < 2 ^ 32 }
    ensures { FindsFirst defs.now (keeps_bank words defs.now) result }
{
    for (i, def) in defs.iter().enumerate() {
        if !has_fields_in(&def.kind, words) {
            return Some(ClockId(i as u32));
        }
    }
    None
}

// Whether each field of the kind lies in the bank.
fn has_fields_in(kind: &Kind, words: u32) -> bool
    ensures { result ≡ list_all (is_in_bank words) (fields_of kind.now) }
{
    match *kind {
        Kind::FixedRate { .. } | Kind::Factor { .. } => true,
        Kind::Gate { word, bit, .. } => lies_in(words, word, bit, 1),
        Kind::Mux {
            word,
            shift,
            width,
            ..
        }
        | Kind::Divider {
            word,
            shift,
            width,
            ..
        } => { lies_in(words, word, shift, width) }
        Kind::Pll {
            word,
            shift,
            width,
            power_word,
            power_bit,
            ..
        } => { lies_in(words, word, shift, width) && lies_in(words, power_word, power_bit, 1) }
    }
}

// Whether a field lies in the bank.
fn lies_in(words: u32, word: u32, shift: u32, width: u32) -> bool
    ensures { result ≡ is_in_bank words (record { word = word; shift = shift; width = width }) }
{
    word < words && shift as u64 + width as u64 <= 32
}
