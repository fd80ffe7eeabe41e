//! The rule that fields share no bit.

ghost use Rattle.std.specs.Prelude.{◌≡◌, ◌+◌, ◌<◌, ◌^◌, ◌++◌, ◌∷◌, not, List, length, IsTrue, IfOk};
ghost use Rattle.std.specs.List.{list_all, list_any};
ghost use Rattle.clk_base.specs.Description.{EachClock, FindsFirst};
ghost use Rattle.clk_base.specs.Fields.{Field, fields_of, is_in_bank, share_bit};
ghost use Rattle.clk_base.specs.Valid.{keeps_apart, keeps_bank, stand_apart};
ghost use Rattle.clk_base.specs.Tables.{IsTaken};

use crate::clock::{ClockDef, ClockId, Kind};
use clk_io::NoMemory;
use reg_bank::TakenBits;
use std::alloc::Global;

/// The first clock of which a field shares a bit with another field of it or of an earlier clock.
pub(super) fn first_overlap(
    alloc: Global,
    defs: &[ClockDef],
    words: u32,
) -> Result<Option<ClockId>, NoMemory>
    requires fits { length defs.now < 2 ^ 32 }
    requires inside { EachClock defs.now (keeps_bank words defs.now) }
    ensures { IfOk result (FindsFirst defs.now (keeps_apart words defs.now)) }
{
    let mut taken = TakenBits::create(alloc, words)?;
    for (i, def) in defs.iter().enumerate() {
        if !take_fields(&mut taken, def.kind) {
            return Ok(Some(ClockId(i as u32)));
        }
    }
    Ok(None)
}

// Takes the bits of the fields of a kind. True exactly where they were free and share none.
fn take_fields(taken: &mut TakenBits, kind: Kind) -> bool
    requires { IsTrue (list_all (is_in_bank (length taken.old)) (fields_of kind)) }
    ensures words { length taken.new ≡ length taken.old }
    ensures free { (fields : List Field) → IsTaken taken.old fields → result ≡ stand_apart fields (fields_of kind) }
    ensures taken { (fields : List Field) → IsTaken taken.old fields → IsTrue result → IsTaken taken.new (fields ++ fields_of kind) }
{
    match kind {
        Kind::FixedRate { .. } | Kind::Factor { .. } => true,
        Kind::Gate { word, bit, .. } => take_field(taken, word, bit, 1),
        Kind::Mux {
            word,
            shift,
            width,
            ..
        } => take_field(taken, word, shift, width),
        Kind::Divider {
            word,
            shift,
            width,
            ..
        } => take_field(taken, word, shift, width),
        Kind::Pll {
            word,
            shift,
            width,
            power_word,
            power_bit,
            ..
        } => {
            take_field(taken, word, shift, width) && take_field(taken, power_word, power_bit, 1)
        }
    }
}

// Takes the bits of a field. True exactly where they were free.
fn take_field(taken: &mut TakenBits, word: u32, shift: u32, width: u32) -> bool
    requires { IsTrue (is_in_bank (length taken.old) (record { word = word; shift = shift; width = width })) }
    ensures words { length taken.new ≡ length taken.old }
    ensures free { (fields : List Field) → IsTaken taken.old fields
        → result ≡ not (list_any (share_bit (record { word = word; shift = shift; width = width })) fields) }
    ensures taken { (fields : List Field) → IsTaken taken.old fields → IsTrue result
        → IsTaken taken.new (record { word = word; shift = shift; width = width } ∷ fields) }
{
    for bit in shift..shift + width {
        if !taken.take(word, bit) {
            return false;
        }
    }
    true
}
