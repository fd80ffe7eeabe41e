//! The rules of a description, each looked for at the clocks in order.

ghost use Rattle.std.specs.Prelude.{◌<◌, ◌^◌, length, OnOk, IfErr};
ghost use Rattle.clk_base.specs.Description.{EachClock, HasDistinctNames};
ghost use Rattle.clk_base.specs.Valid.{has_its_parents, IsValid};
ghost use Rattle.clk_base.specs.Checked.{IsFault};

mod apart;
mod bank;
mod counts;
mod cycles;
mod levels;
mod ranges;
mod work;

use crate::clock::ClockDef;
use crate::fault::DescFault;
use apart::first_overlap;
use bank::first_outside;
use counts::first_uncounted;
use cycles::first_own_ancestor;
pub use levels::depth;
use levels::{first_endless, lines_end};
use ranges::first_out_of_range;
use std::alloc::Global;
use work::first_too_much;

/// Refuses a description by the first rule that a clock breaks.
pub(crate) fn refuse_broken(alloc: Global, defs: &[ClockDef], words: u32) -> Result<(), DescFault>
    requires fits { length defs.now < 2 ^ 32 }
    requires names { HasDistinctNames defs.now }
    requires parents { EachClock defs.now (has_its_parents defs.now) }
    ensures valid { OnOk result (IsValid words defs.now) }
    ensures err { IfErr result (IsFault words defs.now) }
{
    if let Some(c) = first_uncounted(defs) {
        return Err(DescFault::TooMany(c));
    }
    if let Some(c) = first_out_of_range(defs) {
        return Err(DescFault::BadRange(c));
    }
    if let Some(c) = first_outside(defs, words) {
        return Err(DescFault::FieldOutOfBank(c));
    }
    if let Some(c) = first_overlap(alloc, defs, words)? {
        return Err(DescFault::FieldOverlap(c));
    }
    let ends = lines_end(alloc, defs)?;
    if let Some(c) = first_own_ancestor(alloc, defs, &ends)? {
        return Err(DescFault::Cycle(c));
    }
    if let Some(c) = first_endless(&ends) {
        return Err(DescFault::TooMany(c));
    }
    if let Some(c) = first_too_much(alloc, defs)? {
        return Err(DescFault::TooMuchWork(c));
    }
    Ok(())
}
