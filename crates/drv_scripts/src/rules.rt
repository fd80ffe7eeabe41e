//! The rules that the clocks keep.

ghost use Rattle.std.specs.Prelude.{◌≡◌, slice_index, IfOk, IfErr, OnOk};
ghost use Rattle.bundle_text.specs.Faults.{Tells};
ghost use Rattle.clk_base.specs.Description.{EachClock};
ghost use Rattle.clk_base.specs.Valid.{has_its_parents, IsValid};
ghost use Rattle.drv_scripts.specs.Reasons.{rule_told};
ghost use Rattle.drv_scripts.specs.Verdict.{Breaks};

use bundle_text::{BundleFault, Reason};
use clk_base::{ClockId, Desc, DescFault, ValidDesc};
use std::alloc::Global;

// The line of a clock is refused.
fn refused(lines: &[u32], clock: ClockId, reason: Reason) -> BundleFault
    ensures { result ≡ BundleFault.Refused (slice_index lines.now clock.0) reason }
{
    let line = match lines.get(clock.0 as usize) {
        Some(line) => *line,
        None => 0,
    };
    BundleFault::Refused { line, reason }
}

// The fault of a description whose clocks stand on these lines.
fn rule_fault(lines: &[u32], fault: DescFault) -> BundleFault
    ensures { result ≡ rule_told lines.now fault }
{
    match fault {
        DescFault::TooMany(clock) => refused(lines, clock, Reason::TooMany),
        DescFault::BadRange(clock) => refused(lines, clock, Reason::BadRange),
        DescFault::FieldOutOfBank(clock) => refused(lines, clock, Reason::FieldOutOfBank),
        DescFault::FieldOverlap(clock) => refused(lines, clock, Reason::FieldOverlap),
        DescFault::Cycle(clock) => refused(lines, clock, Reason::Cycle),
        DescFault::TooMuchWork(clock) => refused(lines, clock, Reason::TooMuchWork),
        DescFault::NoMemory => BundleFault::NoMemory,
    }
}

/// The description as a valid one for a bank of so many words, or the first rule that is broken.
pub(crate) fn check_rules(
    alloc: Global,
    desc: Desc,
    lines: &[u32],
    words: u32,
) -> Result<ValidDesc, BundleFault>
    requires { EachClock desc (has_its_parents desc) }
    ensures same { IfOk result (λ valid. valid ≡ record { defs = desc; words = words }) }
    ensures valid { OnOk result (IsValid words desc) }
    ensures fault { IfErr result (Tells (Breaks words desc lines.now)) }
{
    match desc.check(alloc, words) {
        Ok(valid) => Ok(valid),
        Err(fault) => Err(rule_fault(lines, fault)),
    }
}
