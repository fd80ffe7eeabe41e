//! The section of late clocks.

ghost use Rattle.std.specs.Prelude.{◌≡◌, ◌+◌, ◌-◌, ◌<◌, ◌≤◌, ◌^◌, length};
ghost use Rattle.bundle_text.specs.Words.{texts};
ghost use Rattle.clk_base.specs.Description.{clock_named};
ghost use Rattle.drv_scripts.specs.Judged.{Reads, ReadsLine};
ghost use Rattle.drv_scripts.specs.ListLines.{late_said, late_line, late_fault, late_at, late_of};

use crate::bundle::LateLine;
use crate::judged::judged;
use crate::stop::Stop;
use bundle_text::{Reason, TextLines};
use clk_base::{ClockId, ValidDesc};
use clk_io::push_some;
use std::alloc::Global;

// A late clock on a line, where there is one.
#[tactic(auto, unfolding(crate::specs::ListLines::late_said))]
fn late_said(line: u32, clock: Option<ClockId>) -> Result<LateLine, Reason>
    ensures { result ≡ late_said line clock }
{
    match clock {
        None => Err(Reason::UnknownName),
        Some(clock) => Ok(LateLine { clock, line }),
    }
}

// A late clock of a name on a line, where there is one.
fn late_named(desc: &ValidDesc, line: u32, name: &str) -> Result<LateLine, Reason>
    ensures { result ≡ late_said line (clock_named desc.now.defs name.now) }
{
    late_said(line, desc.find(name))
}

// What the words of a line `NAME` with this number say.
#[tactic(auto, unfolding(crate::specs::ListLines::late_line))]
fn late_line(desc: &ValidDesc, line: u32, words: &[&str]) -> Result<LateLine, Reason>
    ensures { result ≡ late_line desc.now.defs line (texts words.now) }
{
    match words {
        [name] => late_named(desc, line, name),
        _ => Err(Reason::BadWords),
    }
}

// The late clock that the line at a place states.
#[tactic(auto, unfolding(crate::specs::ListLines::late_fault, crate::specs::ListLines::late_at))]
fn read_late(
    alloc: Global,
    lines: &TextLines,
    desc: &ValidDesc,
    at: usize,
) -> Result<Option<LateLine>, Stop>
    requires { at + 1 < 2 ^ 32 }
    ensures { ReadsLine (late_fault desc.now.defs lines.now at) at (λ found. found ≡ late_at desc.now.defs lines.now at) result }
{
    let words = lines.said_words(alloc, at)?;
    let said = late_line(desc, at as u32 + 1, &words);
    judged(&words, at, said)
}

/// The late clocks that the lines from one place up to another state, in their order.
pub(crate) fn read_late_clocks(
    alloc: Global,
    lines: &TextLines,
    desc: &ValidDesc,
    from: usize,
    to: usize,
) -> Result<Vec<LateLine>, Stop>
    requires order { from ≤ to }
    requires few { to < 2 ^ 31 }
    ensures { Reads (late_fault desc.now.defs lines.now) from to (λ late. late.items ≡ late_of desc.now.defs lines.now from (to - from)) result }
{
    let mut late = Vec::new(alloc);
    for at in from..to {
        let clock = read_late(alloc, lines, desc, at)?;
        push_some(&mut late, clock)?;
    }
    Ok(late)
}
