//! The clocks as lines.

ghost use Rattle.std.specs.Prelude.{◌+◌, ◌<◌, ◌^◌, length, IfOk, IfErr};
ghost use Rattle.bundle_text.specs.Faults.{Tells};
ghost use Rattle.clk_base.specs.Description.{name_of, EachClock};
ghost use Rattle.bundle_text.specs.Names.{is_clock_name};
ghost use Rattle.clk_base.specs.Valid.{has_its_parents};
ghost use Rattle.bundle_clocks.specs.Said.{said_clocks};
ghost use Rattle.bundle_clocks.specs.Verdict.{LinesSay, RefusesIn};

use crate::part::ClocksPart;
use bundle_sections::{ClockSection, ClockText, version_of};
use bundle_text::{BundleFault, TextLines};
use clock_lines::read_clocks;
use std::alloc::Global;

/// The clocks of a section of clock lines.
pub(crate) fn read_line_form(
    alloc: Global,
    lines: &TextLines,
    section: ClockSection,
) -> Result<ClocksPart, BundleFault>
    requires order { section.place < section.end }
    requires within { section.end < length lines.now }
    requires few { length lines.now + 1 < 2 ^ 32 }
    ensures said { IfOk result (λ part. LinesSay lines.now section (said_clocks part)) }
    ensures parents { IfOk result (λ part. EachClock part.desc (has_its_parents part.desc)) }
    ensures names { IfOk result (λ part. EachClock part.desc (λ c. is_clock_name (name_of part.desc c))) }
    ensures fault { IfErr result (Tells (RefusesIn ClockText.Lines lines.now section)) }
{
    let version = version_of(lines);
    let list = read_clocks(alloc, lines, section.place + 1, section.end, version)?;
    Ok(ClocksPart {
        desc: list.desc,
        lines: list.lines,
        consumers: Vec::new(alloc),
        assigned: Vec::new(alloc),
    })
}
