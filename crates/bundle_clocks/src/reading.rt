//! From a section to its clocks.

ghost use Rattle.std.specs.Prelude.{◌+◌, ◌<◌, ◌≤◌, ◌^◌, length, IfOk, IfErr};
ghost use Rattle.clk_base.specs.Description.{name_of, EachClock};
ghost use Rattle.bundle_text.specs.Names.{is_clock_name};
ghost use Rattle.clk_base.specs.Valid.{has_its_parents};
ghost use Rattle.bundle_sections.specs.Verdict.{IsText};
ghost use Rattle.bundle_text.specs.Faults.{Tells};
ghost use Rattle.bundle_clocks.specs.Said.{said_clocks};
ghost use Rattle.bundle_clocks.specs.Source.{text_of_lines};
ghost use Rattle.bundle_clocks.specs.Verdict.{Says, Refuses};

use crate::line_form::read_line_form;
use crate::part::ClocksPart;
use crate::tree_form::read_tree_form;
use bundle_sections::{ClockSection, ClockText};
use bundle_text::{BundleFault, TextLines};
use clk_io::MOST_BYTES;
use std::alloc::Global;

/// The clocks that a section says, in either form, or the first line of it with a fault.
pub fn read_clocks_part(
    alloc: Global,
    lines: &TextLines,
    section: ClockSection,
) -> Result<ClocksPart, BundleFault>
    requires text { IsText lines.now }
    requires order { section.place < section.end }
    requires within { section.end < length lines.now }
    requires few { length lines.now + 1 < 2 ^ 32 }
    requires room { length (text_of_lines lines.now) ≤ MOST_BYTES + 1 }
    ensures said { IfOk result (λ part. Says lines.now section (said_clocks part)) }
    ensures parents { IfOk result (λ part. EachClock part.desc (has_its_parents part.desc)) }
    ensures names { IfOk result (λ part. EachClock part.desc (λ c. is_clock_name (name_of part.desc c))) }
    ensures fault { IfErr result (Tells (Refuses lines.now section)) }
{
    match section.text {
        ClockText::Lines => read_line_form(alloc, lines, section),
        ClockText::DeviceTree => read_tree_form(alloc, lines, section),
    }
}
