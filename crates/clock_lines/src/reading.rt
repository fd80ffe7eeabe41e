//! The lines of a section, one after another.

ghost use Rattle.std.specs.Prelude.{◌≡◌, ◌<◌, ◌≤◌, ◌+◌, length, slice_range, IfOk, IfErr, MatchResult};
ghost use Rattle.bundle_text.specs.Faults.{Tells};
ghost use Rattle.bundle_text.specs.Words.{texts};
ghost use Rattle.clk_base.specs.Description.{name_of, EachClock};
ghost use Rattle.clk_base.specs.Valid.{has_its_parents};
ghost use Rattle.bundle_text.specs.Names.{is_clock_name};
ghost use Rattle.clock_lines.specs.Section.{name_word};
ghost use Rattle.clock_lines.specs.Steps.{IsRead, TakesWords, lines_in};
ghost use Rattle.clock_lines.specs.Verdict.{FirstFault, Refuses, Spells};

use crate::clock_line::known_line;
use crate::described::{describe, line_numbers};
use crate::gathered::Gathered;
use crate::list::ClockList;
use crate::stop::LineStop;
use bundle_text::{BundleFault, TextLines};
use std::alloc::Global;

/// The lines of a section: those of a text from one place up to another, in a bundle of a version.
#[derive(Clone, Copy)]
pub(crate) struct SectionLines<'t, 'a> {
    lines: &'t TextLines<'a>,
    from: usize,
    to: usize,
    version: u32,
}

// The name that words give their clock.
fn name_word<'a>(words: &[&'a str]) -> &'a str
    ensures { result.now ≡ name_word (texts words.now) }
{
    match words {
        [_, name, ..] => name,
        _ => "",
    }
}

// The clocks with the one that the words of the line at a place say, if there are words.
#[tactic(auto, unfolding(crate::specs::Section::fault_behind, crate::specs::Section::placed_clock))]
fn with_words<'a>(
    alloc: Global,
    clocks: Gathered<'a>,
    words: &[&'a str],
    place: usize,
    version: u32,
) -> Result<Gathered<'a>, LineStop>
    ensures { TakesWords version clocks.entry place (texts words.now) result }
{
    if words.is_empty() {
        return Ok(clocks);
    }
    let taken = clocks.is_named(name_word(words));
    match known_line(version, taken, words) {
        Err(reason) => Err(LineStop::Wrong(reason)),
        Ok(line) => {
            let clocks = clocks.with(alloc, place, line)?;
            Ok(clocks)
        }
    }
}

// The clocks with the one of the line at a place of the section.
fn with_line<'a>(
    alloc: Global,
    section: &SectionLines<'_, 'a>,
    clocks: Gathered<'a>,
    place: usize,
) -> Result<Gathered<'a>, BundleFault>
    requires within { section.now.from + place < section.now.to }
    requires lines { section.now.to ≤ length section.now.lines.now }
    requires few { length section.now.lines.now < 4294967295 }
    requires read { IsRead section.now.version (lines_in section.now) place clocks }
    ensures { MatchResult result
        (IsRead section.now.version (lines_in section.now) (place + 1))
        (FirstFault section.now.version section.now.from (lines_in section.now)) }
{
    let at = section.from + place;
    let words = section.lines.said_words(alloc, at)?;
    match with_words(alloc, clocks, &words, place, section.version) {
        Ok(clocks) => Ok(clocks),
        Err(LineStop::Wrong(reason)) => Err(BundleFault::at_place(at, reason)),
        Err(LineStop::NoMemory) => Err(BundleFault::NoMemory),
    }
}

// The clocks of the lines of a section.
fn read_lines<'a>(
    alloc: Global,
    section: &SectionLines<'_, 'a>,
) -> Result<Gathered<'a>, BundleFault>
    requires order { section.now.from ≤ section.now.to }
    requires lines { section.now.to ≤ length section.now.lines.now }
    requires few { length section.now.lines.now < 4294967295 }
    ensures { MatchResult result
        (IsRead section.now.version (lines_in section.now) (length (lines_in section.now)))
        (FirstFault section.now.version section.now.from (lines_in section.now)) }
{
    let mut clocks = Gathered::new(alloc);
    let count = section.to - section.from;
    for place in 0..count {
        clocks = with_line(alloc, section, clocks, place)?;
    }
    Ok(clocks)
}

/// The clocks that the lines from one place up to another spell in a bundle of this version, 1 or 2,
/// which are those of a section, or the first line with a fault. A parent may be named on a later
/// line; once all lines were read without a fault, the first line with a parent that no line names is
/// refused.
pub fn read_clocks(
    alloc: Global,
    lines: &TextLines,
    from: usize,
    to: usize,
    version: u32,
) -> Result<ClockList, BundleFault>
    requires order { from ≤ to }
    requires within { to ≤ length lines.now }
    requires few { length lines.now < 4294967295 }
    ensures ok { IfOk result (λ list. Spells version from (slice_range lines.now from to) list.desc list.lines.items) }
    ensures parents { IfOk result (λ list. EachClock list.desc (has_its_parents list.desc)) }
    ensures names { IfOk result (λ list. EachClock list.desc (λ c. is_clock_name (name_of list.desc c))) }
    ensures fits { IfOk result (λ list. length list.desc < 4294967295) }
    ensures fault { IfErr result (Tells (Refuses version from (slice_range lines.now from to))) }
{
    let section = SectionLines {
        lines,
        from,
        to,
        version,
    };
    let clocks = read_lines(alloc, &section)?;
    let desc = describe(alloc, &clocks, from)?;
    let lines = line_numbers(alloc, &clocks, from)?;
    Ok(ClockList { desc, lines })
}
