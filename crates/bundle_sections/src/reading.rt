//! From lines to sections.

ghost use Rattle.std.specs.Prelude.{◌≡◌, ◌+◌, ◌<◌, ◌≤◌, ◌^◌, ◌==◌, true, false, length, map, Some, Ok, IfOk, IfErr, MatchResult};
ghost use Rattle.std.specs.List.{AllByRecursion};
ghost use Rattle.std.specs.Str.{is_utf8};
ghost use Rattle.bundle_text.specs.Faults.{Tells};
ghost use Rattle.bundle_text.specs.Firsts.{KeepsBelow};
ghost use Rattle.bundle_text.specs.Lines.{line_at, header_from};
ghost use Rattle.bundle_text.specs.Words.{said_words};
ghost use Rattle.bundle_sections.specs.Said.{said_section, in_order};
ghost use Rattle.bundle_sections.specs.Sections.{text_fault, fault_at, has_version, version_of, sections_of, is_passed_over};
ghost use Rattle.bundle_sections.specs.Verdict.{Accepts, Refuses, Tiles, IsText, IsSection};
ghost use Rattle.bundle_sections.specs.Reads.{Stops, Reads, AtHeader, IsNext, clock_part, bank_part, first_parts, parts_of};

use crate::header::{Header, read_header};
use crate::order::order_fault;
use crate::section::{BankSection, ClockSection, ClockText, Section, Sections};
use bundle_text::{BundleFault, Reason, TextLines};
use clk_io::NoMemory;
use std::alloc::Global;

// Whether a line is UTF-8.
fn is_text(line: &[u8]) -> bool
    ensures { result ≡ is_utf8 line.now }
{
    match str::from_utf8(line) {
        Ok(_) => true,
        Err(_) => false,
    }
}

// Checks that each line is UTF-8.
fn check_text(lines: &TextLines) -> Result<(), BundleFault>
    requires few { length lines.now + 1 < 2 ^ 32 }
    ensures { Reads (text_fault lines.now) (length lines.now) (length lines.now) (λ _. IsText lines.now) result }
{
    for at in 0..lines.len() {
        if !is_text(lines.line(at)) {
            return Err(BundleFault::at_place(at, Reason::NotUtf8));
        }
    }
    Ok(())
}

// Whether the first line states a version.
#[tactic(auto, unfolding(crate::specs::Sections::has_version))]
fn has_version(lines: &TextLines) -> bool
    ensures { result ≡ has_version lines.now }
{
    lines.line(0) == b"%bundle 1".as_slice() || lines.line(0) == b"%bundle 2".as_slice()
}

/// The version that the first line states, 1 or 2.
#[tactic(auto, unfolding(crate::specs::Sections::version_of))]
pub fn version_of(lines: &TextLines) -> u32
    ensures { result ≡ version_of lines.now }
{
    if lines.line(0) == b"%bundle 2".as_slice() {
        2
    } else {
        1
    }
}

// Whether the line at a place says nothing before the first header.
fn is_passed_over(alloc: Global, lines: &TextLines, at: usize) -> Result<bool, NoMemory>
    ensures { IfOk result (λ passed. passed ≡ is_passed_over (line_at lines.now at)) }
{
    let words = lines.said_words(alloc, at)?;
    Ok(words.is_empty())
}

// Checks that the first line states a version, and that the lines behind it and before the first
// header say nothing.
fn check_front(alloc: Global, lines: &TextLines) -> Result<usize, BundleFault>
    requires few { length lines.now + 1 < 2 ^ 32 }
    ensures { Reads (fault_at lines.now) (length lines.now + 1) (header_from lines.now 1)
        (λ first. (first ≡ header_from lines.now 1) × (0 < length lines.now) × (first ≤ length lines.now)) result }
{
    if !has_version(lines) {
        return Err(BundleFault::at_place(0, Reason::BadVersion));
    }
    let first = lines.next_header(1);
    for at in 1..first {
        if !is_passed_over(alloc, lines, at)? {
            return Err(BundleFault::at_place(at, Reason::StrayLine));
        }
    }
    Ok(first)
}

// The section whose header stands at a place, behind those that were found.
fn read_section<'a>(
    alloc: Global,
    lines: &TextLines<'a>,
    found: &[Section],
    at: usize,
) -> Result<Section<'a>, BundleFault>
    requires few { length lines.now + 1 < 2 ^ 32 }
    requires at { AtHeader lines.now at (map said_section found.now) }
    requires within { at < length lines.now }
    ensures { MatchResult result (λ s. IsNext lines.now at (map said_section found.now) (said_section s)) (Stops (fault_at lines.now) (length lines.now + 1)) }
{
    let words = lines.blank_words(alloc, at)?;
    let header = match read_header(&words) {
        Ok(header) => header,
        Err(reason) => return Err(BundleFault::at_place(at, reason)),
    };
    if let Some(reason) = order_fault(found, &header) {
        return Err(BundleFault::at_place(at, reason));
    }
    let end = lines.next_header(at + 1);
    Ok(Section {
        header,
        place: at,
        end,
    })
}

// The sections from the first header's place on.
fn read_headers<'a>(
    alloc: Global,
    lines: &TextLines<'a>,
    first: usize,
) -> Result<Vec<Section<'a>>, BundleFault>
    requires few { length lines.now + 1 < 2 ^ 32 }
    requires first { first ≡ header_from lines.now 1 }
    requires some { 0 < length lines.now }
    requires within { first ≤ length lines.now }
    requires kept { KeepsBelow (fault_at lines.now) first }
    ensures { Reads (fault_at lines.now) (length lines.now + 1) (length lines.now + 1)
        (λ found. (map said_section found.items ≡ sections_of lines.now) × Tiles first (map said_section found.items) (length lines.now)) result }
{
    let mut found = Vec::new(alloc);
    let mut at = first;
    while at < lines.len() {
        let section = read_section(alloc, lines, &found, at)?;
        at = section.end;
        found.push(section)?;
    }
    Ok(found)
}

// The section as the clocks', if it is that.
fn clock_part(section: &Section) -> Option<ClockSection>
    ensures { result ≡ clock_part section.now.place section.now.end (said_section section.now).says }
{
    let text = match section.header {
        Header::DeviceTree => ClockText::DeviceTree,
        Header::Clocks => ClockText::Lines,
        _ => return None,
    };
    Some(ClockSection {
        text,
        place: section.place,
        end: section.end,
    })
}

// The section as the bank's, if it is that.
fn bank_part(section: &Section) -> Option<BankSection>
    ensures { result ≡ bank_part section.now.place section.now.end (said_section section.now).says }
{
    match section.header {
        Header::Bank { words } => Some(BankSection {
            words,
            place: section.place,
            end: section.end,
        }),
        _ => None,
    }
}

// The two sections that must be there, where they are the first two.
fn first_parts(found: &[Section]) -> Option<(ClockSection, BankSection)>
    ensures { result ≡ first_parts (map said_section found.now) }
{
    let [clocks, bank, ..] = found else {
        return None;
    };
    let clocks = clock_part(clocks)?;
    let bank = bank_part(bank)?;
    Some((clocks, bank))
}

// The sections as those of a bundle, where the first two are those that must be there.
fn divided<'a>(found: Vec<Section<'a>>) -> Option<Sections<'a>>
    ensures { result ≡ parts_of (map said_section found.entry.items) }
{
    let (clocks, bank) = first_parts(&found)?;
    let mut others = found;
    others.remove(0);
    others.remove(0);
    Some(Sections::new(clocks, bank, others))
}

/// Reads which sections lines stand in. `end` is the line behind the last line feed, counted from 1:
/// where no line is at fault and a section that must be there is missing, this is the line that is
/// told.
pub fn read_sections<'a>(
    alloc: Global,
    lines: &TextLines<'a>,
    end: u32,
) -> Result<Sections<'a>, BundleFault>
    requires few { length lines.now + 1 < 2 ^ 32 }
    ensures accepted { IfOk result (Accepts lines.now) }
    ensures tiled { IfOk result (λ s. Tiles (header_from lines.now 1) (in_order s) (length lines.now)) }
    ensures each { IfOk result (λ s. AllByRecursion (IsSection lines.now) (in_order s)) }
    ensures refused { IfErr result (Tells (Refuses lines.now end)) }
{
    check_text(lines)?;
    let first = check_front(alloc, lines)?;
    let found = read_headers(alloc, lines, first)?;
    let Some(sections) = divided(found) else {
        return Err(BundleFault::Refused {
            line: end,
            reason: Reason::MissingSection,
        });
    };
    Ok(sections)
}
