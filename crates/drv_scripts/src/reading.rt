//! From bytes to a bundle.

ghost use Rattle.std.specs.Prelude.{◌≡◌, ◌+◌, ◌<◌, ◌≤◌, ◌^◌, length, map, IfOk, IfErr};
ghost use Rattle.std.specs.List.{AllByRecursion};
ghost use Rattle.std.specs.Str.Lines.{lines};
ghost use Rattle.bundle_clocks.specs.Source.{text_of_lines};
ghost use Rattle.bundle_sections.specs.Said.{in_order};
ghost use Rattle.bundle_sections.specs.Verdict.{IsSection, Tiles};
ghost use Rattle.bundle_sections.specs.Verdict as section_verdict;
ghost use Rattle.bundle_text.specs.Faults.{Tells};
ghost use Rattle.bundle_text.specs.Lines.{header_from};
ghost use Rattle.dts_clocks.specs.Assigned.{seen_assigned};
ghost use Rattle.drv_scripts.specs.Placed.{IsSound};
ghost use Rattle.drv_scripts.specs.Parts.{made};
ghost use Rattle.drv_scripts.specs.Steps.{IsPlaced, stop_told};
ghost use Rattle.drv_scripts.specs.Verdict.{Accepts, PartsSpell, PartsRefuse, Refuses};

use crate::boot::boot_commands;
use crate::bundle::Bundle;
use crate::contents::{Contents, read_contents};
use crate::listed::Listed;
use crate::part::Others;
use crate::rules::check_rules;
use crate::stop::Stop;
use bundle_clocks::read_clocks_part;
use bundle_sections::{Sections, read_sections};
use bundle_text::{BundleFault, Reason, TextLines};
use clk_base::{Command, ValidDesc};
use clk_io::{MOST_BYTES, NoMemory, line_feeds};
use dts_clocks::Assigned;
use std::alloc::{AllocError, Global};

// The lines of the nodes that assign clocks.
fn assigned_lines(alloc: Global, assigned: &[Assigned]) -> Result<Vec<u32>, AllocError>
    ensures { IfOk result (λ lines. lines.items ≡ map (λ a. a.line) assigned.now) }
{
    assigned.iter().map(|a| a.line).collect(alloc)
}

// A bundle with these parts.
fn bundle_with(
    desc: ValidDesc,
    lines: (Vec<u32>, Vec<u32>),
    boot: Vec<Command>,
    contents: Contents,
) -> Bundle
    ensures { result ≡ record {
      desc = desc;
      clock_lines = lines.0.items;
      assigned_lines = lines.1.items;
      words = contents.words.items;
      locks = contents.others.locks.items;
      late = contents.others.late.items;
      boot = boot.items;
      drivers = contents.others.drivers.items;
      order = contents.others.order.items;
    } }
{
    let (clock_lines, assigned_lines) = lines;
    let Contents { words, others } = contents;
    let Others {
        locks,
        late,
        drivers,
        order,
    } = others;
    Bundle {
        desc,
        clock_lines: Listed::new(clock_lines),
        assigned_lines: Listed::new(assigned_lines),
        words: Listed::new(words),
        locks: Listed::new(locks),
        late: Listed::new(late),
        boot: Listed::new(boot),
        drivers: Listed::new(drivers),
        order: Listed::new(order),
    }
}

// The bundle of what the sections say.
fn make_bundle(
    alloc: Global,
    desc: ValidDesc,
    clock_lines: Vec<u32>,
    assigned: &[Assigned],
    contents: Contents,
) -> Result<Bundle, NoMemory>
    ensures { IfOk result (λ b. b ≡ made desc clock_lines.items (map seen_assigned assigned.now) contents.words.items contents.others) }
{
    let boot = boot_commands(alloc, desc.len() as u32, &contents.others.late, assigned)?;
    let assigned = assigned_lines(alloc, assigned)?;
    Ok(bundle_with(desc, (clock_lines, assigned), boot, contents))
}

// The fault of a line at its place.
fn line_stop(stop: Stop) -> BundleFault
    requires { IsPlaced stop }
    ensures { result ≡ stop_told stop }
{
    match stop {
        Stop::At { place, reason } => BundleFault::at_place(place, reason),
        Stop::NoMemory => BundleFault::NoMemory,
    }
}

// The bundle of lines in sections.
fn read_parts(alloc: Global, lines: &TextLines, sections: &Sections) -> Result<Bundle, BundleFault>
    requires accepted { section_verdict.Accepts lines.now sections.now }
    requires tiled { Tiles (header_from lines.now 1) (in_order sections.now) (length lines.now) }
    requires each { AllByRecursion (IsSection lines.now) (in_order sections.now) }
    requires few { length lines.now < 2 ^ 31 }
    requires room { length (text_of_lines lines.now) ≤ MOST_BYTES + 1 }
    ensures spelled { IfOk result (PartsSpell lines.now sections.now) }
    ensures sound { IfOk result IsSound }
    ensures fault { IfErr result (Tells (PartsRefuse lines.now sections.now)) }
{
    let clocks = read_clocks_part(alloc, lines, sections.clocks())?;
    let desc = check_rules(alloc, clocks.desc, &clocks.lines, sections.bank().words)?;
    match read_contents(alloc, lines, &desc, &clocks.consumers, sections) {
        Ok(contents) => {
            let bundle = make_bundle(alloc, desc, clocks.lines, &clocks.assigned, contents)?;
            Ok(bundle)
        }
        Err(stop) => Err(line_stop(stop)),
    }
}

/// Reads a bundle, phase by phase: too many bytes (line 0); the sections that its lines stand in; the
/// clocks, from clock lines or a device tree source; the rules of a description; the other lines, one
/// section behind another.
pub fn read_bundle(alloc: Global, bytes: &[u8]) -> Result<Bundle, BundleFault>
    // What is read is the bundle that the bytes spell.
    ensures accepted { IfOk result (Accepts bytes.now) }
    // Its parts fit together: the description is valid for the bank, each clock has its line, and
    // each command names clocks that are there.
    ensures sound { IfOk result IsSound }
    // Other bytes spell none: this is the first line at fault, phase by phase, and what is wrong
    // with it. Want of memory says nothing of the bytes.
    ensures refused { IfErr result (Tells (Refuses bytes.now)) }
{
    if bytes.len() > MOST_BYTES {
        return Err(BundleFault::Refused {
            line: 0,
            reason: Reason::TooLong,
        });
    }
    let lines = TextLines::new(alloc, bytes)?;
    let sections = read_sections(alloc, &lines, line_feeds(bytes) as u32 + 1)?;
    read_parts(alloc, &lines, &sections)
}
