//! The sections behind the bank's.

ghost use Rattle.std.specs.Prelude.{◌≡◌, ◌+◌, ◌<◌, ◌≤◌, ◌^◌, length, map, IfOk};
ghost use Rattle.std.specs.List.{AllByRecursion};
ghost use Rattle.std.specs.Option.{option_map, option_to_list};
ghost use Rattle.bundle_sections.specs.Said.{said_header, said_section};
ghost use Rattle.bundle_sections.specs.Verdict.{Tiles};
ghost use Rattle.bundle_text.specs.Words.{texts};
ghost use Rattle.dts_clocks.specs.Consumers.{seen_consumer};
ghost use Rattle.drv_scripts.specs.Judged.{Reads};
ghost use Rattle.drv_scripts.specs.Parts.{part_drivers, IsPart, AreOthers};
ghost use Rattle.drv_scripts.specs.Sections.{with_clocks, name_in, driver_names, section_fault, count_of, fault_among};
ghost use Rattle.drv_scripts.specs.Steps.{begins};

use crate::driver_section::read_driver;
use crate::late_section::read_late_clocks;
use crate::lock_section::read_locks;
use crate::order_section::read_order;
use crate::part::{Others, Part};
use crate::stop::Stop;
use bundle_sections::{Header, Section};
use bundle_text::TextLines;
use clk_base::ValidDesc;
use clk_io::{NoMemory, push_some};
use dts_clocks::Consumer;
use std::alloc::Global;

// The driver's name that a header has, if it is a driver's.
fn name_in(header: Header) -> Option<&str>
    ensures { option_to_list (option_map (λ n. n.now) result) ≡ name_in (said_header header.entry) }
{
    match header {
        Header::Driver { name, .. } => Some(name),
        _ => None,
    }
}

/// The names of the drivers of sections, in their order.
pub(crate) fn driver_names<'a>(
    alloc: Global,
    sections: &[Section<'a>],
) -> Result<Vec<&'a str>, NoMemory>
    ensures { IfOk result (λ names. texts names.items ≡ driver_names (map said_section sections.now)) }
{
    let mut names = Vec::new(alloc);
    for section in sections {
        push_some(&mut names, name_in(section.header))?;
    }
    Ok(names)
}

// What a section says, so many commands of other drivers standing before it.
fn read_section(
    alloc: Global,
    lines: &TextLines,
    desc: &ValidDesc,
    consumers: &[Consumer],
    drivers: &[&str],
    section: &Section,
    before: usize,
) -> Result<Part, Stop>
    requires order { section.now.place < section.now.end }
    requires within { section.now.end ≤ length lines.now }
    requires few { length lines.now < 2 ^ 31 }
    requires fewer { before ≤ 1048576 }
    requires drivers { length drivers.now ≤ 64 }
    ensures read { let a = with_clocks lines.now desc.now.defs (map seen_consumer consumers.now) (texts drivers.now) in
        Reads (section_fault a before (said_section section.now)) section.now.place section.now.end (IsPart a (said_section section.now)) result }
    ensures few { IfOk result (λ part. AllByRecursion (λ s. length s.commands ≤ 65536) (part_drivers part)) }
    ensures fewer { IfOk result (λ part. before + count_of (part_drivers part) ≤ 1048576) }
{
    let place = section.place;
    let end = section.end;
    match section.header {
        Header::Driver { name, path } => {
            let script = read_driver(
                alloc, lines, desc, consumers, name, path, place, end, before,
            )?;
            Ok(Part::Driver(script))
        }
        Header::Lock => {
            let locks = read_locks(alloc, lines, desc, place + 1, end)?;
            Ok(Part::Locks(locks))
        }
        Header::Late => {
            let late = read_late_clocks(alloc, lines, desc, place + 1, end)?;
            Ok(Part::Late(late))
        }
        Header::Order => {
            let turns = read_order(alloc, lines, drivers, place + 1, end)?;
            Ok(Part::Turns(turns))
        }
        Header::DeviceTree => Ok(Part::Nothing),
        Header::Clocks => Ok(Part::Nothing),
        Header::Bank { words: _ } => Ok(Part::Nothing),
    }
}

/// What sections say, one behind another, whose drivers have these names.
pub(crate) fn read_others(
    alloc: Global,
    lines: &TextLines,
    desc: &ValidDesc,
    consumers: &[Consumer],
    drivers: &[&str],
    sections: &[Section],
) -> Result<Others, Stop>
    requires tiled { Tiles (begins (length lines.now) (map said_section sections.now)) (map said_section sections.now) (length lines.now) }
    requires few { length lines.now < 2 ^ 31 }
    requires drivers { length drivers.now ≤ 64 }
    ensures read { let a = with_clocks lines.now desc.now.defs (map seen_consumer consumers.now) (texts drivers.now) in
        let all = map said_section sections.now in
        Reads (fault_among a 0 all) (begins (length lines.now) all) (length lines.now) (AreOthers a all) result }
    ensures few { IfOk result (λ others. AllByRecursion (λ s. length s.commands ≤ 65536) others.drivers.items) }
    ensures fewer { IfOk result (λ others. count_of others.drivers.items ≤ 1048576) }
{
    let mut others = Others::new(alloc);
    let mut count = 0;
    for section in sections {
        let part = read_section(alloc, lines, desc, consumers, drivers, section, count)?;
        count += part.count();
        others.add(part)?;
    }
    Ok(others)
}
