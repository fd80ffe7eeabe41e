//! The lines behind the clocks.

ghost use Rattle.std.specs.Prelude.{◌≡◌, ◌+◌, ◌<◌, ◌≤◌, ◌^◌, length, map, IfOk, MatchResult};
ghost use Rattle.std.specs.List.{AllByRecursion};
ghost use Rattle.bundle_sections.specs.Verdict.{Tiles};
ghost use Rattle.bundle_text.specs.Firsts.{KeepsBelow};
ghost use Rattle.dts_clocks.specs.Consumers.{seen_consumer};
ghost use Rattle.drv_scripts.specs.Parts.{AreOthers};
ghost use Rattle.drv_scripts.specs.Sections.{with_clocks, driver_names, count_of, fault_at};
ghost use Rattle.drv_scripts.specs.Spelled.{bank_words};
ghost use Rattle.drv_scripts.specs.Steps.{begins, StopsFirst};

use crate::bank_section::read_words;
use crate::part::Others;
use crate::sections::{driver_names, read_others};
use crate::stop::Stop;
use bundle_sections::Sections;
use bundle_text::TextLines;
use clk_base::ValidDesc;
use dts_clocks::Consumer;
use std::alloc::Global;

/// What the sections behind the clocks' say.
#[derive(Drop)]
pub(crate) struct Contents {
    pub(crate) words: Vec<u32>,
    pub(crate) others: Others,
}

/// What the sections behind the clocks' say, or the first of their lines with a fault.
pub(crate) fn read_contents(
    alloc: Global,
    lines: &TextLines,
    desc: &ValidDesc,
    consumers: &[Consumer],
    sections: &Sections,
) -> Result<Contents, Stop>
    requires some { 0 < sections.now.bank.words }
    requires order { sections.now.bank.place < sections.now.bank.end }
    requires tiled { Tiles sections.now.bank.end sections.now.others (length lines.now) }
    requires few { length lines.now < 2 ^ 31 }
    requires drivers { length (driver_names sections.now.others) ≤ 64 }
    ensures read { let a = with_clocks lines.now desc.now.defs (map seen_consumer consumers.now) (driver_names sections.now.others) in
        MatchResult result
        (λ contents. KeepsBelow (fault_at a sections.now.bank sections.now.others) (length lines.now)
        × (contents.words.items ≡ bank_words lines.now sections.now.bank)
        × AreOthers a sections.now.others contents.others)
        (StopsFirst (fault_at a sections.now.bank sections.now.others) (length lines.now)) }
    ensures size { IfOk result (λ contents. length contents.words.items ≡ sections.now.bank.words) }
    ensures few { IfOk result (λ contents. AllByRecursion (λ s. length s.commands ≤ 65536) contents.others.drivers.items) }
    ensures fewer { IfOk result (λ contents. count_of contents.others.drivers.items ≤ 1048576) }
{
    let bank = sections.bank();
    let words = read_words(alloc, lines, bank.place + 1, bank.end, bank.words)?;
    let names = driver_names(alloc, sections.others())?;
    let others = read_others(alloc, lines, desc, consumers, &names, sections.others())?;
    Ok(Contents { words, others })
}
