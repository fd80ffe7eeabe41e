//! The clocks as a device tree source.

ghost use Rattle.std.specs.Prelude.{◌≡◌, ℕ, ◌+◌, ◌<◌, ◌≤◌, ◌^◌, length, IfOk, IfErr};
ghost use Rattle.clk_base.specs.Description.{name_of, EachClock};
ghost use Rattle.bundle_text.specs.Names.{is_clock_name};
ghost use Rattle.clk_base.specs.Valid.{has_its_parents};
ghost use Rattle.dts_tree.specs.Tree.{seen};
ghost use Rattle.bundle_sections.specs.Sections.{version_of};
ghost use Rattle.bundle_sections.specs.Verdict.{IsText};
ghost use Rattle.bundle_text.specs.Faults.{Tells};
ghost use Rattle.bundle_clocks.specs.Said.{said_clocks};
ghost use Rattle.bundle_clocks.specs.Source.{text_of_lines, source_of};
ghost use Rattle.bundle_clocks.specs.Verdict.{SourceSays, TreeSays, SourceRefused};

use crate::fault::{nodes_fault, token_fault, tree_fault};
use crate::part::ClocksPart;
use crate::source::source_of;
use bundle_sections::{ClockSection, version_of};
use bundle_text::{BundleFault, Reason, TextLines};
use clk_io::MOST_BYTES;
use dts_clocks::read_desc;
use dts_tokens::tokens;
use dts_tree::{DtsTree, parse};
use std::alloc::Global;

// The tree of a source whose first line is given.
fn read_tree(alloc: Global, source: &str, first: u32) -> Result<DtsTree, BundleFault>
    requires { length source.now ≤ MOST_BYTES }
    ensures tree { IfOk result (λ tree. SourceSays first source.now (seen tree)) }
    ensures fault { (version : ℕ) → IfErr result (Tells (SourceRefused version first source.now)) }
{
    let tokens = match tokens(alloc, source) {
        Ok(tokens) => tokens,
        Err(fault) => return Err(token_fault(fault)),
    };
    if tokens.is_empty() {
        return Err(BundleFault::Refused {
            line: first,
            reason: Reason::Syntax,
        });
    }
    match parse(alloc, source, &tokens) {
        Ok(tree) => Ok(tree),
        Err(fault) => Err(tree_fault(fault)),
    }
}

// The clocks of a source of this version whose first line is given.
fn read_source(
    alloc: Global,
    source: &str,
    first: u32,
    version: u32,
) -> Result<ClocksPart, BundleFault>
    requires { length source.now ≤ MOST_BYTES }
    ensures said { IfOk result (λ part. TreeSays version first source.now (said_clocks part)) }
    ensures parents { IfOk result (λ part. EachClock part.desc (has_its_parents part.desc)) }
    ensures names { IfOk result (λ part. EachClock part.desc (λ c. is_clock_name (name_of part.desc c))) }
    ensures fault { IfErr result (Tells (SourceRefused version first source.now)) }
{
    let tree = read_tree(alloc, source, first)?;
    let loaded = match read_desc(alloc, &tree, version) {
        Ok(loaded) => loaded,
        Err(fault) => return Err(nodes_fault(fault)),
    };
    Ok(ClocksPart {
        desc: loaded.desc,
        lines: loaded.lines,
        consumers: loaded.consumers,
        assigned: loaded.assigned,
    })
}

/// The clocks of a section that is a device tree source.
pub(crate) fn read_tree_form(
    alloc: Global,
    lines: &TextLines,
    section: ClockSection,
) -> Result<ClocksPart, BundleFault>
    requires text { IsText lines.now }
    requires order { section.place < section.end }
    requires within { section.end < length lines.now }
    requires few { length lines.now + 1 < 2 ^ 32 }
    requires room { length (text_of_lines lines.now) ≤ MOST_BYTES + 1 }
    ensures said { IfOk result (λ part. TreeSays (version_of lines.now) (section.place + 2) (source_of lines.now section) (said_clocks part)) }
    ensures parents { IfOk result (λ part. EachClock part.desc (has_its_parents part.desc)) }
    ensures names { IfOk result (λ part. EachClock part.desc (λ c. is_clock_name (name_of part.desc c))) }
    ensures fault { IfErr result (Tells (SourceRefused (version_of lines.now) (section.place + 2) (source_of lines.now section))) }
{
    let source = source_of(alloc, lines, section)?;
    read_source(alloc, &source, section.place as u32 + 2, version_of(lines))
}
