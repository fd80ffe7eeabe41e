//! The device tree source of a section.

ghost use Rattle.std.specs.Prelude.{◌≡◌, ◌+◌, ◌++◌, ◌∷◌, ◌<◌, [], true, length, replicate, string_bytes, IfOk, OnOk};
ghost use Rattle.std.specs.Str.{is_utf8};
ghost use Rattle.bundle_text.specs.Lines.{line_at};
ghost use Rattle.bundle_sections.specs.Verdict.{IsText};
ghost use Rattle.bundle_clocks.specs.Source.{text_of_lines, source_of};

use bundle_sections::ClockSection;
use bundle_text::TextLines;
use clk_io::NoMemory;
use std::alloc::Global;

// The line at a place, which is UTF-8.
fn line_text<'a>(lines: &TextLines<'a>, at: usize) -> &'a str
    requires { is_utf8 (line_at lines.now at) ≡ true }
    ensures { result.now ≡ line_at lines.now at }
{
    match str::from_utf8(lines.line(at)) {
        Ok(text) => text,
        Err(_) => unreachable!(),
    }
}

// The source with the line at a place behind it.
fn push_line(source: &mut String, lines: &TextLines, at: usize) -> Result<(), NoMemory>
    requires { is_utf8 (line_at lines.now at) ≡ true }
    ensures { OnOk result (string_bytes source.new ≡ string_bytes source.old ++ text_of_lines (line_at lines.now at ∷ [])) }
{
    source.push_str(line_text(lines, at))?;
    source.push_str("\n")?;
    Ok(())
}

// So many empty lines.
fn empty_lines(alloc: Global, count: usize) -> Result<String, NoMemory>
    ensures { IfOk result (λ text. string_bytes text ≡ text_of_lines (replicate count [])) }
{
    let mut text = String::new(alloc);
    for _at in 0..count {
        text.push_str("\n")?;
    }
    Ok(text)
}

/// The source that the lines of a section make, behind an empty line for each line through its
/// header.
#[tactic(auto, unfolding(crate::specs::Source::source_of))]
pub(crate) fn source_of(
    alloc: Global,
    lines: &TextLines,
    section: ClockSection,
) -> Result<String, NoMemory>
    requires text { IsText lines.now }
    requires order { section.place < section.end }
    requires within { section.end < length lines.now }
    ensures { IfOk result (λ source. string_bytes source ≡ source_of lines.now section) }
{
    let first = section.place + 1;
    let mut source = empty_lines(alloc, first)?;
    for at in first..section.end {
        push_line(&mut source, lines, at)?;
    }
    Ok(source)
}
