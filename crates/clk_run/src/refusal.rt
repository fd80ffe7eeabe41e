//! Telling what a bundle is refused for.

ghost use Rattle.std.specs.Prelude.{◌≡◌, ◌≤◌, is_some};
ghost use Rattle.clk_io.specs.Counts.{CountsPrintFault};
ghost use Rattle.clk_io.specs.Prints.{Prints};
ghost use Rattle.clk_run.specs.Refusals.{reason_word, refusal_text};

use clk_io::{PrintFault, Sink, write_all};
use drv_scripts::Reason;
use std::alloc::Global;

// The word of a reason.
#[tactic(auto, unfolding(crate::specs::Refusals::reason_word))]
fn reason_word(reason: Reason) -> &'static str
    ensures { result.now ≡ reason_word reason }
{
    match reason {
        Reason::TooLong => "TooLong",
        Reason::NotUtf8 => "NotUtf8",
        Reason::BadVersion => "BadVersion",
        Reason::StrayLine => "StrayLine",
        Reason::UnknownSection => "UnknownSection",
        Reason::BadHeader => "BadHeader",
        Reason::SectionOrder => "SectionOrder",
        Reason::TwiceDefined => "TwiceDefined",
        Reason::TooManyDrivers => "TooManyDrivers",
        Reason::MissingSection => "MissingSection",
        Reason::BadChar => "BadChar",
        Reason::OpenString => "OpenString",
        Reason::OpenComment => "OpenComment",
        Reason::NumberTooBig => "NumberTooBig",
        Reason::Syntax => "Syntax",
        Reason::TooDeep => "TooDeep",
        Reason::NoSuchLabel => "NoSuchLabel",
        Reason::UnknownCompatible => "UnknownCompatible",
        Reason::NoCells => "NoCells",
        Reason::MissingProperty => "MissingProperty",
        Reason::BadName => "BadName",
        Reason::TwiceNamed => "TwiceNamed",
        Reason::BadSpecifier => "BadSpecifier",
        Reason::BadAssigned => "BadAssigned",
        Reason::UnknownKind => "UnknownKind",
        Reason::BadWords => "BadWords",
        Reason::BadNumber => "BadNumber",
        Reason::BadFlag => "BadFlag",
        Reason::UnknownName => "UnknownName",
        Reason::TooMany => "TooMany",
        Reason::BadRange => "BadRange",
        Reason::FieldOutOfBank => "FieldOutOfBank",
        Reason::FieldOverlap => "FieldOverlap",
        Reason::Cycle => "Cycle",
        Reason::TooMuchWork => "TooMuchWork",
        Reason::UnknownCommand => "UnknownCommand",
        Reason::TooManyCommands => "TooManyCommands",
        Reason::TooManyTurns => "TooManyTurns",
    }
}

/// Prints the line that says what a bundle is refused for.
pub(crate) fn print_refusal<K: Sink>(
    alloc: Global,
    line: u32,
    reason: Reason,
    out: &mut K,
) -> Result<(), PrintFault>
    ensures prints { Prints (K.written out.old) (K.written out.new) (refusal_text line reason) result }
    ensures tells { is_some (K.written out.new) ≡ is_some (K.written out.old) }
    ensures later { K.faults out.old ≤ K.faults out.new }
    ensures counts { CountsPrintFault (K.faults out.old) (K.faults out.new) result }
{
    let word = reason_word(reason);
    let text = format!(in alloc; "error: line {line}: {word}\n")?;
    write_all(out, text.as_bytes())?;
    Ok(())
}
