//! The section of turns.

ghost use Rattle.std.specs.Prelude.{◌≡◌, ◌+◌, ◌-◌, ◌<◌, ◌≤◌, ◌++◌, length, position, IfOk, IfSome, unwrap_or};
ghost use Rattle.std.specs.Option.{option_map};
ghost use Rattle.std.specs.Str.{bytes_eq};
ghost use Rattle.bundle_text.specs.Lines.{line_at};
ghost use Rattle.bundle_text.specs.Words.{texts, said_words};
ghost use Rattle.drv_scripts.specs.Judged.{Reads, ReadsLine};
ghost use Rattle.drv_scripts.specs.ListLines.{driver_number, turns_named, turns_at, turns_of, turns_fault, order_fault};

use crate::stop::{Stop, stopped};
use bundle_text::{Reason, TextLines};
use clk_io::NoMemory;
use std::alloc::Global;

// The most turns.
const MOST_TURNS: usize = 1_048_576;

// Where the first driver has this name.
fn place_of_driver(drivers: &[&str], name: &str) -> Option<usize>
    ensures { result ≡ position (λ own. bytes_eq own.now name.now) drivers.now }
{
    drivers.iter().position(|own| *own == name)
}

// The number of the driver of a name, from 1.
fn driver_number(drivers: &[&str], name: &str) -> Option<u32>
    requires { length drivers.now ≤ 64 }
    ensures { result ≡ driver_number (texts drivers.now) name.now }
{
    let place = place_of_driver(drivers, name)?;
    Some(place as u32 + 1)
}

// The numbers of the drivers that words name, or nothing where a word names none.
fn turns_named(
    alloc: Global,
    drivers: &[&str],
    words: &[&str],
) -> Result<Option<Vec<u32>>, NoMemory>
    requires { length drivers.now ≤ 64 }
    ensures { IfOk result (λ turns. option_map (λ v. v.items) turns ≡ turns_named (texts drivers.now) (texts words.now)) }
{
    let mut turns = Vec::new(alloc);
    for word in words {
        let Some(driver) = driver_number(drivers, word) else {
            return Ok(None);
        };
        turns.push(driver)?;
    }
    Ok(Some(turns))
}

// The turns of the line at a place, behind so many.
fn read_turns(
    alloc: Global,
    lines: &TextLines,
    drivers: &[&str],
    at: usize,
    before: usize,
) -> Result<Vec<u32>, Stop>
    requires few { length drivers.now ≤ 64 }
    requires fewer { before ≤ 1048576 }
    ensures read { ReadsLine (turns_fault before (turns_named (texts drivers.now) (said_words (line_at lines.now at)))) at
        (λ turns. turns.items ≡ turns_at (texts drivers.now) lines.now at) result }
    ensures few { IfOk result (λ turns. before + length turns.items ≤ 1048576) }
{
    let words = lines.said_words(alloc, at)?;
    let Some(turns) = turns_named(alloc, drivers, &words)? else {
        return Err(stopped(at, Reason::UnknownName));
    };
    if turns.len() > MOST_TURNS - before {
        return Err(stopped(at, Reason::TooManyTurns));
    }
    Ok(turns)
}

/// The turns that the lines from one place up to another state, in their order.
pub(crate) fn read_order(
    alloc: Global,
    lines: &TextLines,
    drivers: &[&str],
    from: usize,
    to: usize,
) -> Result<Vec<u32>, Stop>
    requires order { from ≤ to }
    requires few { length drivers.now ≤ 64 }
    ensures { Reads (order_fault (texts drivers.now) lines.now from) from to (λ turns. turns.items ≡ turns_of (texts drivers.now) lines.now from (to - from)) result }
{
    let mut turns = Vec::new(alloc);
    for at in from..to {
        let more = read_turns(alloc, lines, drivers, at, turns.len())?;
        turns.extend_from_slice(&more)?;
    }
    Ok(turns)
}
