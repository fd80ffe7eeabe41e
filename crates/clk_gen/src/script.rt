//! The script of a driver.

ghost use Rattle.std.specs.Prelude.{◌≡◌, ◌++◌, ◌<◌, ◌≤◌, string_bytes, IfOk, OnOk};
ghost use Rattle.clk_gen.specs.Generated.{asked, turn_lines, turns_lines, head_lines, driver_lines};

use clk_io::NoMemory;
use std::alloc::Global;

/// How many turns a driver makes.
const TURNS: u32 = 100;

// The rate that a turn asks for, in Hz.
fn asked(turn: u32) -> u64
    ensures { result ≡ asked turn }
{
    if turn % 2 == 0 {
        30_000_000
    } else {
        40_000_000
    }
}

// One turn of a driver: a rate is set, and the gate is opened, asked and closed.
fn turn_lines(alloc: Global, turn: u32) -> Result<String, NoMemory>
    ensures { IfOk result (λ text. string_bytes text ≡ turn_lines turn) }
{
    let rate = asked(turn);
    Ok(format!(in alloc; "set x {rate}\nenable x\nrunning x\ndisable x\n")?)
}

// All turns of a driver behind a text.
#[tactic(auto, unfolding(crate::specs::Generated::turns_lines))]
fn push_turns(alloc: Global, text: &mut String) -> Result<(), NoMemory>
    ensures { OnOk result (string_bytes text.new ≡ string_bytes text.old ++ turns_lines) }
{
    for turn in 0..TURNS {
        text.push_str(turn_lines(alloc, turn + 1)?.as_str())?;
    }
    Ok(())
}

// The beginning of a driver's script.
fn head_lines(alloc: Global, driver: u32) -> Result<String, NoMemory>
    ensures { IfOk result (λ text. string_bytes text ≡ head_lines driver) }
{
    Ok(format!(in alloc; "%driver w{driver}\nget x g{driver}\nprepare x\n")?)
}

/// The script of a driver behind a text.
pub(crate) fn push_driver(alloc: Global, text: &mut String, driver: u32) -> Result<(), NoMemory>
    ensures { OnOk result (string_bytes text.new ≡ string_bytes text.old ++ driver_lines driver) }
{
    text.push_str(head_lines(alloc, driver)?.as_str())?;
    push_turns(alloc, text)?;
    text.push_str("unprepare x\nput x\n")?;
    Ok(())
}
