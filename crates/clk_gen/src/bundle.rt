//! The whole bundle.

ghost use Rattle.std.specs.Prelude.{◌≡◌, ◌++◌, ◌≤◌, string_bytes, IfOk, OnOk};
ghost use Rattle.clk_gen.specs.Generated.{clock_lines, register_line, driver_lines, words_line, texts_up_to, generated};

use crate::clocks::{push_clocks, push_register};
use crate::script::push_driver;
use clk_io::NoMemory;
use std::alloc::Global;

// The clocks of so many drivers behind a text.
fn push_all_clocks(alloc: Global, text: &mut String, drivers: u32) -> Result<(), NoMemory>
    requires { drivers ≤ 64 }
    ensures { OnOk result (string_bytes text.new ≡ string_bytes text.old ++ texts_up_to clock_lines drivers) }
{
    for place in 0..drivers {
        push_clocks(alloc, text, place + 1)?;
    }
    Ok(())
}

// The first contents of their words behind a text.
fn push_all_registers(alloc: Global, text: &mut String, drivers: u32) -> Result<(), NoMemory>
    requires { drivers ≤ 64 }
    ensures { OnOk result (string_bytes text.new ≡ string_bytes text.old ++ texts_up_to register_line drivers) }
{
    for place in 0..drivers {
        push_register(alloc, text, place + 1)?;
    }
    Ok(())
}

// Their scripts behind a text.
fn push_all_drivers(alloc: Global, text: &mut String, drivers: u32) -> Result<(), NoMemory>
    requires { drivers ≤ 64 }
    ensures { OnOk result (string_bytes text.new ≡ string_bytes text.old ++ texts_up_to driver_lines drivers) }
{
    for place in 0..drivers {
        push_driver(alloc, text, place + 1)?;
    }
    Ok(())
}

// The line that says how many words the bank has.
fn words_line(alloc: Global, drivers: u32) -> Result<String, NoMemory>
    requires { drivers ≤ 64 }
    ensures { IfOk result (λ text. string_bytes text ≡ words_line drivers) }
{
    let words = 2 * drivers;
    Ok(format!(in alloc; "%regs {words}\n")?)
}

/// The text of the bundle of so many drivers, with 404 commands each, or `NoMemory`.
#[tactic(auto, unfolding(crate::specs::Generated::generated))]
pub fn generated(alloc: Global, drivers: u32) -> Result<String, NoMemory>
    // There are at most 64.
    requires few { drivers ≤ 64 }
    // The text is that of the definition.
    ensures text { IfOk result (λ text. string_bytes text ≡ generated drivers) }
{
    let mut text = String::from_str(alloc, "%bundle 1\n%clocks\nfixed osc 24000000\n")?;
    push_all_clocks(alloc, &mut text, drivers)?;
    text.push_str(words_line(alloc, drivers)?.as_str())?;
    push_all_registers(alloc, &mut text, drivers)?;
    push_all_drivers(alloc, &mut text, drivers)?;
    Ok(text)
}
