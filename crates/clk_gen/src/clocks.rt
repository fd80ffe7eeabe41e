//! The clocks of a driver, and the first contents of its word.

ghost use Rattle.std.specs.Prelude.{◌≡◌, ◌++◌, ◌<◌, ◌≤◌, string_bytes, IfOk, OnOk};
ghost use Rattle.clk_gen.specs.Generated.{first_word, second_word, pll_line, divider_line, gate_line, clock_lines, register_line};

use clk_io::NoMemory;
use std::alloc::Global;

// The word that the PLL of a driver stands in.
fn first_word(driver: u32) -> u32
    requires first { 0 < driver }
    requires few { driver ≤ 64 }
    ensures { result ≡ first_word driver }
{
    2 * driver - 2
}

// The next one, in which its divider and its gate stand.
fn second_word(driver: u32) -> u32
    requires first { 0 < driver }
    requires few { driver ≤ 64 }
    ensures { result ≡ second_word driver }
{
    2 * driver - 1
}

// The PLL of a driver.
fn pll_line(alloc: Global, driver: u32) -> Result<String, NoMemory>
    requires first { 0 < driver }
    requires few { driver ≤ 64 }
    ensures { IfOk result (λ text. string_bytes text ≡ pll_line driver) }
{
    let word = first_word(driver);
    Ok(format!(in alloc; "pll p{driver} osc {word} 0 9 {word} 31 100 400 24\n")?)
}

// The divider below it.
fn divider_line(alloc: Global, driver: u32) -> Result<String, NoMemory>
    requires first { 0 < driver }
    requires few { driver ≤ 64 }
    ensures { IfOk result (λ text. string_bytes text ≡ divider_line driver) }
{
    let word = second_word(driver);
    Ok(format!(in alloc; "divider d{driver} p{driver} {word} 0 4 set-rate-parent\n")?)
}

// The gate below the divider.
fn gate_line(alloc: Global, driver: u32) -> Result<String, NoMemory>
    requires first { 0 < driver }
    requires few { driver ≤ 64 }
    ensures { IfOk result (λ text. string_bytes text ≡ gate_line driver) }
{
    let word = second_word(driver);
    Ok(format!(in alloc; "gate g{driver} d{driver} {word} 8 set-rate-parent\n")?)
}

/// The clocks of a driver behind a text.
pub(crate) fn push_clocks(alloc: Global, text: &mut String, driver: u32) -> Result<(), NoMemory>
    requires first { 0 < driver }
    requires few { driver ≤ 64 }
    ensures { OnOk result (string_bytes text.new ≡ string_bytes text.old ++ clock_lines driver) }
{
    text.push_str(pll_line(alloc, driver)?.as_str())?;
    text.push_str(divider_line(alloc, driver)?.as_str())?;
    text.push_str(gate_line(alloc, driver)?.as_str())?;
    Ok(())
}

/// The first contents of the word of a driver's PLL behind a text: it multiplies by 100, and is off.
pub(crate) fn push_register(alloc: Global, text: &mut String, driver: u32) -> Result<(), NoMemory>
    requires first { 0 < driver }
    requires few { driver ≤ 64 }
    ensures { OnOk result (string_bytes text.new ≡ string_bytes text.old ++ register_line driver) }
{
    let word = first_word(driver);
    let line = format!(in alloc; "{word} 0x64\n")?;
    text.push_str(line.as_str())?;
    Ok(())
}
