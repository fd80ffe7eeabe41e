//! What a bundle says.

ghost use Rattle.std.specs.Prelude.{◌≡◌, List, ℕ, string_bytes};

use crate::listed::Listed;
use clk_base::{ClockId, Command, ValidDesc};
use std::marker::Model;

/// The name of a driver, seen by contracts as its bytes.
#[derive(Debug, Drop)]
pub struct DriverName {
    text: String,
}

impl Model for DriverName {
    ghost Value = { List ℕ };

    ghost view = { λ n. string_bytes n.text };
}

impl DriverName {
    /// The name of this text. Takes no memory.
    pub fn new(text: String) -> DriverName
        ensures { result ≡ string_bytes text }
    {
        DriverName { text }
    }

    /// The name's text.
    pub fn as_str(&self) -> &str
        ensures { result.now ≡ self.now }
    {
        self.text.as_str()
    }

    /// The name's text by itself. Takes no memory.
    pub fn into_text(self) -> String
        ensures { string_bytes result ≡ self }
    {
        let DriverName { text } = self;
        text
    }
}

/// A PLL whose lock answers yes from this poll on after it was powered.
#[derive(Clone, Copy, Debug, PartialEq, Eq)]
pub struct LockLine {
    pub clock: ClockId,
    pub polls: u32,
}

/// A clock that isn't registered at boot, and its line.
#[derive(Clone, Copy, Debug, PartialEq, Eq)]
pub struct LateLine {
    pub clock: ClockId,
    pub line: u32,
}

/// A driver and its commands.
#[derive(Drop)]
pub struct Script {
    pub name: DriverName,
    pub commands: Listed<Command>,
}

/// A bundle. Lines count from 1; drivers are numbered from 1 in their order, and boot is number 0.
#[derive(Drop)]
pub struct Bundle {
    pub desc: ValidDesc,
    /// The line of each clock.
    pub clock_lines: Listed<u32>,
    /// The line of each node with assigned clocks.
    pub assigned_lines: Listed<u32>,
    /// The words of the register bank.
    pub words: Listed<u32>,
    /// The delays of locks; a later one of a PLL wins.
    pub locks: Listed<LockLine>,
    /// The clocks that boot doesn't register.
    pub late: Listed<LateLine>,
    /// The commands of boot. Their line is 0.
    pub boot: Listed<Command>,
    pub drivers: Listed<Script>,
    /// The numbers of drivers, in the order in which they take turns.
    pub order: Listed<u32>,
}
