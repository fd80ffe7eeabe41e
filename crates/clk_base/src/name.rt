//! The name of a clock.

ghost use Rattle.std.specs.Prelude.{◌≡◌, ℕ, List, IfOk, string_bytes};

use clk_io::NoMemory;
use std::alloc::Global;
use std::marker::Model;

/// The name of a clock, seen by contracts as its bytes.
#[derive(Debug, Drop)]
pub struct ClockName {
    text: String,
}

impl Model for ClockName {
    ghost Value = { List ℕ };

    ghost view = { λ n. string_bytes n.text };
}

impl ClockName {
    /// The name of this text. Takes no memory.
    pub fn new(text: String) -> ClockName
        ensures { result ≡ string_bytes text }
    {
        ClockName { text }
    }

    /// The name's text.
    pub fn as_str(&self) -> &str
        ensures { result.now ≡ self.now }
    {
        self.text.as_str()
    }

    /// The name's text by itself. Takes no memory.
    pub fn into_text(self) -> String
        ensures { string_bytes result ≡ self }
    {
        let ClockName { text } = self;
        text
    }

    /// An equal name. Want of memory is its one refusal.
    pub fn copy(&self, alloc: Global) -> Result<ClockName, NoMemory>
        ensures { IfOk result (λ name. name ≡ self.now) }
    {
        let text = String::from_str(alloc, self.text.as_str())?;
        Ok(ClockName { text })
    }
}
