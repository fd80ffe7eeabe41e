//! Clocks as a description states them.

ghost use Rattle.std.specs.Prelude.{◌≡◌, IfOk};

use crate::flags::ClkFlags;
use crate::name::ClockName;
use crate::parents::Parents;
use clk_io::NoMemory;
use std::alloc::Global;

/// A clock: its place in the description, in registration order.
#[derive(Clone, Copy, Debug, PartialEq, Eq, PartialOrd, Ord, Hash)]
pub struct ClockId(pub u32);

/// What a clock is, with its parameters.
///
/// `word`, `shift` and `width` name a field of the register bank, `word` and `bit` a single bit.
#[derive(Clone, Copy, Debug, PartialEq, Eq)]
pub enum Kind {
    /// A root with a stated rate in Hz.
    FixedRate {
        rate: u64,
    },
    /// The parent's rate times `mult` over `div`.
    Factor {
        mult: u32,
        div: u32,
    },
    /// The parent's rate behind a gate bit. With `set_to_disable` a set bit closes the gate.
    Gate {
        word: u32,
        bit: u32,
        set_to_disable: bool,
    },
    /// The rate of the parent whose place in the list of possible parents stands in the field.
    Mux {
        word: u32,
        shift: u32,
        width: u32,
        read_only: bool,
    },
    /// The parent's rate over a divisor: the field plus 1, with `one_based` the field itself, with
    /// `power_of_two` 2 to the power of the field.
    Divider {
        word: u32,
        shift: u32,
        width: u32,
        one_based: bool,
        power_of_two: bool,
    },
    /// The parent's rate times the field over `m`, powered by a bit that is set when it is on.
    /// Multipliers lie from `least` to `most`.
    Pll {
        word: u32,
        shift: u32,
        width: u32,
        power_word: u32,
        power_bit: u32,
        least: u32,
        most: u32,
        m: u32,
    },
}

/// A clock of a description.
#[derive(Debug, Drop)]
pub struct ClockDef {
    pub name: ClockName,
    pub kind: Kind,
    pub flags: ClkFlags,
    /// The possible parents. A field of a mux counts their places from 0.
    pub parents: Parents,
}

impl ClockDef {
    /// An equal record. Want of memory is its one refusal.
    pub fn copy(&self, alloc: Global) -> Result<ClockDef, NoMemory>
        ensures { IfOk result (λ def. def ≡ self.now) }
    {
        let name = self.name.copy(alloc)?;
        let parents = self.parents.copy(alloc)?;
        Ok(ClockDef {
            name,
            kind: self.kind,
            flags: self.flags,
            parents,
        })
    }
}
