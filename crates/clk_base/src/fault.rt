//! Why a description is refused.

ghost use Rattle.std.specs.Prelude.{◌≡◌, Some};
ghost use Rattle.clk_base.specs.declared.fault.AddFault.TheVariants as adding;
ghost use Rattle.clk_base.specs.declared.fault.DescFault.TheVariants as checking;
ghost use Rattle.clk_base.specs.FaultTexts.{add_text, desc_text};

use crate::clock::ClockId;
use clk_io::NoMemory;
use std::alloc::{AllocError, AllocFailed};
use std::error::Error;
use std::fmt;

/// Why a clock is not added to a description.
#[derive(Clone, Copy, Debug, PartialEq, Eq)]
pub enum AddFault {
    /// A clock of the description has its name.
    TwiceNamed,
    /// Memory ran out.
    NoMemory,
}

/// Why a description is refused, with the first clock that breaks the rule.
#[derive(Clone, Copy, Debug, PartialEq, Eq)]
pub enum DescFault {
    /// The 4,097th clock, a clock with more than 64 possible parents, or a clock from which a line
    /// of possible parents has more than 64 clocks.
    TooMany(ClockId),
    /// A parameter of the clock is out of its range.
    BadRange(ClockId),
    /// A field of the clock doesn't lie in the bank.
    FieldOutOfBank(ClockId),
    /// A field of the clock shares a bit with another field of it or of an earlier clock.
    FieldOverlap(ClockId),
    /// The clock is among its own possible ancestors.
    Cycle(ClockId),
    /// The clock's work is above 1,048,576.
    TooMuchWork(ClockId),
    /// Memory ran out.
    NoMemory,
}

impl From<AllocError> for AddFault {
    ghost from_gives = { λ _ e. e ≡ adding.NoMemory };

    fn from(_refused: AllocError) -> AddFault {
        AddFault::NoMemory
    }
}

impl<T: Drop> From<AllocFailed<T>> for AddFault {
    ghost from_gives = { λ _ e. e ≡ adding.NoMemory };

    fn from(_refused: AllocFailed<T>) -> AddFault {
        AddFault::NoMemory
    }
}

impl From<NoMemory> for AddFault {
    ghost from_gives = { λ _ e. e ≡ adding.NoMemory };

    fn from(_none: NoMemory) -> AddFault {
        AddFault::NoMemory
    }
}

impl From<AllocError> for DescFault {
    ghost from_gives = { λ _ e. e ≡ checking.NoMemory };

    fn from(_refused: AllocError) -> DescFault {
        DescFault::NoMemory
    }
}

impl From<NoMemory> for DescFault {
    ghost from_gives = { λ _ e. e ≡ checking.NoMemory };

    fn from(_none: NoMemory) -> DescFault {
        DescFault::NoMemory
    }
}

impl fmt::Display for AddFault {
    ghost output = { λ fault. Some (add_text fault) };

    fn fmt<W: fmt::Write>(&self, f: &mut fmt::Formatter<W>) -> fmt::Result {
        match self {
            AddFault::TwiceNamed => write!(f, "a clock has this name"),
            AddFault::NoMemory => write!(f, "out of memory"),
        }
    }
}

impl fmt::Display for DescFault {
    ghost output = { λ fault. Some (desc_text fault) };

    fn fmt<W: fmt::Write>(&self, f: &mut fmt::Formatter<W>) -> fmt::Result {
        match self {
            DescFault::TooMany(_) => write!(f, "too many clocks, parents or levels"),
            DescFault::BadRange(_) => write!(f, "a parameter is out of range"),
            DescFault::FieldOutOfBank(_) => write!(f, "a field is outside of the bank"),
            DescFault::FieldOverlap(_) => write!(f, "two fields share a bit"),
            DescFault::Cycle(_) => write!(f, "a clock is its own possible ancestor"),
            DescFault::TooMuchWork(_) => write!(f, "rounding takes too much work"),
            DescFault::NoMemory => write!(f, "out of memory"),
        }
    }
}

impl Error for AddFault {}

impl Error for DescFault {}
