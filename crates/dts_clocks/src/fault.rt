//! Why a tree is refused.

ghost use Rattle.std.specs.Prelude.{◌≡◌, Some};
ghost use Rattle.dts_clocks.specs.declared.fault.DtsFault.TheVariants as faults;
ghost use Rattle.dts_clocks.specs.FaultTexts.{fault_text};

use clk_io::NoMemory;
use std::alloc::{AllocError, AllocFailed};
use std::error::Error;
use std::fmt;

/// Why a tree is refused, with the line of the first node that is at fault.
#[derive(Clone, Copy, Debug, PartialEq, Eq)]
pub enum DtsFault {
    /// A provider without a known string in its `compatible`.
    UnknownCompatible(u32),
    /// A provider whose `#clock-cells` isn't one cell, or isn't the number that its kind asks for.
    NoCells(u32),
    /// A property that is missing or hasn't its form.
    MissingProperty(u32),
    /// A clock's name that isn't 1 to 64 characters that are seen.
    BadName(u32),
    /// A clock's name that another clock has.
    TwiceNamed(u32),
    /// A specifier that can't be read or names no clock, or a name without a specifier.
    BadSpecifier(u32),
    /// A list of parents or rates without assigned clocks or longer than theirs, or too many entries
    /// in all.
    BadAssigned(u32),
    /// Memory ran out.
    NoMemory,
}

impl From<AllocError> for DtsFault {
    ghost from_gives = { λ _ e. e ≡ faults.NoMemory };

    fn from(_refused: AllocError) -> DtsFault {
        DtsFault::NoMemory
    }
}

impl<T: Drop> From<AllocFailed<T>> for DtsFault {
    ghost from_gives = { λ _ e. e ≡ faults.NoMemory };

    fn from(_refused: AllocFailed<T>) -> DtsFault {
        DtsFault::NoMemory
    }
}

impl From<NoMemory> for DtsFault {
    ghost from_gives = { λ _ e. e ≡ faults.NoMemory };

    fn from(_none: NoMemory) -> DtsFault {
        DtsFault::NoMemory
    }
}

impl fmt::Display for DtsFault {
    ghost output = { λ fault. Some (fault_text fault) };

    fn fmt<W: fmt::Write>(&self, f: &mut fmt::Formatter<W>) -> fmt::Result {
        match self {
            DtsFault::UnknownCompatible(line) => write!(f, "line {line}: unknown compatible"),
            DtsFault::NoCells(line) => write!(f, "line {line}: wrong number of clock cells"),
            DtsFault::MissingProperty(line) => write!(f, "line {line}: a property is missing"),
            DtsFault::BadName(line) => write!(f, "line {line}: this is no name of a clock"),
            DtsFault::TwiceNamed(line) => write!(f, "line {line}: a clock has this name"),
            DtsFault::BadSpecifier(line) => write!(f, "line {line}: a specifier names no clock"),
            DtsFault::BadAssigned(line) => write!(f, "line {line}: too many parents or rates"),
            DtsFault::NoMemory => write!(f, "out of memory"),
        }
    }
}

impl Error for DtsFault {}
