//! Why a notifier is not added.

ghost use Rattle.std.specs.Prelude.{◌≡◌, Some};
ghost use Rattle.notifiers.specs.declared.fault.ChainFault.TheVariants as why;
ghost use Rattle.notifiers.specs.FaultTexts.{fault_text};

use std::alloc::{AllocError, AllocFailed};
use std::error::Error;
use std::fmt;

/// Why a notifier is not added to a clock.
#[derive(Clone, Copy, Debug, PartialEq, Eq)]
pub enum ChainFault {
    /// The clock has a notifier of this id.
    Exists,
    /// The clock has 256 notifiers.
    Full,
    /// Memory ran out.
    NoMemory,
}

impl From<AllocError> for ChainFault {
    ghost from_gives = { λ _ e. e ≡ why.NoMemory };

    fn from(_refused: AllocError) -> ChainFault {
        ChainFault::NoMemory
    }
}

impl<T: Drop> From<AllocFailed<T>> for ChainFault {
    ghost from_gives = { λ _ e. e ≡ why.NoMemory };

    fn from(_refused: AllocFailed<T>) -> ChainFault {
        ChainFault::NoMemory
    }
}

impl fmt::Display for ChainFault {
    ghost output = { λ f. Some (fault_text f) };

    fn fmt<W: fmt::Write>(&self, f: &mut fmt::Formatter<W>) -> fmt::Result {
        match self {
            ChainFault::Exists => write!(f, "the clock has a notifier of this id"),
            ChainFault::Full => write!(f, "the clock has 256 notifiers"),
            ChainFault::NoMemory => write!(f, "out of memory"),
        }
    }
}

impl Error for ChainFault {}
