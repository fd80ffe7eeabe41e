//! Why a bundle is not read.

ghost use Rattle.std.specs.Prelude.{◌≡◌, ◌+◌, ◌<◌, ◌^◌};
ghost use Rattle.bundle_text.specs.declared.fault.BundleFault.TheVariants as faults;

use crate::reason::Reason;
use clk_io::NoMemory;
use std::alloc::{AllocError, AllocFailed};

/// Why a bundle, or a part of it, was not read.
#[derive(Clone, Copy, Debug, PartialEq, Eq)]
pub enum BundleFault {
    /// The line, counted from 1, and what is wrong with it. Line 0 is the whole text.
    Refused { line: u32, reason: Reason },
    /// Memory ran out.
    NoMemory,
}

impl BundleFault {
    /// The line at a place, counted from 0, is refused.
    pub fn at_place(place: usize, reason: Reason) -> BundleFault
        requires { place + 1 < 2 ^ 32 }
        ensures { result ≡ BundleFault.Refused (place + 1) reason }
    {
        BundleFault::Refused {
            line: place as u32 + 1,
            reason,
        }
    }
}

impl From<NoMemory> for BundleFault {
    ghost from_gives = { λ _ e. e ≡ faults.NoMemory };

    fn from(_none: NoMemory) -> BundleFault {
        BundleFault::NoMemory
    }
}

impl From<AllocError> for BundleFault {
    ghost from_gives = { λ _ e. e ≡ faults.NoMemory };

    fn from(_refused: AllocError) -> BundleFault {
        BundleFault::NoMemory
    }
}

impl<T: Drop> From<AllocFailed<T>> for BundleFault {
    ghost from_gives = { λ _ e. e ≡ faults.NoMemory };

    fn from(_refused: AllocFailed<T>) -> BundleFault {
        BundleFault::NoMemory
    }
}
