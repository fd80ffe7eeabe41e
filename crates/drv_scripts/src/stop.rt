//! Why the lines of a bundle were not read to their end.

ghost use Rattle.std.specs.Prelude.{◌≡◌};
ghost use Rattle.drv_scripts.specs.declared.stop.Stop.TheVariants as stops;

use bundle_text::Reason;
use clk_io::NoMemory;
use std::alloc::{AllocError, AllocFailed};

/// Why the lines of a bundle were not read to their end.
#[derive(Drop)]
pub(crate) enum Stop {
    /// The line at this place, from 0, is the first with a fault.
    At { place: usize, reason: Reason },
    /// Memory ran out.
    NoMemory,
}

impl From<NoMemory> for Stop {
    ghost from_gives = { λ _ e. e ≡ stops.NoMemory };

    fn from(_none: NoMemory) -> Stop {
        Stop::NoMemory
    }
}

impl From<AllocError> for Stop {
    ghost from_gives = { λ _ e. e ≡ stops.NoMemory };

    fn from(_refused: AllocError) -> Stop {
        Stop::NoMemory
    }
}

impl<T: Drop> From<AllocFailed<T>> for Stop {
    ghost from_gives = { λ _ e. e ≡ stops.NoMemory };

    fn from(_refused: AllocFailed<T>) -> Stop {
        Stop::NoMemory
    }
}

/// The line at this place has this fault.
pub(crate) fn stopped(place: usize, reason: Reason) -> Stop
    ensures { result ≡ Stop.At place reason }
{
    Stop::At { place, reason }
}
