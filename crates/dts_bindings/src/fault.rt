//! Why a node binds no clocks.

ghost use Rattle.std.specs.Prelude.{◌≡◌, Some};
ghost use Rattle.dts_bindings.specs.declared.fault.BindingFault.TheVariants as faults;
ghost use Rattle.dts_bindings.specs.FaultTexts.{fault_text};

use clk_io::NoMemory;
use std::error::Error;
use std::fmt;

/// Why a provider's node binds no clocks. Of several the first in this order is told.
#[derive(Clone, Copy, Debug, PartialEq, Eq)]
pub enum BindingFault {
    /// No string of `compatible` is in the table.
    UnknownCompatible,
    /// `#clock-cells` isn't one number cell, or isn't the number of the table.
    NoCells,
    /// A property that has to be there is missing, or one that is read hasn't its form.
    MissingProperty,
    /// Memory ran out.
    NoMemory,
}

impl From<NoMemory> for BindingFault {
    ghost from_gives = { λ _ e. e ≡ faults.NoMemory };

    fn from(_none: NoMemory) -> BindingFault {
        BindingFault::NoMemory
    }
}

impl fmt::Display for BindingFault {
    ghost output = { λ fault. Some (fault_text fault) };

    fn fmt<W: fmt::Write>(&self, f: &mut fmt::Formatter<W>) -> fmt::Result {
        match self {
            BindingFault::UnknownCompatible => write!(f, "no such provider is known"),
            BindingFault::NoCells => write!(f, "#clock-cells is missing or wrong"),
            BindingFault::MissingProperty => write!(f, "a property is missing or wrong"),
            BindingFault::NoMemory => write!(f, "out of memory"),
        }
    }
}

impl Error for BindingFault {}
