//! Why tokens spell no tree.

ghost use Rattle.std.specs.Prelude.{◌≡◌, Some};
ghost use Rattle.dts_tree.specs.declared.fault.TreeFault.TheVariants as faults;
ghost use Rattle.dts_tree.specs.FaultTexts.{fault_text};

use clk_io::NoMemory;
use std::alloc::{AllocError, AllocFailed};
use std::error::Error;
use std::fmt;

/// Why tokens spell no tree, with the line of the first place at which they don't.
#[derive(Clone, Copy, Debug, PartialEq, Eq)]
pub enum TreeFault {
    /// A token that can't stand there, or the last one, where more have to follow.
    Syntax(u32),
    /// A name of a node, a property or a label, or a phandle, that is taken.
    TwiceDefined(u32),
    /// A reference to a label that no node has.
    NoSuchLabel(u32),
    /// A node below 64 others.
    TooDeep(u32),
    /// Memory ran out.
    NoMemory,
}

impl From<AllocError> for TreeFault {
    ghost from_gives = { λ _ e. e ≡ faults.NoMemory };

    fn from(_refused: AllocError) -> TreeFault {
        TreeFault::NoMemory
    }
}

impl<T: Drop> From<AllocFailed<T>> for TreeFault {
    ghost from_gives = { λ _ e. e ≡ faults.NoMemory };

    fn from(_refused: AllocFailed<T>) -> TreeFault {
        TreeFault::NoMemory
    }
}

impl From<NoMemory> for TreeFault {
    ghost from_gives = { λ _ e. e ≡ faults.NoMemory };

    fn from(_refused: NoMemory) -> TreeFault {
        TreeFault::NoMemory
    }
}

impl fmt::Display for TreeFault {
    ghost output = { λ fault. Some (fault_text fault) };

    fn fmt<W: fmt::Write>(&self, f: &mut fmt::Formatter<W>) -> fmt::Result {
        match self {
            TreeFault::Syntax(line) => write!(f, "line {line}: this can't stand here"),
            TreeFault::TwiceDefined(line) => write!(f, "line {line}: this is defined twice"),
            TreeFault::NoSuchLabel(line) => write!(f, "line {line}: no node has this label"),
            TreeFault::TooDeep(line) => write!(f, "line {line}: this node is below 64 others"),
            TreeFault::NoMemory => write!(f, "out of memory"),
        }
    }
}

impl Error for TreeFault {}
