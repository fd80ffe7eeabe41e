//! Why a call could not do what it was asked.

ghost use Rattle.std.specs.Prelude.{◌≡◌, Some, codes};
ghost use Rattle.clk_io.specs.declared.faults.ReadFault.TheVariants as reading;
ghost use Rattle.clk_io.specs.declared.faults.WriteFault.TheVariants as writing;
ghost use Rattle.clk_io.specs.declared.faults.PrintFault.TheVariants as printing;
ghost use Rattle.clk_io.specs.FaultTexts.{read_text, write_text, print_text};

use std::alloc::{AllocError, AllocFailed};
use std::error::Error;
use std::fmt;

/// One read or write went wrong.
#[derive(Clone, Copy, Debug, PartialEq, Eq)]
pub struct Failed;

/// Memory ran out.
#[derive(Clone, Copy, Debug, PartialEq, Eq)]
pub struct NoMemory;

/// Why a source was not read to its end.
#[derive(Clone, Copy, Debug, PartialEq, Eq)]
pub enum ReadFault {
    /// A read failed.
    Read,
    /// The source gave more than `MOST_BYTES` bytes.
    TooLong,
    /// Memory ran out.
    NoMemory,
}

/// Why bytes were not written to their end.
#[derive(Clone, Copy, Debug, PartialEq, Eq)]
pub enum WriteFault {
    /// A write failed.
    Write,
}

/// Why a text was not printed to its end.
#[derive(Clone, Copy, Debug, PartialEq, Eq)]
pub enum PrintFault {
    /// A write failed.
    Write,
    /// Memory ran out.
    NoMemory,
}

impl From<AllocError> for NoMemory {
    fn from(_refused: AllocError) -> NoMemory {
        NoMemory
    }
}

impl<T: Drop> From<AllocFailed<T>> for NoMemory {
    fn from(_refused: AllocFailed<T>) -> NoMemory {
        NoMemory
    }
}

impl From<Failed> for ReadFault {
    ghost from_gives = { λ _ e. e ≡ reading.Read };

    fn from(_failed: Failed) -> ReadFault {
        ReadFault::Read
    }
}

impl From<AllocError> for ReadFault {
    ghost from_gives = { λ _ e. e ≡ reading.NoMemory };

    fn from(_refused: AllocError) -> ReadFault {
        ReadFault::NoMemory
    }
}

impl From<NoMemory> for ReadFault {
    ghost from_gives = { λ _ e. e ≡ reading.NoMemory };

    fn from(_none: NoMemory) -> ReadFault {
        ReadFault::NoMemory
    }
}

impl From<Failed> for WriteFault {
    ghost from_gives = { λ _ e. e ≡ writing.Write };

    fn from(_failed: Failed) -> WriteFault {
        WriteFault::Write
    }
}

impl From<WriteFault> for PrintFault {
    ghost from_gives = { λ _ e. e ≡ printing.Write };

    fn from(_fault: WriteFault) -> PrintFault {
        PrintFault::Write
    }
}

impl From<NoMemory> for PrintFault {
    ghost from_gives = { λ _ e. e ≡ printing.NoMemory };

    fn from(_none: NoMemory) -> PrintFault {
        PrintFault::NoMemory
    }
}

impl From<AllocError> for PrintFault {
    ghost from_gives = { λ _ e. e ≡ printing.NoMemory };

    fn from(_refused: AllocError) -> PrintFault {
        PrintFault::NoMemory
    }
}

impl<T: Drop> From<AllocFailed<T>> for PrintFault {
    ghost from_gives = { λ _ e. e ≡ printing.NoMemory };

    fn from(_refused: AllocFailed<T>) -> PrintFault {
        PrintFault::NoMemory
    }
}

impl fmt::Display for Failed {
    ghost output = { λ _. Some (codes "a read or write failed") };

    fn fmt<W: fmt::Write>(&self, f: &mut fmt::Formatter<W>) -> fmt::Result {
        write!(f, "a read or write failed")
    }
}

impl fmt::Display for NoMemory {
    ghost output = { λ _. Some (codes "out of memory") };

    fn fmt<W: fmt::Write>(&self, f: &mut fmt::Formatter<W>) -> fmt::Result {
        write!(f, "out of memory")
    }
}

impl fmt::Display for ReadFault {
    ghost output = { λ fault. Some (read_text fault) };

    fn fmt<W: fmt::Write>(&self, f: &mut fmt::Formatter<W>) -> fmt::Result {
        match self {
            ReadFault::Read => write!(f, "a read failed"),
            ReadFault::TooLong => write!(f, "the input is too long"),
            ReadFault::NoMemory => write!(f, "out of memory"),
        }
    }
}

impl fmt::Display for WriteFault {
    ghost output = { λ fault. Some (write_text fault) };

    fn fmt<W: fmt::Write>(&self, f: &mut fmt::Formatter<W>) -> fmt::Result {
        match self {
            WriteFault::Write => write!(f, "a write failed"),
        }
    }
}

impl fmt::Display for PrintFault {
    ghost output = { λ fault. Some (print_text fault) };

    fn fmt<W: fmt::Write>(&self, f: &mut fmt::Formatter<W>) -> fmt::Result {
        match self {
            PrintFault::Write => write!(f, "a write failed"),
            PrintFault::NoMemory => write!(f, "out of memory"),
        }
    }
}

impl Error for Failed {}

impl Error for NoMemory {}

impl Error for ReadFault {}

impl Error for WriteFault {}

impl Error for PrintFault {}
