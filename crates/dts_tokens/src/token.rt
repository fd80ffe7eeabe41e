//! Tokens, and why a source has none.

ghost use Rattle.std.specs.Prelude.{◌≡◌, ◌≤◌, length, slice_range, Some};
ghost use Rattle.dts_tokens.specs.declared.token.TokenFault.TheVariants as faults;
ghost use Rattle.dts_tokens.specs.FaultTexts.{fault_text};

use std::alloc::{AllocError, AllocFailed};
use std::error::Error;
use std::fmt;

/// A token of a source: the bytes from `from` to before `to`, and the line on which it begins.
/// Lines count from 1.
#[derive(Clone, Copy, Debug, PartialEq, Eq)]
pub struct Token {
    pub from: usize,
    pub to: usize,
    pub line: u32,
}

/// Why a source can't be cut into tokens, with the line of the first such place.
#[derive(Clone, Copy, Debug, PartialEq, Eq)]
pub enum TokenFault {
    /// A character that no token, blank or comment begins with.
    BadChar(u32),
    /// A string that isn't closed, at the line on which it begins.
    OpenString(u32),
    /// A comment that isn't closed, at the line on which it begins.
    OpenComment(u32),
    /// A number of a cell or of a `/memreserve/` that is above the most it may be.
    NumberTooBig(u32),
    /// Memory ran out.
    NoMemory,
}

impl From<AllocError> for TokenFault {
    ghost from_gives = { λ _ e. e ≡ faults.NoMemory };

    fn from(_refused: AllocError) -> TokenFault {
        TokenFault::NoMemory
    }
}

impl<T: Drop> From<AllocFailed<T>> for TokenFault {
    ghost from_gives = { λ _ e. e ≡ faults.NoMemory };

    fn from(_refused: AllocFailed<T>) -> TokenFault {
        TokenFault::NoMemory
    }
}

impl fmt::Display for TokenFault {
    ghost output = { λ fault. Some (fault_text fault) };

    fn fmt<W: fmt::Write>(&self, f: &mut fmt::Formatter<W>) -> fmt::Result {
        match self {
            TokenFault::BadChar(line) => write!(f, "line {line}: a character that fits nowhere"),
            TokenFault::OpenString(line) => write!(f, "line {line}: a string that isn't closed"),
            TokenFault::OpenComment(line) => write!(f, "line {line}: a comment that isn't closed"),
            TokenFault::NumberTooBig(line) => write!(f, "line {line}: a number that is too big"),
            TokenFault::NoMemory => write!(f, "out of memory"),
        }
    }
}

impl Error for TokenFault {}

/// The bytes of a token of this text.
pub fn word<'a>(text: &'a str, token: Token) -> &'a [u8]
    requires rises { token.from ≤ token.to }
    requires within { token.to ≤ length text.now }
    ensures { result.now ≡ slice_range text.now token.from token.to }
{
    &text.as_bytes()[token.from..token.to]
}
