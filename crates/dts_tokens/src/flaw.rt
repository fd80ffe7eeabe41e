//! What can be wrong at a place of a source.

ghost use Rattle.std.specs.Prelude.{◌≡◌};
ghost use Rattle.dts_tokens.specs.Faults.{fault_on};

use crate::token::TokenFault;

/// What can be wrong at a place of a source.
#[derive(Clone, Copy, Debug, PartialEq, Eq)]
pub(crate) enum Flaw {
    BadChar,
    OpenString,
    OpenComment,
    NumberTooBig,
}

/// The fault with its line.
pub(crate) fn fault_on(flaw: Flaw, line: u32) -> TokenFault
    ensures { result ≡ fault_on flaw line }
{
    match flaw {
        Flaw::BadChar => TokenFault::BadChar(line),
        Flaw::OpenString => TokenFault::OpenString(line),
        Flaw::OpenComment => TokenFault::OpenComment(line),
        Flaw::NumberTooBig => TokenFault::NumberTooBig(line),
    }
}
