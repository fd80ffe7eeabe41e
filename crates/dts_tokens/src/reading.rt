//! From a text to its tokens.

ghost use Rattle.std.specs.Prelude.{◌≡◌, ◌≤◌, length, IfOk, IfErr, All};
ghost use Rattle.dts_tokens.specs.Tokens.{Tokens, IsFaultOf, IsWhole, Rises, line_of};

use crate::flaw::{Flaw, fault_on};
use crate::piece::{Piece, piece_at};
use crate::scope::Scope;
use crate::token::{Token, TokenFault};
use clk_io::{MOST_BYTES, line_feeds};
use std::alloc::Global;

/// The tokens of a text, in order, each with the line on which it begins. A text that can't be cut
/// into tokens, blanks and comments is refused at the first place where it can't, and so is a
/// number that is too big where it stands: one of a cell above 4294967295, or one of a
/// `/memreserve/` above 18446744073709551615.
pub fn tokens(alloc: Global, text: &str) -> Result<Vec<Token>, TokenFault>
    requires { length text.now ≤ MOST_BYTES }
    ensures tokens { IfOk result (λ found. Tokens text.now found.items) }
    ensures fault { IfErr result (λ fault. IsFaultOf text.now fault) }
    ensures rises { IfOk result (λ found. Rises 0 found.items (length text.now)) }
    ensures lines { IfOk result (λ found. All (λ t. t.line ≡ line_of text.now t.from) found.items) }
    ensures whole { IfOk result (λ found. All (IsWhole text.now) found.items) }
{
    let bytes = text.as_bytes();
    let mut found = Vec::new(alloc);
    let mut scope = Scope::new();
    let mut at = 0;
    let mut line = 1;
    while at < bytes.len() {
        let rest = &bytes[at..];
        let len = match piece_at(rest) {
            Piece::Gap(len) => len,
            Piece::Lexeme(len) => {
                let word = &rest[..len];
                if scope.is_too_big(word) {
                    return Err(fault_on(Flaw::NumberTooBig, line));
                }
                scope.pass(word);
                found.push(Token {
                    from: at,
                    to: at + len,
                    line,
                })?;
                len
            }
            Piece::Wrong(flaw) => return Err(fault_on(flaw, line)),
        };
        let feeds = line_feeds(&rest[..len]);
        line += feeds as u32;
        at += len;
    }
    Ok(found)
}
