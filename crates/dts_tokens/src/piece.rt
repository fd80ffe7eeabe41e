//! What stands at the front of a text.

ghost use Rattle.std.specs.Prelude.{◌≡◌, ◌+◌, ◌<◌, length};
ghost use Rattle.dts_tokens.specs.Pieces.{piece_at, slash_piece, string_piece, Fits};

use crate::characters::{is_blank, is_sign, is_word_character};
use crate::flaw::Flaw;
use crate::scanning::{comment_end, label_len, line_len, string_end, word_len};

/// What stands at the front of a text, with its length in bytes.
#[derive(Clone, Copy, Debug, PartialEq, Eq)]
pub(crate) enum Piece {
    /// A blank or a comment.
    Gap(usize),
    /// A token.
    Lexeme(usize),
    /// Neither.
    Wrong(Flaw),
}

// What stands where a slash is, by the text behind the slash.
#[tactic(auto, unfolding(crate::specs::Pieces::slash_piece))]
fn slash_piece(rest: &[u8]) -> Piece
    ensures piece { result ≡ slash_piece rest.now }
    ensures fits { Fits result (1 + length rest.now) }
{
    match rest {
        [b'/', ..] => Piece::Gap(1 + line_len(rest)),
        [b'*', inside @ ..] => match comment_end(inside) {
            Some(len) => Piece::Gap(2 + len),
            None => Piece::Wrong(Flaw::OpenComment),
        },
        [b'd', b't', b's', b'-', b'v', b'1', b'/', ..] => Piece::Lexeme(8),
        [
            b'm',
            b'e',
            b'm',
            b'r',
            b'e',
            b's',
            b'e',
            b'r',
            b'v',
            b'e',
            b'/',
            ..
        ] => Piece::Lexeme(12),
        _ => Piece::Lexeme(1),
    }
}

// What stands where a quote is, by the text behind the quote.
#[tactic(auto, unfolding(crate::specs::Pieces::string_piece))]
fn string_piece(rest: &[u8]) -> Piece
    ensures piece { result ≡ string_piece rest.now }
    ensures fits { Fits result (1 + length rest.now) }
{
    match string_end(rest) {
        Some(len) => Piece::Lexeme(1 + len),
        None => Piece::Wrong(Flaw::OpenString),
    }
}

/// What stands at the front of a text.
#[tactic(auto, unfolding(crate::specs::Pieces::piece_at))]
pub(crate) fn piece_at(text: &[u8]) -> Piece
    requires { 0 < length text.now }
    ensures piece { result ≡ piece_at text.now }
    ensures fits { Fits result (length text.now) }
{
    let [first, rest @ ..] = text else {
        return Piece::Gap(0);
    };
    if is_blank(*first) {
        Piece::Gap(1)
    } else if is_word_character(*first) {
        Piece::Lexeme(1 + word_len(rest))
    } else if is_sign(*first) {
        Piece::Lexeme(1)
    } else if *first == b'&' {
        Piece::Lexeme(1 + label_len(rest))
    } else if *first == b'"' {
        string_piece(rest)
    } else if *first == b'/' {
        slash_piece(rest)
    } else {
        Piece::Wrong(Flaw::BadChar)
    }
}
