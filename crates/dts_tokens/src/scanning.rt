//! How far words, references, comments and strings reach.

ghost use Rattle.std.specs.Prelude.{◌≡◌, ◌≤◌, ◌==◌, nat_eq, codes, length, IfSome, false};
ghost use Rattle.std.specs.List.{prefix_len, starts_with};
ghost use Rattle.dts_tokens.specs.Characters.{is_label_character, is_word_character};
ghost use Rattle.dts_tokens.specs.Pieces.{word_len, label_len, line_len, comment_end, quote_end};

use crate::characters::{is_label_character, is_word_character};

// How many characters of words stand at the front.
fn run_len(text: &[u8]) -> usize
    ensures run { result ≡ prefix_len is_word_character text.now }
    ensures within { result ≤ length text.now }
{
    for (index, byte) in text.iter().enumerate() {
        if !is_word_character(*byte) {
            return index;
        }
    }
    text.len()
}

/// How far a word goes on, with the colon directly behind it.
#[tactic(auto, unfolding(crate::specs::Pieces::word_len))]
pub(crate) fn word_len(text: &[u8]) -> usize
    ensures len { result ≡ word_len text.now }
    ensures within { result ≤ length text.now }
{
    let run = run_len(text);
    match &text[run..] {
        [b':', ..] => run + 1,
        _ => run,
    }
}

/// How many characters of a label stand at the front.
#[tactic(auto, unfolding(crate::specs::Pieces::label_len))]
pub(crate) fn label_len(text: &[u8]) -> usize
    ensures len { result ≡ label_len text.now }
    ensures within { result ≤ length text.now }
{
    for (index, byte) in text.iter().enumerate() {
        if !is_label_character(*byte) {
            return index;
        }
    }
    text.len()
}

/// The bytes before the next line feed, or all.
#[tactic(auto, unfolding(crate::specs::Pieces::line_len))]
pub(crate) fn line_len(text: &[u8]) -> usize
    ensures len { result ≡ line_len text.now }
    ensures within { result ≤ length text.now }
{
    for (index, byte) in text.iter().enumerate() {
        if *byte == b'\n' {
            return index;
        }
    }
    text.len()
}

// The text begins with `*/`.
fn closes(text: &[u8]) -> bool
    ensures { result ≡ starts_with nat_eq text.now (codes "*/") }
{
    matches!(text, [b'*', b'/', ..])
}

/// The bytes through the first `*/`.
pub(crate) fn comment_end(text: &[u8]) -> Option<usize>
    ensures end { result ≡ comment_end text.now }
    ensures within { IfSome result (λ n. n ≤ length text.now) }
{
    for index in 0..text.len() {
        if closes(&text[index..]) {
            return Some(index + 2);
        }
    }
    None
}

/// The bytes of a string behind its opening quote, through the closing one.
pub(crate) fn string_end(text: &[u8]) -> Option<usize>
    ensures end { result ≡ quote_end false text.now }
    ensures within { IfSome result (λ n. n ≤ length text.now) }
{
    let mut taken = false;
    for (index, byte) in text.iter().enumerate() {
        if taken {
            taken = false;
        } else if *byte == b'"' {
            return Some(index + 1);
        } else {
            taken = *byte == b'\\';
        }
    }
    None
}
