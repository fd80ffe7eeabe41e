//! What a token is by itself.

ghost use Rattle.std.specs.Prelude.{◌≡◌, ◌==◌, position};
ghost use Rattle.std.specs.Char.{is_ascii_hexdigit};
ghost use Rattle.std.specs.List.{list_all};
ghost use Rattle.dts_tokens.specs.Characters.{is_name_character, is_label_character};
ghost use Rattle.dts_tree.specs.Marks.{mark_of, sign_mark, long_mark, is_label, is_plain_name, is_node_name, are_bytes};

use dts_tokens::{is_label_character, is_name_character};

/// What a token is by itself.
#[derive(Clone, Copy, Debug, PartialEq, Eq)]
pub(crate) enum Mark {
    /// `/dts-v1/`.
    Version,
    /// `/memreserve/`.
    Reserve,
    Slash,
    OpenBrace,
    CloseBrace,
    Semicolon,
    Equals,
    Less,
    Greater,
    OpenBracket,
    CloseBracket,
    Comma,
    /// A label with its colon.
    Label,
    /// A label behind its `&`.
    Reference,
    /// A string in its quotes.
    Text,
    /// A name, a number or bytes.
    Word,
    /// None of these.
    Stray,
}

// What a token of one character is.
fn sign_mark(byte: u8) -> Mark
    ensures { result ≡ sign_mark byte }
{
    match byte {
        b'/' => Mark::Slash,
        b'{' => Mark::OpenBrace,
        b'}' => Mark::CloseBrace,
        b';' => Mark::Semicolon,
        b'=' => Mark::Equals,
        b'<' => Mark::Less,
        b'>' => Mark::Greater,
        b'[' => Mark::OpenBracket,
        b']' => Mark::CloseBracket,
        b',' => Mark::Comma,
        b':' => Mark::Stray,
        b'&' => Mark::Stray,
        _ => Mark::Word,
    }
}

// Each character is one of labels.
fn all_of_label(word: &[u8]) -> bool
    ensures { result ≡ list_all is_label_character word.now }
{
    word.iter().all(|byte| is_label_character(*byte))
}

// Each character is one of names.
fn all_of_name(word: &[u8]) -> bool
    ensures { result ≡ list_all is_name_character word.now }
{
    word.iter().all(|byte| is_name_character(*byte))
}

// Each character is a hexadecimal digit, of either case.
fn all_hexadecimal(word: &[u8]) -> bool
    ensures { result ≡ list_all is_ascii_hexdigit word.now }
{
    word.iter().all(|byte| byte.is_ascii_hexdigit())
}

// Letters, digits and `_`, one at least, and no digit first.
#[tactic(auto, unfolding(crate::specs::Marks::is_label))]
fn is_label(word: &[u8]) -> bool
    ensures { result ≡ is_label word.now }
{
    match word {
        [first, ..] => !first.is_ascii_digit() && all_of_label(word),
        [] => false,
    }
}

// What a token of more than one character is.
#[tactic(auto, unfolding(crate::specs::Marks::long_mark))]
fn long_mark(word: &[u8]) -> Mark
    ensures { result ≡ long_mark word.now }
{
    if word == b"/dts-v1/".as_slice() {
        return Mark::Version;
    }
    if word == b"/memreserve/".as_slice() {
        return Mark::Reserve;
    }
    match word {
        [b'"', ..] => Mark::Text,
        [b'&', name @ ..] => {
            if is_label(name) {
                Mark::Reference
            } else {
                Mark::Stray
            }
        }
        [name @ .., b':'] => {
            if is_label(name) {
                Mark::Label
            } else {
                Mark::Stray
            }
        }
        _ => Mark::Word,
    }
}

/// What a token is, by its text.
#[tactic(auto, unfolding(crate::specs::Marks::mark_of))]
pub(crate) fn mark_of(word: &[u8]) -> Mark
    ensures { result ≡ mark_of word.now }
{
    match word {
        [byte] => sign_mark(*byte),
        _ => long_mark(word),
    }
}

/// Characters of names, one at least.
#[tactic(auto, unfolding(crate::specs::Marks::is_plain_name))]
pub(crate) fn is_plain_name(word: &[u8]) -> bool
    ensures { result ≡ is_plain_name word.now }
{
    !word.is_empty() && all_of_name(word)
}

// Where the first `@` stands.
fn at_sign(word: &[u8]) -> Option<usize>
    ensures { result ≡ position (λ b. b == 64) word.now }
{
    word.iter().position(|byte| *byte == b'@')
}

/// A plain name, and behind `@` another, if there is an `@`.
#[tactic(auto, unfolding(crate::specs::Marks::is_node_name))]
pub(crate) fn is_node_name(word: &[u8]) -> bool
    ensures { result ≡ is_node_name word.now }
{
    match at_sign(word) {
        Some(at) => is_plain_name(&word[..at]) && is_plain_name(&word[at + 1..]),
        None => is_plain_name(word),
    }
}

/// Pairs of hexadecimal digits, one pair at least.
#[tactic(auto, unfolding(crate::specs::Marks::are_bytes))]
pub(crate) fn are_bytes(word: &[u8]) -> bool
    ensures { result ≡ are_bytes word.now }
{
    !word.is_empty() && word.len() % 2 == 0 && all_hexadecimal(word)
}
