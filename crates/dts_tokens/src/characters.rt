//! What a character may be part of.

ghost use Rattle.std.specs.Prelude.{◌≡◌};
ghost use Rattle.dts_tokens.specs.Characters.{is_blank, is_name_character, is_label_character, is_word_character, is_sign};

/// A space, a tab or a line feed.
pub(crate) fn is_blank(byte: u8) -> bool
    ensures { result ≡ is_blank byte }
{
    matches!(byte, b' ' | b'\t' | b'\n')
}

/// A character of a node's or property's name: a letter, a digit, or one of `,._+-?#`.
#[tactic(auto, unfolding(crate::specs::Characters::is_name_character))]
pub fn is_name_character(byte: u8) -> bool
    ensures { result ≡ is_name_character byte }
{
    byte.is_ascii_alphanumeric() || matches!(byte, b',' | b'.' | b'_' | b'+' | b'-' | b'?' | b'#')
}

/// A character of a label: a letter, a digit or `_`.
#[tactic(auto, unfolding(crate::specs::Characters::is_label_character))]
pub fn is_label_character(byte: u8) -> bool
    ensures { result ≡ is_label_character byte }
{
    byte.is_ascii_alphanumeric() || byte == b'_'
}

/// A character of a name, or the `@` before a unit address.
#[tactic(auto, unfolding(crate::specs::Characters::is_word_character))]
pub(crate) fn is_word_character(byte: u8) -> bool
    ensures { result ≡ is_word_character byte }
{
    is_name_character(byte) || byte == b'@'
}

/// A character that is a token by itself.
#[tactic(auto, unfolding(crate::specs::Characters::is_sign))]
pub(crate) fn is_sign(byte: u8) -> bool
    ensures { result ≡ is_sign byte }
{
    matches!(
        byte,
        b':' | b';' | b'=' | b'{' | b'}' | b'<' | b'>' | b'[' | b']'
    )
}
