ghost use Rattle.std.specs.Prelude.{◌≡◌};
ghost use Rattle.std.specs.List.{list_all, list_any};
ghost use Rattle.bundle_text.specs.Names.{is_seen, is_driver_character, is_variable_character, is_clock_name, is_driver_name, is_variable};
ghost use Rattle.bundle_text.specs.Words.{is_blank, is_word};

// Each character is one of ASCII that is seen.
fn all_seen(word: &str) -> bool
    ensures { result ≡ list_all is_seen word.now }
{
    word.as_bytes()
        .iter()
        .all(|byte| (0x21..=0x7e).contains(byte))
}

/// 1 to 64 characters of ASCII that are seen.
#[tactic(auto, unfolding(crate::specs::Names::is_clock_name))]
pub fn is_clock_name(word: &str) -> bool
    ensures { result ≡ is_clock_name word.now }
{
    !word.is_empty() && word.len() <= 64 && all_seen(word)
}

// Each character is a letter, a digit, `_` or `-`.
fn all_of_driver(word: &str) -> bool
    ensures { result ≡ list_all is_driver_character word.now }
{
    word.as_bytes().iter().all(|byte| byte.is_ascii_alphanumeric()
        || *byte == b'_'
        || *byte == b'-')
}

/// 1 to 32 letters, digits, `_` and `-`. Boot's own name is none.
#[tactic(auto, unfolding(crate::specs::Names::is_driver_name))]
pub fn is_driver_name(word: &str) -> bool
    ensures { result ≡ is_driver_name word.now }
{
    !word.is_empty() && word.len() <= 32 && all_of_driver(word) && word != "boot"
}

// Each character is a lower-case letter, a digit or `_`.
fn all_of_variable(word: &str) -> bool
    ensures { result ≡ list_all is_variable_character word.now }
{
    word.as_bytes().iter().all(|byte| byte.is_ascii_lowercase()
        || byte.is_ascii_digit()
        || *byte == b'_')
}

/// A lower-case letter, and then lower-case letters, digits and `_`, 32 at most.
#[tactic(auto, unfolding(crate::specs::Names::is_variable))]
pub fn is_variable(word: &str) -> bool
    ensures { result ≡ is_variable word.now }
{
    let [first, ..] = word.as_bytes() else {
        return false;
    };
    first.is_ascii_lowercase() && word.len() <= 32 && all_of_variable(word)
}

// One of the characters is a blank.
fn has_blank(word: &str) -> bool
    ensures { result ≡ list_any is_blank word.now }
{
    word.as_bytes()
        .iter()
        .any(|byte| *byte == b' ' || *byte == b'\t')
}

/// One character or more, and no blank.
#[tactic(auto, unfolding(crate::specs::Words::is_word))]
pub fn is_word(word: &str) -> bool
    ensures { result ≡ is_word word.now }
{
    !word.is_empty() && !has_blank(word)
}
