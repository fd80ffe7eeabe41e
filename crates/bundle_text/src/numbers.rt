ghost use Rattle.std.specs.Prelude.{◌≡◌, ◌≤◌, IfSome};
ghost use Rattle.std.specs.Char.{is_ascii_digit, is_ascii_hexdigit};
ghost use Rattle.std.specs.List.{list_all};
ghost use Rattle.std.specs.Option.{option_map};
ghost use Rattle.bundle_text.specs.Numbers.{number_up_to, hexadecimal_up_to, behind_0x, written_up_to, number_within};

// Each character is a decimal digit.
fn all_digits(word: &str) -> bool
    ensures { result ≡ list_all is_ascii_digit word.now }
{
    word.as_bytes().iter().all(|byte| byte.is_ascii_digit())
}

/// The number that decimal digits write, where it is at most `most`. Leading zeros are allowed, a
/// sign is not.
pub fn number_up_to(most: u64, word: &str) -> Option<u64>
    ensures number { result ≡ number_up_to most word.now }
    ensures bound { IfSome result (λ n. n ≤ most) }
{
    if !all_digits(word) {
        return None;
    }
    let Ok(number) = word.parse::<u64>() else {
        return None;
    };
    if most < number {
        return None;
    }
    Some(number)
}

/// The number of 32 bits that decimal digits write, where it is at most `most`. Leading zeros are
/// allowed, a sign is not.
pub fn small_number_up_to(most: u32, word: &str) -> Option<u32>
    ensures number { result ≡ number_up_to most word.now }
    ensures bound { IfSome result (λ n. n ≤ most) }
{
    let number = number_up_to(u64::from(most), word)?;
    Some(number as u32)
}

// Each character is a hexadecimal digit, of either case.
fn all_hexadecimal(word: &[u8]) -> bool
    ensures { result ≡ list_all is_ascii_hexdigit word.now }
{
    word.iter().all(|byte| byte.is_ascii_hexdigit())
}

// The number that hexadecimal digits write, where it is at most `most`.
fn hexadecimal_up_to(most: u64, digits: &[u8]) -> Option<u64>
    ensures number { result ≡ hexadecimal_up_to most digits.now }
    ensures bound { IfSome result (λ n. n ≤ most) }
{
    if !all_hexadecimal(digits) {
        return None;
    }
    let Ok(text) = str::from_utf8(digits) else {
        return None;
    };
    let Ok(number) = u64::from_str_radix(text, 16) else {
        return None;
    };
    if number <= most {
        return Some(number);
    }
    None
}

// What stands behind `0x`, where a word begins so.
#[tactic(auto, unfolding(crate::specs::Numbers::behind_0x))]
fn behind_0x(word: &[u8]) -> Option<&[u8]>
    ensures { option_map (λ digits. digits.now) result ≡ behind_0x word.now }
{
    match word {
        [b'0', b'x', digits @ ..] => Some(digits),
        _ => None,
    }
}

// The number that a word writes, decimal or hexadecimal behind `0x`, where it is at most `most`.
#[tactic(auto, unfolding(crate::specs::Numbers::written_up_to))]
fn written_up_to(most: u64, word: &str) -> Option<u64>
    ensures number { result ≡ written_up_to most word.now }
    ensures bound { IfSome result (λ n. n ≤ most) }
{
    match behind_0x(word.as_bytes()) {
        Some(digits) => hexadecimal_up_to(most, digits),
        None => number_up_to(most, word),
    }
}

/// The number that a word writes, decimal or hexadecimal behind `0x`, where it lies from `least` to
/// `most`. Leading zeros are allowed, a sign is not.
#[tactic(auto, unfolding(crate::specs::Numbers::number_within))]
pub fn number_within(least: u64, most: u64, word: &str) -> Option<u64>
    ensures number { result ≡ number_within least most word.now }
    ensures least { IfSome result (λ n. least ≤ n) }
    ensures most { IfSome result (λ n. n ≤ most) }
{
    let number = written_up_to(most, word)?;
    if number < least {
        return None;
    }
    Some(number)
}

/// The number of 32 bits that a word writes, decimal or hexadecimal behind `0x`, where it lies from
/// `least` to `most`. Leading zeros are allowed, a sign is not.
pub fn small_number_within(least: u32, most: u32, word: &str) -> Option<u32>
    ensures number { result ≡ number_within least most word.now }
    ensures least { IfSome result (λ n. least ≤ n) }
    ensures most { IfSome result (λ n. n ≤ most) }
{
    let number = number_within(u64::from(least), u64::from(most), word)?;
    Some(number as u32)
}
