//! Numbers as they are printed.

ghost use Rattle.std.specs.Prelude.{◌≡◌, ◌≤◌, ◌==◌, ◌&&◌, slice_index, nat_lt, length, IfSome};
ghost use Rattle.std.specs.Char.{is_ascii_digit};
ghost use Rattle.std.specs.List.{list_all};
ghost use Rattle.clk_journal.specs.ReadNumbers.{number, small, large, handle};

use clk_base::Handle;

// The word begins with the digit 0 and goes on.
fn has_leading_zero(word: &[u8]) -> bool
    ensures { result ≡ ((slice_index word.now 0 == 48) && nat_lt 1 (length word.now)) }
{
    match word {
        [b'0', _, ..] => true,
        _ => false,
    }
}

// Each character is a decimal digit.
fn all_digits(word: &str) -> bool
    ensures { result ≡ list_all is_ascii_digit word.now }
{
    word.as_bytes().iter().all(|byte| byte.is_ascii_digit())
}

/// The number up to a most that a word writes as it is printed.
pub(super) fn number(most: u64, word: &str) -> Option<u64>
    ensures number { result ≡ number most word.now }
    ensures bound { IfSome result (λ n. n ≤ most) }
{
    if has_leading_zero(word.as_bytes()) {
        return None;
    }
    if !all_digits(word) {
        return None;
    }
    let Ok(number) = word.parse::<u64>() else {
        return None;
    };
    if most < number {
        return None;
    }
    Some(number)
}

/// A number of 64 bits.
pub(super) fn large(word: &str) -> Option<u64>
    ensures { result ≡ large word.now }
{
    number(u64::MAX, word)
}

/// A number of 32 bits.
pub(super) fn small(word: &str) -> Option<u32>
    ensures { result ≡ small word.now }
{
    let number = number(u32::MAX as u64, word)?;
    Some(number as u32)
}

/// A handle of a driver by its number.
pub(super) fn handle(driver: u32, word: &str) -> Option<Handle>
    ensures { result ≡ handle driver word.now }
{
    let number = small(word)?;
    Some(Handle {
        number,
        slot: 0,
        driver,
    })
}
