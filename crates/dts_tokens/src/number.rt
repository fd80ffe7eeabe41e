//! Numbers as words spell them: decimal, hexadecimal behind `0x`, octal behind another `0`.

ghost use Rattle.std.specs.Prelude.{◌≡◌, ◌≤◌, ◌&&◌, nat_le, nat_lt, IfSome, Some, None, if◌then◌else◌};
ghost use Rattle.std.specs.Char.{is_digit};
ghost use Rattle.std.specs.List.{list_all};
ghost use Rattle.std.specs.Str.Parse.{digits_value};
ghost use Rattle.dts_tokens.specs.Numbers.{base_of, digits_of, is_number, value_of, number_up_to};

/// How a word spells a number: in which base, and by which digits.
#[derive(Clone, Copy)]
struct Spelling<'a> {
    base: u32,
    digits: &'a [u8],
}

// The base that the beginning of a word tells, and the digits behind it.
#[tactic(auto, unfolding(crate::specs::Numbers::base_of, crate::specs::Numbers::digits_of))]
fn spelled(word: &[u8]) -> Spelling<'_>
    ensures base { result.base ≡ base_of word.now }
    ensures known { (2 ≤ result.base) × (result.base ≤ 16) }
    ensures digits { result.digits.now ≡ digits_of word.now }
{
    match word {
        [b'0', b'x', digits @ ..] => Spelling { base: 16, digits },
        [b'0', ..] => Spelling {
            base: 8,
            digits: word,
        },
        _ => Spelling {
            base: 10,
            digits: word,
        },
    }
}

// Each is a digit in the base.
fn all_digits(base: u32, digits: &[u8]) -> bool
    requires least { 2 ≤ base }
    requires most { base ≤ 16 }
    ensures { result ≡ list_all (λ c. is_digit c base) digits.now }
{
    digits.iter().all(|byte| char::from(*byte).is_digit(base))
}

/// The word is a number: digits of its base, one at least.
#[tactic(auto, unfolding(crate::specs::Numbers::is_number))]
pub fn is_number(word: &[u8]) -> bool
    ensures { result ≡ is_number word.now }
{
    let spelling = spelled(word);
    !spelling.digits.is_empty() && all_digits(spelling.base, spelling.digits)
}

// The number that digits write, where each is a digit of the base and the number is at most
// `most`.
fn value_up_to(most: u64, base: u32, digits: &[u8]) -> Option<u64>
    requires least { 2 ≤ base }
    requires most { base ≤ 16 }
    ensures { result ≡ (if list_all (λ c. is_digit c base) digits.now && nat_le (digits_value base digits.now) most
        then Some (digits_value base digits.now) else None) }
{
    let mut value: u64 = 0;
    for byte in digits {
        let Some(digit) = char::from(*byte).to_digit(base) else {
            return None;
        };
        let next = u128::from(value) * u128::from(base) + u128::from(digit);
        if u128::from(most) < next {
            return None;
        }
        value = next as u64;
    }
    Some(value)
}

/// The number that a word spells, where it spells one of at most `most`.
#[tactic(auto, unfolding(crate::specs::Numbers::number_up_to, crate::specs::Numbers::is_number, crate::specs::Numbers::value_of))]
pub fn number_up_to(most: u64, word: &[u8]) -> Option<u64>
    ensures number { result ≡ number_up_to most word.now }
    ensures bound { IfSome result (λ n. n ≤ most) }
{
    let spelling = spelled(word);
    if spelling.digits.is_empty() {
        return None;
    }
    value_up_to(most, spelling.base, spelling.digits)
}

/// The word is a number above `most`.
#[tactic(auto, unfolding(crate::specs::Numbers::number_up_to))]
pub(crate) fn is_above(most: u64, word: &[u8]) -> bool
    ensures { result ≡ (is_number word.now && nat_lt most (value_of word.now)) }
{
    is_number(word) && number_up_to(most, word).is_none()
}
