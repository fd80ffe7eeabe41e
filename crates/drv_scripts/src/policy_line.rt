//! The priority and the policy of a notifier, as words write them.

ghost use Rattle.std.specs.Prelude.{◌≡◌};
ghost use Rattle.bundle_text.specs.Words.{texts};
ghost use Rattle.drv_scripts.specs.CommandLines.{negative, positive, priority_of, veto_above, veto_below, policy_if, bound_policy, plain_policy, policy_line};

use bundle_text::{Reason, number_up_to, number_within};
use clk_base::Policy;

// The most below and above 0.
const MOST_BELOW: u64 = 2_147_483_648;

const MOST_ABOVE: u64 = 2_147_483_647;

// The number below 0 or 0 that decimal digits behind a minus sign write.
fn negative(digits: &[u8]) -> Option<i32>
    ensures { result ≡ negative digits.now }
{
    let Ok(digits) = str::from_utf8(digits) else {
        return None;
    };
    let number = number_up_to(MOST_BELOW, digits)?;
    Some((-(number as i64)) as i32)
}

// The number from 0 up that decimal digits write.
fn positive(word: &str) -> Option<i32>
    ensures { result ≡ positive word.now }
{
    let number = number_up_to(MOST_ABOVE, word)?;
    Some(number as i32)
}

/// The number that decimal digits write, behind a minus sign or none.
#[tactic(auto, unfolding(crate::specs::CommandLines::priority_of))]
pub(crate) fn priority_of(word: &str) -> Option<i32>
    ensures { result ≡ priority_of word.now }
{
    match word.as_bytes() {
        [b'-', digits @ ..] => negative(digits),
        _ => positive(word),
    }
}

// A policy, where its rate is a number.
#[tactic(auto, unfolding(crate::specs::CommandLines::policy_if))]
fn policy_if(policy: Option<Policy>) -> Result<Policy, Reason>
    ensures { result ≡ policy_if policy }
{
    match policy {
        Some(policy) => Ok(policy),
        None => Err(Reason::BadNumber),
    }
}

// A veto above a rate, where the word is one.
fn veto_above(rate: &str) -> Option<Policy>
    ensures { result ≡ veto_above rate.now }
{
    let rate = number_within(0, u64::MAX, rate)?;
    Some(Policy::VetoAbove(rate))
}

// A veto below a rate, where the word is one.
fn veto_below(rate: &str) -> Option<Policy>
    ensures { result ≡ veto_below rate.now }
{
    let rate = number_within(0, u64::MAX, rate)?;
    Some(Policy::VetoBelow(rate))
}

// A policy with a rate.
#[tactic(auto, unfolding(crate::specs::CommandLines::bound_policy))]
fn bound_policy(word: &str, rate: &str) -> Result<Policy, Reason>
    ensures { result ≡ bound_policy word.now rate.now }
{
    match word {
        "above" => policy_if(veto_above(rate)),
        "below" => policy_if(veto_below(rate)),
        _ => Err(Reason::BadWords),
    }
}

// A policy without a rate.
#[tactic(auto, unfolding(crate::specs::CommandLines::plain_policy))]
fn plain_policy(word: &str) -> Result<Policy, Reason>
    ensures { result ≡ plain_policy word.now }
{
    match word {
        "accept" => Ok(Policy::Accept),
        "veto" => Ok(Policy::VetoAll),
        _ => Err(Reason::BadWords),
    }
}

/// A policy: `accept`, `veto`, `above R` or `below R`.
#[tactic(auto, unfolding(crate::specs::CommandLines::policy_line))]
pub(crate) fn policy_line(words: &[&str]) -> Result<Policy, Reason>
    ensures { result ≡ policy_line (texts words.now) }
{
    match words {
        [word] => plain_policy(word),
        [word, rate] => bound_policy(word, rate),
        _ => Err(Reason::BadWords),
    }
}
