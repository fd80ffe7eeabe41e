//! Notifiers and ranges as words tell them.

ghost use Rattle.std.specs.Prelude.{◌≡◌, is_some, option_and_then};
ghost use Rattle.clk_journal.specs.Words.{texts};
ghost use Rattle.clk_journal.specs.ReadNumbers.{minus, priority};
ghost use Rattle.clk_journal.specs.ReadCalls.{plain_policy, bound_policy, read_policy, range_call, notify_call, long_call};

use super::numbers::{large, number, small};
use clk_base::{Handle, Policy, Sleeping};

// The largest number of 32 bits with a sign.
const LARGEST: u64 = i32::MAX as u64;

// The number is there and isn't 0.
fn is_some_size(number: Option<u64>) -> bool
    ensures { result ≡ is_some (option_and_then minus number) }
{
    match number {
        Some(size) => size != 0,
        None => false,
    }
}

// The word writes a priority as it is printed.
fn is_priority(word: &str) -> bool
    ensures { result ≡ is_some (priority word.now) }
{
    match word.strip_prefix('-') {
        Some(digits) => is_some_size(number(LARGEST + 1, digits)),
        None => number(LARGEST, word).is_some(),
    }
}

// The priority that a word writes as it is printed.
fn priority(word: &str) -> Option<i32>
    ensures { result ≡ priority word.now }
{
    if !is_priority(word) {
        return None;
    }
    let Ok(number) = word.parse::<i32>() else {
        return None;
    };
    Some(number)
}

// A policy without a rate.
#[tactic(auto, unfolding(crate::specs::ReadCalls::plain_policy))]
fn plain_policy(word: &str) -> Option<Policy>
    ensures { result ≡ plain_policy word.now }
{
    match word {
        "accept" => Some(Policy::Accept),
        "veto" => Some(Policy::VetoAll),
        _ => None,
    }
}

// A policy with a rate.
#[tactic(auto, unfolding(crate::specs::ReadCalls::bound_policy))]
fn bound_policy(word: &str, rate: u64) -> Option<Policy>
    ensures { result ≡ bound_policy word.now rate }
{
    match word {
        "above" => Some(Policy::VetoAbove(rate)),
        "below" => Some(Policy::VetoBelow(rate)),
        _ => None,
    }
}

// A policy.
#[tactic(auto, unfolding(crate::specs::ReadCalls::read_policy))]
fn read_policy(words: &[&str]) -> Option<Policy>
    ensures { result ≡ read_policy (texts words.now) }
{
    match words {
        [word] => plain_policy(word),
        [word, rate] => bound_policy(word, large(rate)?),
        _ => None,
    }
}

// A range of a handle.
#[tactic(auto, unfolding(crate::specs::ReadCalls::range_call))]
fn range_call(handle: Handle, least: &str, most: &str) -> Option<Sleeping>
    ensures { result ≡ range_call handle least.now most.now }
{
    let least = large(least)?;
    let most = large(most)?;
    Some(Sleeping::SetRange(handle, least, most))
}

// A notifier with a policy that was read, or was not.
#[tactic(auto, unfolding(crate::specs::ReadCalls::notify_call))]
fn notify_call(handle: Handle, id: &str, rank: &str, policy: Option<Policy>) -> Option<Sleeping>
    ensures { result ≡ notify_call handle id.now rank.now policy }
{
    let policy = policy?;
    let id = small(id)?;
    let rank = priority(rank)?;
    Some(Sleeping::NotifierAdd(handle, id, rank, policy))
}

/// A call of four words or more.
#[tactic(auto, unfolding(crate::specs::ReadCalls::long_call))]
pub(super) fn long_call(
    verb: &str,
    handle: Handle,
    one: &str,
    other: &str,
    rest: &[&str],
) -> Option<Sleeping>
    ensures { result ≡ long_call verb.now handle one.now other.now (texts rest.now) }
{
    match rest {
        [] => {
            if verb == "range" {
                range_call(handle, one, other)
            } else {
                None
            }
        }
        [_, ..] => {
            if verb == "notify" {
                notify_call(handle, one, other, read_policy(rest))
            } else {
                None
            }
        }
    }
}
