//! Calls as words tell them.

ghost use Rattle.std.specs.Prelude.{◌≡◌};
ghost use Rattle.clk_journal.specs.Words.{texts};
ghost use Rattle.clk_journal.specs.ReadCalls.{handle_call, named_get, get_call, short_call, rated_call, middle_call, read_call};

use super::notifier::long_call;
use super::numbers::{handle, large, small};
use clk_base::{ClockId, Handle, Sleeping, ValidDesc};

// A call of a handle alone.
#[tactic(auto, unfolding(crate::specs::ReadCalls::handle_call))]
fn handle_call(verb: &str, handle: Handle) -> Option<Sleeping>
    ensures { result ≡ handle_call verb.now handle }
{
    match verb {
        "put" => Some(Sleeping::Put(handle)),
        "prepare" => Some(Sleeping::Prepare(handle)),
        "unprepare" => Some(Sleeping::Unprepare(handle)),
        "rate" => Some(Sleeping::GetRate(handle)),
        "parent" => Some(Sleeping::GetParent(handle)),
        "lock" => Some(Sleeping::ExclusiveGet(handle)),
        "unlock" => Some(Sleeping::ExclusivePut(handle)),
        _ => None,
    }
}

// A get of a name, by the clock that has it.
#[tactic(auto, unfolding(crate::specs::ReadCalls::named_get))]
fn named_get(word: &str, clock: Option<ClockId>) -> Option<Sleeping>
    ensures { result ≡ named_get word.now clock }
{
    match clock {
        Some(clock) => Some(Sleeping::Get(Some(clock))),
        None => {
            if word == "-" {
                Some(Sleeping::Get(None))
            } else {
                None
            }
        }
    }
}

// A get of a name.
#[tactic(auto, unfolding(crate::specs::ReadCalls::get_call))]
fn get_call(desc: &ValidDesc, absent: bool, word: &str) -> Option<Sleeping>
    ensures { result ≡ get_call desc.now.defs absent word.now }
{
    if absent && word == "-" {
        return Some(Sleeping::Get(None));
    }
    named_get(word, desc.find(word))
}

// A call of two words.
#[tactic(auto, unfolding(crate::specs::ReadCalls::short_call))]
fn short_call(
    desc: &ValidDesc,
    absent: bool,
    driver: u32,
    verb: &str,
    word: &str,
) -> Option<Sleeping>
    ensures { result ≡ short_call desc.now.defs absent driver verb.now word.now }
{
    match verb {
        "get" => get_call(desc, absent, word),
        "probe" => Some(Sleeping::Probe(desc.find(word)?)),
        _ => handle_call(verb, handle(driver, word)?),
    }
}

// A call with a rate.
#[tactic(auto, unfolding(crate::specs::ReadCalls::rated_call))]
fn rated_call(verb: &str, handle: Handle, rate: u64) -> Option<Sleeping>
    ensures { result ≡ rated_call verb.now handle rate }
{
    match verb {
        "round" => Some(Sleeping::RoundRate(handle, rate)),
        "set" => Some(Sleeping::SetRate(handle, rate)),
        "setx" => Some(Sleeping::SetRateExclusive(handle, rate)),
        _ => None,
    }
}

// A call of three words, of a handle.
#[tactic(auto, unfolding(crate::specs::ReadCalls::middle_call))]
fn middle_call(desc: &ValidDesc, verb: &str, handle: Handle, word: &str) -> Option<Sleeping>
    ensures { result ≡ middle_call desc.now.defs verb.now handle word.now }
{
    match verb {
        "reparent" => Some(Sleeping::SetParent(handle, desc.find(word)?)),
        "unnotify" => Some(Sleeping::NotifierRemove(handle, small(word)?)),
        _ => rated_call(verb, handle, large(word)?),
    }
}

/// A call of a driver.
#[tactic(auto, unfolding(crate::specs::ReadCalls::read_call))]
pub(super) fn read_call(
    desc: &ValidDesc,
    absent: bool,
    driver: u32,
    words: &[&str],
) -> Option<Sleeping>
    ensures { result ≡ read_call desc.now.defs absent driver (texts words.now) }
{
    match words {
        [verb] => {
            if *verb == "sweep" {
                Some(Sleeping::Sweep)
            } else {
                None
            }
        }
        [verb, word] => short_call(desc, absent, driver, verb, word),
        [verb, word, more] => middle_call(desc, verb, handle(driver, word)?, more),
        [verb, word, one, other, rest @ ..] => {
            long_call(verb, handle(driver, word)?, one, other, rest)
        }
        [] => None,
    }
}
