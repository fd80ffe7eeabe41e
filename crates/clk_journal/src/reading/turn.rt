//! Turns as words tell them.

ghost use Rattle.std.specs.Prelude.{◌≡◌};
ghost use Rattle.clk_journal.specs.Words.{texts};
ghost use Rattle.clk_journal.specs.ReadEntries.{read_errno, plain_turn, named_reply, told_reply_of, read_turn};
ghost use Rattle.clk_journal.specs.Told.{is_absent};

use super::numbers::{handle, large};
use clk_base::{ClockId, Errno, Reply, Turn, ValidDesc};

// A refusal.
#[tactic(auto, unfolding(crate::specs::ReadEntries::read_errno))]
fn read_errno(word: &str) -> Option<Errno>
    ensures { result ≡ read_errno word.now }
{
    match word {
        "EPERM" => Some(Errno::EPERM),
        "ENOENT" => Some(Errno::ENOENT),
        "EBUSY" => Some(Errno::EBUSY),
        "EEXIST" => Some(Errno::EEXIST),
        "EINVAL" => Some(Errno::EINVAL),
        "ENOSPC" => Some(Errno::ENOSPC),
        "ESHUTDOWN" => Some(Errno::ESHUTDOWN),
        "ETIMEDOUT" => Some(Errno::ETIMEDOUT),
        "EPROBE_DEFER" => Some(Errno::EPROBE_DEFER),
        _ => None,
    }
}

// A turn of one word.
#[tactic(auto, unfolding(crate::specs::ReadEntries::plain_turn))]
fn plain_turn(word: &str) -> Option<Turn>
    ensures { result ≡ plain_turn word.now }
{
    match word {
        "going" => Some(Turn::Going),
        "ok" => Some(Turn::Done(Reply::Fine)),
        "warn" => Some(Turn::Done(Reply::Warn)),
        "yes" => Some(Turn::Done(Reply::Yes)),
        "no" => Some(Turn::Done(Reply::No)),
        _ => None,
    }
}

// A clock that answers a call, by the clock that has the name.
#[tactic(auto, unfolding(crate::specs::ReadEntries::named_reply))]
fn named_reply(word: &str, clock: Option<ClockId>) -> Option<Reply>
    ensures { result ≡ named_reply word.now clock }
{
    match clock {
        Some(clock) => Some(Reply::Clock(Some(clock))),
        None => {
            if word == "-" {
                Some(Reply::Clock(None))
            } else {
                None
            }
        }
    }
}

// A reply of two words.
#[tactic(auto, unfolding(crate::specs::ReadEntries::told_reply_of))]
fn told_reply(desc: &ValidDesc, driver: u32, verb: &str, word: &str) -> Option<Reply>
    ensures { result ≡ told_reply_of desc.now.defs driver verb.now word.now }
{
    match verb {
        "handle" => Some(Reply::Handle(handle(driver, word)?)),
        "rate" => Some(Reply::Rate(large(word)?)),
        "clock" => named_reply(word, desc.find(word)),
        "err" => Some(Reply::Refused(read_errno(word)?)),
        _ => None,
    }
}

/// A turn of a driver.
#[tactic(auto, unfolding(crate::specs::ReadEntries::read_turn))]
pub(super) fn read_turn(desc: &ValidDesc, driver: u32, words: &[&str]) -> Option<Turn>
    ensures { result ≡ read_turn desc.now.defs driver (texts words.now) }
{
    match words {
        [word] => plain_turn(word),
        [verb, word] => Some(Turn::Done(told_reply(desc, driver, verb, word)?)),
        _ => None,
    }
}

/// The turn says that there is no such clock.
pub(super) fn is_absent(turn: &Turn) -> bool
    ensures { result ≡ is_absent turn.now }
{
    matches!(turn, Turn::Done(Reply::Refused(Errno::ENOENT)))
}
