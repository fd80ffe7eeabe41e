//! Events as words tell them.

ghost use Rattle.std.specs.Prelude.{◌≡◌};
ghost use Rattle.clk_journal.specs.Words.{texts};
ghost use Rattle.clk_journal.specs.ReadEntries.{tier_event, other_event, verb_event, read_event};

use super::call::read_call;
use super::numbers::small;
use super::step::read_step;
use clk_base::{Event, ValidDesc};

// An event of the enable tier.
#[tactic(auto, unfolding(crate::specs::ReadEntries::tier_event))]
fn tier_event(verb: &str, number: u32) -> Option<Event>
    ensures { result ≡ tier_event verb.now number }
{
    match verb {
        "enable" => Some(Event::Enable(number)),
        "disable" => Some(Event::Disable(number)),
        "running" => Some(Event::Running(number)),
        _ => None,
    }
}

// An event that begins no call.
#[tactic(auto, unfolding(crate::specs::ReadEntries::other_event))]
fn other_event(verb: &str, words: &[&str]) -> Option<Event>
    ensures { result ≡ other_event verb.now (texts words.now) }
{
    match words {
        [word] => tier_event(verb, small(word)?),
        _ => None,
    }
}

// An event with this first word.
#[tactic(auto, unfolding(crate::specs::ReadEntries::verb_event))]
fn verb_event(
    desc: &ValidDesc,
    absent: bool,
    driver: u32,
    verb: &str,
    words: &[&str],
) -> Option<Event>
    ensures { result ≡ verb_event desc.now.defs absent driver verb.now (texts words.now) }
{
    match verb {
        "begin" => Some(Event::Begin(read_call(desc, absent, driver, words)?)),
        "step" => read_step(desc, words),
        _ => other_event(verb, words),
    }
}

/// An event of a driver.
#[tactic(auto, unfolding(crate::specs::ReadEntries::read_event))]
pub(super) fn read_event(
    desc: &ValidDesc,
    absent: bool,
    driver: u32,
    words: &[&str],
) -> Option<Event>
    ensures { result ≡ read_event desc.now.defs absent driver (texts words.now) }
{
    match words {
        [] => None,
        [verb, rest @ ..] => verb_event(desc, absent, driver, verb, rest),
    }
}
