//! Steps as words tell them.

ghost use Rattle.std.specs.Prelude.{◌≡◌};
ghost use Rattle.clk_journal.specs.Words.{texts};
ghost use Rattle.clk_journal.specs.ReadSteps.{clock_step, poll_answer, middle_step, pre_answer, late_kind, notice_kind, notice_step, short_step, longer_step, told_step, read_step};

use super::numbers::{large, small};
use clk_base::{ClockId, Event, Micro, Notice, ValidDesc};

// A step of one clock.
#[tactic(auto, unfolding(crate::specs::ReadSteps::clock_step))]
fn clock_step(verb: &str, clock: ClockId) -> Option<Micro>
    ensures { result ≡ clock_step verb.now clock }
{
    match verb {
        "raise" => Some(Micro::Raise(clock)),
        "fall" => Some(Micro::Fall(clock)),
        "hold-prepare" => Some(Micro::HoldPrepare(clock)),
        "hold-enable" => Some(Micro::HoldEnable(clock)),
        "drop-enable" => Some(Micro::DropEnable(clock)),
        "drop-prepare" => Some(Micro::DropPrepare(clock)),
        "lower" => Some(Micro::Lower(clock)),
        "visit" => Some(Micro::Visit(clock)),
        "register" => Some(Micro::Register(clock)),
        "settle" => Some(Micro::Settle(clock)),
        "close" => Some(Micro::Close(clock)),
        "unpower" => Some(Micro::Unpower(clock)),
        _ => None,
    }
}

// What a bank answered to a poll.
#[tactic(auto, unfolding(crate::specs::ReadSteps::poll_answer))]
fn poll_answer(word: &str) -> Option<bool>
    ensures { result ≡ poll_answer word.now }
{
    match word {
        "yes" => Some(true),
        "no" => Some(false),
        _ => None,
    }
}

// A step of a clock and another word.
#[tactic(auto, unfolding(crate::specs::ReadSteps::middle_step))]
fn middle_step(desc: &ValidDesc, verb: &str, clock: ClockId, word: &str) -> Option<Event>
    ensures { result ≡ middle_step desc.now.defs verb.now clock word.now }
{
    match verb {
        "poll" => {
            let yes = poll_answer(word)?;
            Some(Event::Step(Micro::Poll(clock), Some(yes)))
        }
        "relink" => {
            let parent = desc.find(word)?;
            Some(Event::Step(Micro::Relink(clock, parent), None))
        }
        "write-mux" => {
            let place = small(word)?;
            Some(Event::Step(Micro::WriteMux(clock, place), None))
        }
        _ => None,
    }
}

// What a notice before a change answers.
#[tactic(auto, unfolding(crate::specs::ReadSteps::pre_answer))]
fn pre_answer(word: &str) -> Option<Notice>
    ensures { result ≡ pre_answer word.now }
{
    match word {
        "accept" => Some(Notice::Pre(false)),
        "veto" => Some(Notice::Pre(true)),
        _ => None,
    }
}

// A kind of notice whose numbers are the last words.
#[tactic(auto, unfolding(crate::specs::ReadSteps::late_kind))]
fn late_kind(verb: &str) -> Option<Notice>
    ensures { result ≡ late_kind verb.now }
{
    match verb {
        "abort" => Some(Notice::Abort),
        "post" => Some(Notice::Post),
        _ => None,
    }
}

// A kind of notice, by its first word and those after its numbers.
#[tactic(auto, unfolding(crate::specs::ReadSteps::notice_kind))]
fn notice_kind(verb: &str, rest: &[&str]) -> Option<Notice>
    ensures { result ≡ notice_kind verb.now (texts rest.now) }
{
    match rest {
        [] => late_kind(verb),
        [word] => {
            if verb == "pre" {
                pre_answer(word)
            } else {
                None
            }
        }
        _ => None,
    }
}

// A notice of this kind about a clock.
#[tactic(auto, unfolding(crate::specs::ReadSteps::notice_step))]
fn notice_step(kind: Notice, clock: ClockId, id: &str, old: &str, new: &str) -> Option<Event>
    ensures { result ≡ notice_step kind clock id.now old.now new.now }
{
    let id = small(id)?;
    let old = large(old)?;
    let new = large(new)?;
    let notice = Micro::Notify {
        kind,
        clock,
        id,
        old,
        new,
    };
    Some(Event::Step(notice, None))
}

// A step of a clock that was found, or was not.
#[tactic(auto, unfolding(crate::specs::ReadSteps::short_step))]
fn short_step(verb: &str, clock: Option<ClockId>) -> Option<Event>
    ensures { result ≡ short_step verb.now clock }
{
    let step = clock_step(verb, clock?)?;
    Some(Event::Step(step, None))
}

// The same with another word.
#[tactic(auto, unfolding(crate::specs::ReadSteps::longer_step))]
fn longer_step(desc: &ValidDesc, verb: &str, word: &str, clock: Option<ClockId>) -> Option<Event>
    ensures { result ≡ longer_step desc.now.defs verb.now word.now clock }
{
    middle_step(desc, verb, clock?, word)
}

// A notice of a kind, if it is one, about a clock that was found, or was not.
#[tactic(auto, unfolding(crate::specs::ReadSteps::told_step))]
fn told_step(
    kind: Option<Notice>,
    clock: Option<ClockId>,
    id: &str,
    old: &str,
    new: &str,
) -> Option<Event>
    ensures { result ≡ told_step kind clock id.now old.now new.now }
{
    notice_step(kind?, clock?, id, old, new)
}

/// A step, with what the bank answered to a poll.
#[tactic(auto, unfolding(crate::specs::ReadSteps::read_step))]
pub(super) fn read_step(desc: &ValidDesc, words: &[&str]) -> Option<Event>
    ensures { result ≡ read_step desc.now.defs (texts words.now) }
{
    match words {
        [verb] => {
            if *verb == "end" {
                Some(Event::Step(Micro::End, None))
            } else {
                None
            }
        }
        [verb, name] => short_step(verb, desc.find(name)),
        [verb, name, word] => longer_step(desc, verb, word, desc.find(name)),
        [verb, name, id, old, new, rest @ ..] => {
            told_step(notice_kind(verb, rest), desc.find(name), id, old, new)
        }
        _ => None,
    }
}
