//! Lines of `%driver`, each by itself.

ghost use Rattle.std.specs.Prelude.{◌≡◌};
ghost use Rattle.bundle_text.specs.Words.{texts};
ghost use Rattle.drv_scripts.specs.CommandLines.{plain_line, get_line, acts_if, rated_of, rated_line, removal_of, rate_of, id_of, range_act, range_line, reparent_line, notify_act, notify_said, notify_line, unnotify_line, probe_line, sweep_line, verb_line, line_if, command_line};
ghost use Rattle.drv_scripts.specs.Said.{shown_command};

use crate::policy_line::{policy_line, priority_of};
use crate::verb::{RateVerb, Verb, verb_of};
use bundle_text::{Reason, is_variable, number_within, small_number_within};
use clk_base::{Act, Policy};

/// What a command line says.
#[derive(Clone, Copy)]
pub(crate) enum CommandLine<'a> {
    /// A handle of the clock of this name, into a variable.
    Gets { var: &'a str, name: &'a str },
    /// An act on the handle that a variable holds.
    Acts { act: Act, var: &'a str },
    /// The clock of this name as the parent of the one whose handle a variable holds.
    Moves { var: &'a str, name: &'a str },
    /// The clock of this name is registered.
    Registers { name: &'a str },
    /// Unused clocks are switched off.
    Sweeps,
}

// What words say, or what is wrong with them.
type Said<'a> = Result<CommandLine<'a>, Reason>;

// What stands after the first word of an act that needs a variable alone.
#[tactic(auto, unfolding(crate::specs::CommandLines::plain_line))]
fn plain_line<'a>(act: Act, rest: &[&'a str]) -> Said<'a>
    ensures { shown_command result ≡ plain_line act (texts rest.now) }
{
    match rest {
        [var] => {
            if is_variable(var) {
                Ok(CommandLine::Acts { act, var })
            } else {
                Err(Reason::BadWords)
            }
        }
        _ => Err(Reason::BadWords),
    }
}

// What stands after `get`.
#[tactic(auto, unfolding(crate::specs::CommandLines::get_line))]
fn get_line<'a>(rest: &[&'a str]) -> Said<'a>
    ensures { shown_command result ≡ get_line (texts rest.now) }
{
    match rest {
        [var, name] => {
            if is_variable(var) {
                Ok(CommandLine::Gets { var, name })
            } else {
                Err(Reason::BadWords)
            }
        }
        _ => Err(Reason::BadWords),
    }
}

// An act on a variable, if its numbers could be read.
#[tactic(auto, unfolding(crate::specs::CommandLines::acts_if))]
fn acts_if<'a>(var: &'a str, act: Option<Act>) -> Said<'a>
    ensures { shown_command result ≡ acts_if var.now act }
{
    match act {
        None => Err(Reason::BadNumber),
        Some(act) => Ok(CommandLine::Acts { act, var }),
    }
}

// The rate that a word writes.
fn rate_of(word: &str) -> Option<u64>
    ensures { result ≡ rate_of word.now }
{
    number_within(0, u64::MAX, word)
}

// The identifier that a word writes.
fn id_of(word: &str) -> Option<u32>
    ensures { result ≡ id_of word.now }
{
    small_number_within(0, u32::MAX, word)
}

// The act of one of these with the rate that a word writes.
fn rated_of(verb: RateVerb, word: &str) -> Option<Act>
    ensures { result ≡ rated_of verb word.now }
{
    let rate = rate_of(word)?;
    Some(verb.act(rate))
}

// What stands after `round`, `set` and `setx`.
#[tactic(auto, unfolding(crate::specs::CommandLines::rated_line))]
fn rated_line<'a>(verb: RateVerb, rest: &[&'a str]) -> Said<'a>
    ensures { shown_command result ≡ rated_line verb (texts rest.now) }
{
    match rest {
        [var, rate] => {
            if !is_variable(var) {
                return Err(Reason::BadWords);
            }
            acts_if(var, rated_of(verb, rate))
        }
        _ => Err(Reason::BadWords),
    }
}

// The act of `range` with two rates, if both are numbers.
#[tactic(auto, unfolding(crate::specs::CommandLines::range_act))]
fn range_act(least: Option<u64>, most: Option<u64>) -> Option<Act>
    ensures { result ≡ range_act least most }
{
    match (least, most) {
        (Some(least), Some(most)) => Some(Act::SetRange(least, most)),
        _ => None,
    }
}

// What stands after `range`.
#[tactic(auto, unfolding(crate::specs::CommandLines::range_line))]
fn range_line<'a>(rest: &[&'a str]) -> Said<'a>
    ensures { shown_command result ≡ range_line (texts rest.now) }
{
    match rest {
        [var, least, most] => {
            if !is_variable(var) {
                return Err(Reason::BadWords);
            }
            acts_if(var, range_act(rate_of(least), rate_of(most)))
        }
        _ => Err(Reason::BadWords),
    }
}

// What stands after `reparent`.
#[tactic(auto, unfolding(crate::specs::CommandLines::reparent_line))]
fn reparent_line<'a>(rest: &[&'a str]) -> Said<'a>
    ensures { shown_command result ≡ reparent_line (texts rest.now) }
{
    match rest {
        [var, name] => {
            if is_variable(var) {
                Ok(CommandLine::Moves { var, name })
            } else {
                Err(Reason::BadWords)
            }
        }
        _ => Err(Reason::BadWords),
    }
}

// The act of `notify` with this identifier, priority and policy, if both are numbers.
#[tactic(auto, unfolding(crate::specs::CommandLines::notify_act))]
fn notify_act(id: Option<u32>, priority: Option<i32>, policy: Policy) -> Option<Act>
    ensures { result ≡ notify_act id priority policy }
{
    match (id, priority) {
        (Some(id), Some(priority)) => Some(Act::NotifierAdd(id, priority, policy)),
        _ => None,
    }
}

// A notifier with a policy that was read or not.
#[tactic(auto, unfolding(crate::specs::CommandLines::notify_said))]
fn notify_said<'a>(
    var: &'a str,
    id: &str,
    priority: &str,
    policy: Result<Policy, Reason>,
) -> Said<'a>
    ensures { shown_command result ≡ notify_said var.now id.now priority.now policy }
{
    match policy {
        Err(reason) => Err(reason),
        Ok(policy) => acts_if(var, notify_act(id_of(id), priority_of(priority), policy)),
    }
}

// What stands after `notify`.
#[tactic(auto, unfolding(crate::specs::CommandLines::notify_line))]
fn notify_line<'a>(rest: &[&'a str]) -> Said<'a>
    ensures { shown_command result ≡ notify_line (texts rest.now) }
{
    match rest {
        [var, id, priority, policy @ ..] => {
            if !is_variable(var) {
                return Err(Reason::BadWords);
            }
            notify_said(var, id, priority, policy_line(policy))
        }
        _ => Err(Reason::BadWords),
    }
}

// The act of `unnotify` with the identifier that a word writes.
fn removal_of(word: &str) -> Option<Act>
    ensures { result ≡ removal_of word.now }
{
    let id = id_of(word)?;
    Some(Act::NotifierRemove(id))
}

// What stands after `unnotify`.
#[tactic(auto, unfolding(crate::specs::CommandLines::unnotify_line))]
fn unnotify_line<'a>(rest: &[&'a str]) -> Said<'a>
    ensures { shown_command result ≡ unnotify_line (texts rest.now) }
{
    match rest {
        [var, id] => {
            if !is_variable(var) {
                return Err(Reason::BadWords);
            }
            acts_if(var, removal_of(id))
        }
        _ => Err(Reason::BadWords),
    }
}

// What stands after `probe`.
#[tactic(auto, unfolding(crate::specs::CommandLines::probe_line))]
fn probe_line<'a>(rest: &[&'a str]) -> Said<'a>
    ensures { shown_command result ≡ probe_line (texts rest.now) }
{
    match rest {
        [name] => Ok(CommandLine::Registers { name }),
        _ => Err(Reason::BadWords),
    }
}

// What stands after `sweep`.
#[tactic(auto, unfolding(crate::specs::CommandLines::sweep_line))]
fn sweep_line<'a>(rest: &[&'a str]) -> Said<'a>
    ensures { shown_command result ≡ sweep_line (texts rest.now) }
{
    match rest {
        [] => Ok(CommandLine::Sweeps),
        _ => Err(Reason::BadWords),
    }
}

// What a verb says with the words after it.
#[tactic(auto, unfolding(crate::specs::CommandLines::verb_line))]
fn verb_line<'a>(verb: Verb, rest: &[&'a str]) -> Said<'a>
    ensures { shown_command result ≡ verb_line verb (texts rest.now) }
{
    match verb {
        Verb::Acts(act) => plain_line(act, rest),
        Verb::Get => get_line(rest),
        Verb::Rated(rated) => rated_line(rated, rest),
        Verb::Range => range_line(rest),
        Verb::Reparent => reparent_line(rest),
        Verb::Notify => notify_line(rest),
        Verb::Unnotify => unnotify_line(rest),
        Verb::Probe => probe_line(rest),
        Verb::Sweep => sweep_line(rest),
    }
}

// What a verb says with the words after it, if the first word is one.
#[tactic(auto, unfolding(crate::specs::CommandLines::line_if))]
fn line_if<'a>(verb: Option<Verb>, rest: &[&'a str]) -> Said<'a>
    ensures { shown_command result ≡ line_if verb (texts rest.now) }
{
    match verb {
        Some(verb) => verb_line(verb, rest),
        None => Err(Reason::UnknownCommand),
    }
}

/// What the words of a command line say, or the first thing that is wrong with them.
#[tactic(auto, unfolding(crate::specs::CommandLines::command_line))]
pub(crate) fn command_line<'a>(words: &[&'a str]) -> Said<'a>
    ensures { shown_command result ≡ command_line (texts words.now) }
{
    match words {
        [word, rest @ ..] => line_if(verb_of(word), rest),
        [] => Err(Reason::UnknownCommand),
    }
}
