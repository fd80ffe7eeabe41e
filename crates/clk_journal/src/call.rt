//! Calls as text.

ghost use Rattle.std.specs.Prelude.{◌≡◌, Some};
ghost use Rattle.clk_model.specs.Text.{call_words, policy_words, spaced};

use crate::names::{clock_word, name_of};
use clk_base::{Policy, Sleeping, ValidDesc};
use std::fmt;

/// The command that begins a call, with the handle's number for the variable.
#[derive(Drop)]
pub(crate) struct CallText<'a> {
    pub(crate) desc: &'a ValidDesc,
    pub(crate) what: Sleeping,
}

impl<'a> fmt::Display for CallText<'a> {
    ghost output = { λ text. Some (spaced (call_words text.desc.now.defs text.what)) };

    fn fmt<W: fmt::Write>(&self, f: &mut fmt::Formatter<W>) -> fmt::Result {
        match self.what {
            Sleeping::Get(found) => write!(f, "get {}", clock_word(self.desc, found)),
            Sleeping::Put(h) => write!(f, "put {}", h.number),
            Sleeping::Prepare(h) => write!(f, "prepare {}", h.number),
            Sleeping::Unprepare(h) => write!(f, "unprepare {}", h.number),
            Sleeping::GetRate(h) => write!(f, "rate {}", h.number),
            Sleeping::RoundRate(h, rate) => write!(f, "round {} {rate}", h.number),
            Sleeping::SetRate(h, rate) => write!(f, "set {} {rate}", h.number),
            Sleeping::SetRateExclusive(h, rate) => write!(f, "setx {} {rate}", h.number),
            Sleeping::SetRange(h, min, max) => write!(f, "range {} {min} {max}", h.number),
            Sleeping::SetParent(h, parent) => {
                write!(f, "reparent {} {}", h.number, name_of(self.desc, parent))
            }
            Sleeping::GetParent(h) => write!(f, "parent {}", h.number),
            Sleeping::ExclusiveGet(h) => write!(f, "lock {}", h.number),
            Sleeping::ExclusivePut(h) => write!(f, "unlock {}", h.number),
            Sleeping::NotifierAdd(h, id, priority, policy) => {
                let policy = PolicyText(policy);
                write!(f, "notify {} {id} {priority} {policy}", h.number)
            }
            Sleeping::NotifierRemove(h, id) => write!(f, "unnotify {} {id}", h.number),
            Sleeping::Probe(clock) => write!(f, "probe {}", name_of(self.desc, clock)),
            Sleeping::Sweep => write!(f, "sweep"),
        }
    }
}

// What a notifier answers.
#[derive(Drop)]
struct PolicyText(Policy);

impl fmt::Display for PolicyText {
    ghost output = { λ text. Some (spaced (policy_words text.0)) };

    fn fmt<W: fmt::Write>(&self, f: &mut fmt::Formatter<W>) -> fmt::Result {
        match self.0 {
            Policy::Accept => write!(f, "accept"),
            Policy::VetoAbove(rate) => write!(f, "above {rate}"),
            Policy::VetoBelow(rate) => write!(f, "below {rate}"),
            Policy::VetoAll => write!(f, "veto"),
        }
    }
}
