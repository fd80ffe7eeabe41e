//! Steps of calls as text.

ghost use Rattle.std.specs.Prelude.{◌≡◌, Some};
ghost use Rattle.clk_model.specs.Text.{notice_words, spaced, step_words};

use crate::names::name_of;
use clk_base::{ClockId, Micro, Notice, ValidDesc};
use std::fmt;

/// A step, with what the bank answered to a poll.
#[derive(Drop)]
pub(crate) struct StepText<'a> {
    pub(crate) desc: &'a ValidDesc,
    pub(crate) step: Micro,
    pub(crate) locked: Option<bool>,
}

impl<'a> fmt::Display for StepText<'a> {
    ghost output = { λ text. Some (spaced (step_words text.desc.now.defs text.step text.locked)) };

    fn fmt<W: fmt::Write>(&self, f: &mut fmt::Formatter<W>) -> fmt::Result {
        let desc = self.desc;
        match self.step {
            Micro::Notify {
                kind,
                clock,
                id,
                old,
                new,
            } => {
                let about = ChangeText {
                    desc,
                    clock,
                    id,
                    old,
                    new,
                };
                match kind {
                    Notice::Pre(true) => write!(f, "pre {about} veto"),
                    Notice::Pre(false) => write!(f, "pre {about} accept"),
                    Notice::Abort => write!(f, "abort {about}"),
                    Notice::Post => write!(f, "post {about}"),
                }
            }
            Micro::Poll(pll) => match self.locked {
                None => write!(f, "poll {}", name_of(desc, pll)),
                Some(true) => write!(f, "poll {} yes", name_of(desc, pll)),
                Some(false) => write!(f, "poll {} no", name_of(desc, pll)),
            },
            Micro::Relink(clock, parent) => {
                write!(
                    f,
                    "relink {} {}",
                    name_of(desc, clock),
                    name_of(desc, parent)
                )
            }
            Micro::WriteMux(mux, place) => write!(f, "write-mux {} {place}", name_of(desc, mux)),
            Micro::Raise(pll) => write!(f, "raise {}", name_of(desc, pll)),
            Micro::Fall(pll) => write!(f, "fall {}", name_of(desc, pll)),
            Micro::HoldPrepare(clock) => write!(f, "hold-prepare {}", name_of(desc, clock)),
            Micro::HoldEnable(clock) => write!(f, "hold-enable {}", name_of(desc, clock)),
            Micro::DropEnable(clock) => write!(f, "drop-enable {}", name_of(desc, clock)),
            Micro::DropPrepare(clock) => write!(f, "drop-prepare {}", name_of(desc, clock)),
            Micro::Lower(pll) => write!(f, "lower {}", name_of(desc, pll)),
            Micro::Visit(clock) => write!(f, "visit {}", name_of(desc, clock)),
            Micro::Register(clock) => write!(f, "register {}", name_of(desc, clock)),
            Micro::Settle(clock) => write!(f, "settle {}", name_of(desc, clock)),
            Micro::Close(gate) => write!(f, "close {}", name_of(desc, gate)),
            Micro::Unpower(pll) => write!(f, "unpower {}", name_of(desc, pll)),
            Micro::End => write!(f, "end"),
        }
    }
}

// What a notice says of a change of rate: the clock, the notifier, the old and the new rate.
#[derive(Drop)]
struct ChangeText<'a> {
    desc: &'a ValidDesc,
    clock: ClockId,
    id: u32,
    old: u64,
    new: u64,
}

impl<'a> fmt::Display for ChangeText<'a> {
    ghost output = { λ text. Some (spaced (notice_words text.desc.now.defs text.clock text.id text.old text.new)) };

    fn fmt<W: fmt::Write>(&self, f: &mut fmt::Formatter<W>) -> fmt::Result {
        let name = name_of(self.desc, self.clock);
        write!(f, "{name} {} {} {}", self.id, self.old, self.new)
    }
}
