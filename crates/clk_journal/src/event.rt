//! Events and their results as text.

ghost use Rattle.std.specs.Prelude.{◌≡◌, Some};
ghost use Rattle.clk_model.specs.Text.{event_words, spaced, turn_words};

use crate::call::CallText;
use crate::reply::ReplyText;
use crate::step::StepText;
use clk_base::{Event, Turn, ValidDesc};
use std::fmt;

/// An event, printed with the names of this description's clocks.
#[derive(Drop)]
pub(crate) struct EventText<'a> {
    pub(crate) desc: &'a ValidDesc,
    pub(crate) event: Event,
}

impl<'a> fmt::Display for EventText<'a> {
    ghost output = { λ text. Some (spaced (event_words text.desc.now.defs text.event)) };

    fn fmt<W: fmt::Write>(&self, f: &mut fmt::Formatter<W>) -> fmt::Result {
        let desc = self.desc;
        match self.event {
            Event::Enable(number) => write!(f, "enable {number}"),
            Event::Disable(number) => write!(f, "disable {number}"),
            Event::Running(number) => write!(f, "running {number}"),
            Event::Begin(what) => {
                let call = CallText { desc, what };
                write!(f, "begin {call}")
            }
            Event::Step(step, locked) => {
                let step = StepText { desc, step, locked };
                write!(f, "step {step}")
            }
        }
    }
}

/// What an event answers, printed with the names of this description's clocks.
#[derive(Drop)]
pub(crate) struct TurnText<'a> {
    pub(crate) desc: &'a ValidDesc,
    pub(crate) turn: Turn,
}

impl<'a> fmt::Display for TurnText<'a> {
    ghost output = { λ text. Some (spaced (turn_words text.desc.now.defs text.turn)) };

    fn fmt<W: fmt::Write>(&self, f: &mut fmt::Formatter<W>) -> fmt::Result {
        match self.turn {
            Turn::Going => write!(f, "going"),
            Turn::Done(reply) => {
                let text = ReplyText {
                    desc: self.desc,
                    reply,
                };
                write!(f, "{text}")
            }
        }
    }
}
