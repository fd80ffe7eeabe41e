//! Replies as text.

ghost use Rattle.std.specs.Prelude.{◌≡◌, Some};
ghost use Rattle.clk_model.specs.Text.{errno_name, reply_text};

use crate::names::clock_word;
use clk_base::{Errno, Reply, ValidDesc};
use std::fmt;

/// A reply, printed with the names of this description's clocks.
#[derive(Drop)]
pub(crate) struct ReplyText<'a> {
    pub(crate) desc: &'a ValidDesc,
    pub(crate) reply: Reply,
}

impl<'a> fmt::Display for ReplyText<'a> {
    ghost output = { λ text. Some (reply_text text.desc.now.defs text.reply) };

    fn fmt<W: fmt::Write>(&self, f: &mut fmt::Formatter<W>) -> fmt::Result {
        match self.reply {
            Reply::Fine => write!(f, "ok"),
            Reply::Warn => write!(f, "warn"),
            Reply::Yes => write!(f, "yes"),
            Reply::No => write!(f, "no"),
            Reply::Handle(handle) => {
                let number = handle.number;
                write!(f, "handle {number}")
            }
            Reply::Rate(rate) => write!(f, "rate {rate}"),
            Reply::Clock(clock) => {
                let name = clock_word(self.desc, clock);
                write!(f, "clock {name}")
            }
            Reply::Refused(errno) => {
                let name = errno_name(errno);
                write!(f, "err {name}")
            }
        }
    }
}

// The name that Linux gives to a refusal.
fn errno_name(errno: Errno) -> &'static str
    ensures { result.now ≡ errno_name errno }
{
    match errno {
        Errno::EPERM => "EPERM",
        Errno::ENOENT => "ENOENT",
        Errno::EBUSY => "EBUSY",
        Errno::EEXIST => "EEXIST",
        Errno::EINVAL => "EINVAL",
        Errno::ENOSPC => "ENOSPC",
        Errno::ESHUTDOWN => "ESHUTDOWN",
        Errno::ETIMEDOUT => "ETIMEDOUT",
        Errno::EPROBE_DEFER => "EPROBE_DEFER",
    }
}
