//! Events, replies and the entries of a journal.

use crate::call::{Micro, Sleeping};
use crate::clock::ClockId;
use crate::handle::Handle;

/// One critical section of the enable lock. The first three name a handle by its number.
#[derive(Clone, Copy, Debug, PartialEq, Eq)]
pub enum Event {
    Enable(u32),
    Disable(u32),
    Running(u32),
    Begin(Sleeping),
    /// A step, and for a poll the answer of the bank.
    Step(Micro, Option<bool>),
}

/// Why a call is refused, by Linux's names.
#[derive(Clone, Copy, Debug, PartialEq, Eq)]
pub enum Errno {
    EPERM,
    ENOENT,
    EBUSY,
    EEXIST,
    EINVAL,
    ENOSPC,
    ESHUTDOWN,
    ETIMEDOUT,
    EPROBE_DEFER,
}

/// The answer of a call. `Fine` is printed as `ok`.
#[derive(Clone, Copy, Debug, PartialEq, Eq)]
pub enum Reply {
    Fine,
    Warn,
    Yes,
    No,
    Handle(Handle),
    /// A rate in Hz.
    Rate(u64),
    Clock(Option<ClockId>),
    Refused(Errno),
}

/// What an event answers: the call goes on, or it is done.
#[derive(Clone, Copy, Debug, PartialEq, Eq)]
pub enum Turn {
    Going,
    Done(Reply),
}

/// An entry of a journal.
#[derive(Clone, Copy, Debug, PartialEq, Eq)]
pub struct Entry {
    pub driver: u32,
    pub event: Event,
    pub turn: Turn,
}
