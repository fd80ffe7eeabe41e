//! Calls and the steps of calls that go on.

use crate::clock::ClockId;
use crate::handle::{Handle, Policy};

/// A call that runs under the prepare lock and may sleep.
#[derive(Clone, Copy, Debug, PartialEq, Eq)]
pub enum Sleeping {
    /// A handle of the clock that was found by its name, if one was.
    Get(Option<ClockId>),
    Put(Handle),
    Prepare(Handle),
    Unprepare(Handle),
    GetRate(Handle),
    /// The rate in Hz that a request for this rate would give.
    RoundRate(Handle, u64),
    SetRate(Handle, u64),
    /// A change of rate that also takes one exclusive hold of it.
    SetRateExclusive(Handle, u64),
    /// The least and the greatest rate in Hz that this handle allows.
    SetRange(Handle, u64, u64),
    SetParent(Handle, ClockId),
    GetParent(Handle),
    ExclusiveGet(Handle),
    ExclusivePut(Handle),
    /// A notifier by id, priority and policy.
    NotifierAdd(Handle, u32, i32, Policy),
    NotifierRemove(Handle, u32),
    /// The registration of a clock.
    Probe(ClockId),
    /// The sweep that closes what nobody uses.
    Sweep,
}

/// What a notice is about: a change to come with its answer (`true` is a veto), a change that was
/// called off, or a change that was made.
#[derive(Clone, Copy, Debug, PartialEq, Eq)]
pub enum Notice {
    Pre(bool),
    Abort,
    Post,
}

/// One step of a call that goes on.
#[derive(Clone, Copy, Debug, PartialEq, Eq)]
pub enum Micro {
    Notify {
        kind: Notice,
        clock: ClockId,
        id: u32,
        old: u64,
        new: u64,
    },
    Raise(ClockId),
    Poll(ClockId),
    Fall(ClockId),
    HoldPrepare(ClockId),
    HoldEnable(ClockId),
    /// The clock and its new parent.
    Relink(ClockId, ClockId),
    /// The mux and the place of its new parent.
    WriteMux(ClockId, u32),
    DropEnable(ClockId),
    DropPrepare(ClockId),
    Lower(ClockId),
    Visit(ClockId),
    Register(ClockId),
    Settle(ClockId),
    Close(ClockId),
    Unpower(ClockId),
    End,
}
