//! The commands of a driver's script, and their answers.

use crate::clock::ClockId;
use crate::event::Reply;
use crate::handle::Policy;

/// What a command asks for. Its handle is the one that its variable holds when it runs.
#[derive(Clone, Copy, Debug, PartialEq, Eq)]
pub enum Act {
    Get(Option<ClockId>),
    Put,
    Prepare,
    Unprepare,
    Enable,
    Disable,
    Running,
    GetRate,
    RoundRate(u64),
    SetRate(u64),
    SetRateExclusive(u64),
    SetRange(u64, u64),
    SetParent(ClockId),
    GetParent,
    ExclusiveGet,
    ExclusivePut,
    NotifierAdd(u32, i32, Policy),
    NotifierRemove(u32),
    Probe(ClockId),
    Sweep,
}

/// A command: the line that it stands on, the variable that it uses, if any, and what it asks for.
///
/// The variables of a driver are numbered from 0 in the order of their first `get`.
#[derive(Clone, Copy, Debug, PartialEq, Eq)]
pub struct Command {
    pub line: u32,
    pub var: Option<u32>,
    pub act: Act,
}

/// What is printed for a command: the reply of its call, or that it was skipped.
#[derive(Clone, Copy, Debug, PartialEq, Eq)]
pub enum Answer {
    Skip,
    Reply(Reply),
}
