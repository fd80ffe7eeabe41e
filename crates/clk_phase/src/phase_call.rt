//! Calls on phases, their answers, and the entries of a journal.

use clk_base::{ClockId, Errno};
use std::alloc::Global;
use std::collections::LinkedList;

/// The answer of a call.
#[derive(Clone, Copy, Debug, PartialEq, Eq)]
pub enum PhaseReply {
    Fine,
    Refused(Errno),
    /// In degrees, from 0 to 359.
    Phase(u32),
}

/// A call on a clock: it sets its phase to so many degrees, or asks for it.
#[derive(Clone, Copy, Debug, PartialEq, Eq)]
pub struct PhaseCall {
    pub clock: ClockId,
    pub set: Option<i32>,
}

/// A call of a driver, with its reply.
#[derive(Clone, Copy, Debug, PartialEq, Eq)]
pub struct PhaseEntry {
    pub driver: u32,
    pub clock: ClockId,
    pub set: Option<i32>,
    pub reply: PhaseReply,
}

/// What stays as it is while calls are made. No value of this type is made: it exists for contracts
/// alone.
pub struct PhaseStart {
    /// How many steps each clock has, from 0 to 360.
    pub steps: LinkedList<u32, Global>,
    /// For how many entries there is room.
    pub room: u32,
}
