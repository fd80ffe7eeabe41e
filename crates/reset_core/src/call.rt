//! Lines, kinds of handles, calls, and the entries of a journal.

use clk_base::Reply;

/// Where the bit of a line is. The line is asserted while the bit is 1.
#[derive(Clone, Copy, Debug, PartialEq, Eq)]
pub struct ResetLine {
    pub word: u32,
    /// From 0 to 31.
    pub bit: u32,
}

/// What a handle allows beside it. A released one is an exclusive one that isn't acquired yet.
#[derive(Clone, Copy, Debug, PartialEq, Eq)]
pub enum ResetKind {
    Exclusive,
    Released,
    Shared,
}

/// A call of a driver. Its handle is a number. The line of a get is a place among the lines, if there is
/// a line of the name that was asked for.
#[derive(Clone, Copy, Debug, PartialEq, Eq)]
pub enum ResetCall {
    Get(Option<u32>, ResetKind),
    Put(u32),
    Deassert(u32),
    Assert(u32),
    Pulse(u32),
    Asserted(u32),
    Acquire(u32),
    Release(u32),
}

/// A call of a driver, with its reply. A handle in a reply has slot 0.
#[derive(Clone, Copy, Debug, PartialEq, Eq)]
pub struct ResetEntry {
    pub driver: u32,
    pub what: ResetCall,
    pub reply: Reply,
}
