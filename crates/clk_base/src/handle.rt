//! Handles of clocks, and the policies of notifiers.

/// A driver's hold of a clock. The numbers of handles rise by one from 0 and aren't used again.
#[derive(Clone, Copy, Debug, PartialEq, Eq)]
pub struct Handle {
    pub number: u32,
    /// Where the record lay when the handle was given. It is no part of what the handle means, and no
    /// call reads it.
    pub slot: u32,
    pub driver: u32,
}

/// What a notifier answers when it is told of a new rate before the change.
#[derive(Clone, Copy, Debug, PartialEq, Eq)]
pub enum Policy {
    Accept,
    /// A veto where the new rate in Hz is above this one.
    VetoAbove(u64),
    /// A veto where the new rate in Hz is below this one.
    VetoBelow(u64),
    VetoAll,
}
