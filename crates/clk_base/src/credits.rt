//! How many events a run may have.

/// The most credits that a run may be given. Each call and each event of the enable tier spends one.
pub const MOST_CREDITS: u32 = 4_194_304;
