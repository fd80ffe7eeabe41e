//! A reset controller: lines that are asserted or not, the handles that drivers have of them, and the
//! calls that drivers make, each an entry of a journal.
//!
//! A [`ResetCore`] is for one thread. [`Resets`] is one that drivers share, each by a [`ResetSeat`] of its
//! own.
#![tactic(auto)]

mod call;
mod controller;
mod handles;
mod record;
mod reset;
mod resets;
mod start;
mod words;

pub use call::{ResetCall, ResetEntry, ResetKind, ResetLine};
pub use record::HandleRecord;
pub use reset::ResetCore;
pub use resets::{ResetSeat, Resets, Unclosed};
pub use start::ResetStart;
