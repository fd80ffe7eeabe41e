//! The counted lock: a value that is a log of entries, taken in turns, with at most one entry a turn.
//!
//! A [`Lock`] keeps a value of a type that is [`Kept`]. Each driver has a [`Pass`], takes the value
//! by it, and ends its turn with one entry or with none. A pass knows what it has seen of the log and
//! which entries are its own, and has room for the entries that it may still add. The one [`Baton`]
//! goes from pass to pass: only the pass that has it adds entries of the prepare tier. At the end
//! `Lock::close` takes all passes and the baton, and gives the value.
#![tactic(auto)]

mod baton;
mod closing;
mod courtesy;
mod giving;
mod guard;
mod kept;
mod lending;
mod lock;
mod named;
mod parting;
mod pass;
mod patience;
mod plays;
mod rule;
mod taking;
mod view;
mod waiters;

pub use baton::Baton;
pub use closing::Unclosed;
pub use guard::Guard;
pub use kept::Kept;
pub use lock::Lock;
pub use named::Named;
pub use pass::Pass;
