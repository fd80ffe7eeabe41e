//! A journal that drivers share: a core each of whose calls makes one entry, behind the counted lock.
//!
//! A core says by [`Journaled`] what its calls are, which journals are legal, and how it makes a call.
//! [`Shared`] is the lock round it: each driver has a pass of its own, a seat, and makes its calls by it
//! from its own thread, each in one turn of the lock.
#![tactic(auto)]

mod journaled;
mod shared;

pub use journaled::Journaled;
pub use shared::Shared;
