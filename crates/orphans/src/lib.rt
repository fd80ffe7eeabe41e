//! The parent that a registration gives a clock, and the orphans that a registration lets adopt.
#![tactic(auto)]

mod adopting;
mod beside;
mod link;
mod marks;
mod waiting;

pub use adopting::{adoptable, adoptable_in};
pub use beside::link_beside;
pub use link::{link_of, read_link};
