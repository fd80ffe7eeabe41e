//! A change in flight: what is kept of a call that goes on, and what each of its steps makes of it.
#![tactic(auto)]

mod cut;
mod flight;
mod front;
pub mod laws;
mod raised;
mod script;
mod start;

pub use flight::Flight;
pub use start::Start;
