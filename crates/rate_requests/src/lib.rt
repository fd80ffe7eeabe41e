//! The handles of drivers by number, and the boundaries that they set to the rate of each clock.
#![tactic(auto)]

mod held;
mod requests;
mod span;

pub use clk_model::HandleRow;
pub use requests::Requests;
