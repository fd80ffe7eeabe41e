//! How often each clock is enabled, prepared and protected, kept as three counts a clock.
#![tactic(auto)]

mod children;
mod counts;
mod coupled;
mod flags;
pub mod laws;
mod tally;
mod walk;

pub use counts::Counts;
