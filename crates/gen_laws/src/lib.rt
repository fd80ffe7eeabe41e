//! The law of the bundle that is run to measure: its text, for 1 to 64 drivers, spells a bundle.
#![tactic(auto)]

mod law;

pub use law::generated_is_read;
