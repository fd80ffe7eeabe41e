//! The bundle that is run to measure: so many drivers, each over a PLL, a divider and a gate of its
//! own, which none of the others touches.
#![tactic(auto)]

mod bundle;
mod clocks;
mod script;

pub use bundle::generated;
