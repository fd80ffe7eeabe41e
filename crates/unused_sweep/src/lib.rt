//! The order in which the unused sweep goes over the clocks, and the steps that close a gate.
#![tactic(auto)]

mod closes;
mod trees;

pub use closes::push_close;
pub use trees::sweep_order;
