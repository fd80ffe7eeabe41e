//! The clock tree: which clocks are registered, which parent each is attached to, in which order
//! they were attached, and the rate that is kept of each.
//!
//! [`Tree`] answers for the links and the kept rates; [`rate_of`] is the rate of one clock over its
//! parent's by the registers. [`View`] is what planning asks of the clocks
//! beside them, and [`Plan`] what planning gives.
#![tactic(auto)]

mod chain;
mod group;
mod kind;
mod plan;
mod plls;
mod rate;
mod refresh;
mod ring;
mod rooting;
mod row;
mod tree;
mod view;
mod walk_rates;

pub use chain::{ChainStep, PlannedChain, step_at};
pub use kind::{rate_by, style_of};
pub use plan::Plan;
pub use rate::rate_of;
pub use tree::Tree;
pub use view::View;
pub use walk_rates::{WalkRate, WalkRates, rate_at};
