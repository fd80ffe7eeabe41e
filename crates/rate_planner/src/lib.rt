//! Rounding and planning: the rate that a clock would get for a request, and the chain of clocks that
//! the request changes.
//!
//! What is promised of the answers holds if the tree keeps the rates that the registers give.
#![tactic(auto)]

mod asking;
mod climb;
mod divisors;
mod kind;
mod next;
mod now;
mod outcome;
mod parent;
mod planning;
mod request;
mod rest;
mod rounded;
mod rounding;
mod settings;
mod walk;

pub use parent::{plan_move, plan_parent};
pub use planning::Planning;
pub use request::{plan, plan_from, plan_now};
pub use rest::{NoRest, Pausing, Rest};
pub use rounded::Rounded;
pub use rounding::{first_rounding, round, round_now, round_resting};
pub use settings::setting;
