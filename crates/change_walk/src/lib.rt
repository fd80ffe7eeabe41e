//! The script of a change of rates or of a parent: the notices before it, the moves and visits of its
//! walk, and what they weigh.
//!
//! What is promised of a script holds if the tree keeps the rates that the registers give.
#![tactic(auto)]

mod changes;
mod moves;
mod notices;
mod places;
mod planned;
mod step_list;
mod visits;
mod weight;

pub use changes::Changed;
pub use planned::{script, script_of};
pub use step_list::StepList;
pub use visits::{push_fed, runs_parent};
pub use weight::weigh;
