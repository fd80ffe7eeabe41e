//! From the bytes of a bundle to the printed run.
//!
//! `clkbench` is the program as a call: it reads the words, takes the bundle from a source, runs its
//! drivers over a bank of registers, and prints to a sink: the journal where it is asked for, the
//! answers, the summary and the registers.
#![tactic(auto)]

mod arming;
mod counting;
mod laws;
mod printing;
mod reading;
mod refusal;
mod run_bundle;
mod run_core;
mod side_by_side;
mod sim;
mod state;
mod taking;
mod top;

pub use laws::journal_given_back;
pub use reading::check_bundle;
pub use sim::simulate;
pub use top::clkbench;
