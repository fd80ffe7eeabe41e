//! Each driver's script on a thread of its own, over the framework.
//!
//! `run_on_threads` takes a framework with its driver 0. Driver 0 runs the commands of boot; then a
//! driver is made for each script, and all of them run side by side; at the end the framework is
//! closed with all of them and gives its core.
#![tactic(auto)]

mod calling;
mod command;
mod making;
mod running;
mod script;
mod worker;
mod working;

pub use running::run_on_threads;
