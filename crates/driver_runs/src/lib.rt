//! Running the drivers' scripts over a core, on one thread.
//!
//! `run_scripts` makes the calls of boot's commands, and then the events of the drivers, one after
//! another: as long as a stated order says whose event comes next, its driver's, and then always that
//! of the lowest numbered driver that can make one. What a command calls, and what its reply leaves in
//! the driver's variables, stands by itself, for who runs scripts in another way.
#![tactic(auto)]

mod boot;
mod called;
mod calling;
mod command;
mod event;
mod moving;
mod scripts;
mod standing;
mod turns;
mod variables;

pub use called::{Called, call_of};
pub use scripts::run_scripts;
pub use variables::{handle_of, keep_reply, variable_count};
