//! The words of the command line and what they mean.
#![tactic(auto)]

mod cli;
mod command_line;
mod reading;
mod usage;

pub use cli::{Cli, CliFault, Mode};
pub use reading::words;
pub use usage::USAGE_LINE;
