//! The bundle: what its bytes spell, or the first reason why they spell none.
//!
//! A bundle is a text of sections: the clocks, the words of the register bank, the delays of locks,
//! late clocks, drivers with their commands, and the order of their turns. `read_bundle` reads it
//! whole: clocks become a valid description, names of clocks places in it, and variables numbers.
//! `specs/` says which bytes spell which bundle, by lines and their places in the whole text;
//! `one_verdict` is the law that bytes have one verdict.
#![tactic(auto)]

mod bank_section;
mod boot;
mod bundle;
mod command_line;
mod command_section;
mod contents;
mod driver_section;
mod judged;
mod late_section;
mod listed;
mod lock_section;
mod named;
mod order_section;
mod part;
mod policy_line;
mod reading;
mod rules;
mod sections;
mod stop;
mod variables;
mod verb;
mod verdict;

pub use bundle::{Bundle, DriverName, LateLine, LockLine, Script};
pub use bundle_text::{BundleFault, Reason};
pub use listed::Listed;
pub use reading::read_bundle;
pub use verdict::one_verdict;
