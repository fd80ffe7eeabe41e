//! The core of the clock framework: the state of the machine with its journal.
#![tactic(auto)]

mod change;
mod decision;
mod framework;
mod laws;
mod log;
mod machine;
mod prep;
mod row;

pub use decision::Decision;
pub use framework::Core;
pub use laws::always_fed;
pub use prep::Prep;
pub use row::Row;
