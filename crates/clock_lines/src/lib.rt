//! The clock lines of a bundle: from the lines of its section to a description of clocks.
//!
//! `read_clocks` reads them whole, or says which line is the first with a fault, and which. A parent
//! may be named on a later line, so parents are looked up once all lines were read. `specs/` says
//! what each line spells by itself and by its place among the others; `one_verdict` is the law that
//! lines have one verdict.
#![tactic(auto)]

mod clock_line;
mod described;
mod field;
mod flag_words;
mod gathered;
mod kinds;
mod list;
mod reading;
mod stop;
mod verdict;

pub use list::ClockList;
pub use reading::read_clocks;
pub use verdict::one_verdict;
