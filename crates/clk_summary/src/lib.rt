//! The summary of a core: a table with a line for each registered clock.
//!
//! Each place where text is made has a type of its own whose `Display` states the bytes that it
//! writes. A line is formatted by itself and handed to a `Gathered`, which writes pieces. The
//! printer answers `Write` where the sink fails and `NoMemory` where memory runs out; a front of the
//! table may have been written then.
#![tactic(auto)]

mod row;
mod table;

pub use table::print_summary;
