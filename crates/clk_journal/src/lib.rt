//! The printed text of the clock framework: the answers of a driver's commands, the entries of a
//! journal, and the registers. An entry is read back from its line.
//!
//! Each place where text is made has a type of its own whose `Display` states the bytes that it
//! writes. A printer formats one line at a time and hands it to a `Gathered`, which writes pieces.
//! It answers `Write` where the sink fails and `NoMemory` where memory runs out; a front of its text
//! may have been written then.
#![tactic(auto)]

mod answers;
mod call;
mod entries;
mod event;
mod laws;
mod names;
mod ranges;
mod reading;
mod registers;
mod reply;
mod step;

pub use answers::print_answers;
pub use entries::{print_entries, print_entry};
pub use laws::{clocks_are_there, one_entry, one_journal};
pub use ranges::entries_are_sized;
pub use reading::read_entry;
pub use registers::print_registers;
