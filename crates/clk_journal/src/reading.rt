//! Reads an entry back from its line. The words of a line are found one by one, and the words of a part
//! tell the part or nothing: numbers, calls, steps, events and turns each have a file. It takes no memory.

mod call;
mod entry;
mod event;
mod notifier;
mod numbers;
mod step;
mod turn;
mod words;

pub use entry::read_entry;
