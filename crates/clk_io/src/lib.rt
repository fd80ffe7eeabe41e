//! Where bytes come from, where they go, and what each fault on the way is caused by.
//!
//! A [`Source`] gives bytes and a [`Sink`] takes them. To contracts a source is the bytes that are
//! left in it, where it tells them, and a count of its faults; a sink is the bytes that were
//! written, where it tells them, and a count of its faults. `read_all` and `write_all` are the two
//! loops over them. Printers above hand their lines to a [`Gathered`], which writes them in pieces;
//! they promise what they wrote in the words of `specs/Prints.antt` and `specs/Gathers.antt`.
#![tactic(auto)]

mod faults;
mod feeds;
mod gathered;
mod mem_sink;
mod mem_source;
mod pushing;
mod reader_source;
mod reading;
mod sinks;
mod sources;
mod writer_sink;
mod writing;

pub use faults::{Failed, NoMemory, PrintFault, ReadFault, WriteFault};
pub use feeds::line_feeds;
pub use gathered::{Gathered, PIECE_BYTES};
pub use mem_sink::MemSink;
pub use mem_source::MemSource;
pub use pushing::push_some;
pub use reader_source::{ReaderSource, StdIn};
pub use reading::{MOST_BYTES, read_all};
pub use sinks::Sink;
pub use sources::Source;
pub use writer_sink::{StdOut, WriterSink};
pub use writing::write_all;
