//! Commands on several handles at once, and the phases of clocks.
//!
//! A bulk command makes the same call on each of its handles. One that goes forward stops at the first
//! call that fails, and undoes the calls before it; [`bulk`] makes its calls by a [`Consumer`], and a
//! [`BulkRun`] says which call comes next. A [`PhaseCore`] keeps the phases of clocks and a journal of
//! all calls; [`Phases`] is one that drivers share.
#![tactic(auto)]

mod bulk_call;
mod bulk_run;
mod command;
mod consumer;
mod degrees;
mod laws;
mod phase;
mod phase_call;
mod phases;

pub use bulk_call::{BulkCall, BulkItem, BulkKind, BulkReply, BulkStep};
pub use bulk_run::BulkRun;
pub use command::bulk;
pub use consumer::Consumer;
pub use laws::{failed_commands_leave_handles, runs_are_commands};
pub use phase::PhaseCore;
pub use phase_call::{PhaseCall, PhaseEntry, PhaseReply, PhaseStart};
pub use phases::{PhaseSeat, Phases, Unclosed};
