//! The definitions of the clock framework: what the state is, which clocks run, which rates the
//! registers give, what each call answers, and which journals are legal runs.
//!
//! The definitions stand in `specs/`, and laws about them in `laws`. Nothing here runs but the rows
//! that a state is made of.
#![tactic(auto)]

pub mod laws;
mod row;

pub use row::{ClockRow, HandleRow};
