//! The clocks of a bundle: what the section of the clocks says, in either of its forms.
//!
//! `read_clocks_part` reads a description, and the lines of its clocks, from clock lines or from a
//! device tree source. Lines are those of the bundle, counted from 1, in both forms. `specs/` says
//! which section says what in the version that the bundle's first line states, or why it is refused;
//! `one_verdict` is the law that a section has one verdict.
#![tactic(auto)]

mod fault;
mod line_form;
mod part;
mod reading;
mod source;
mod tree_form;
mod verdict;

pub use part::ClocksPart;
pub use reading::read_clocks_part;
pub use verdict::one_verdict;
