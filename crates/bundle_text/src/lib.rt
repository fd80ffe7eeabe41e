//! The text of a bundle: its lines, their words, and the numbers and names that words spell.
//!
//! Places of lines count from 0; the line that a user is told is one more. Words are separated by
//! single spaces, or by blanks, which are spaces and tabs, as each call says. Each function here is a
//! test or a reader of one thing by itself: what lines mean together is said above.
#![tactic(auto)]

mod fault;
mod names;
mod numbers;
mod reason;
mod text_lines;

pub use fault::BundleFault;
pub use names::{is_clock_name, is_driver_name, is_variable, is_word};
pub use numbers::{number_up_to, number_within, small_number_up_to, small_number_within};
pub use reason::Reason;
pub use text_lines::TextLines;
