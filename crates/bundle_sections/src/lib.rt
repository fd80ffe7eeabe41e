//! The sections of a bundle: which header each line stands under, or the first line that is out of
//! place.
//!
//! `read_sections` judges the lines as text, their first line, and the headers in their order;
//! `version_of` is the version that the first line states. What the lines of a section say is not
//! read here. `specs/` says which lines have a fault, by their places in the whole text;
//! `one_verdict` is the law that lines have one verdict.
#![tactic(auto)]

mod header;
mod order;
mod reading;
mod section;
mod verdict;

pub use header::Header;
pub use reading::{read_sections, version_of};
pub use section::{BankSection, ClockSection, ClockText, Section, Sections};
pub use verdict::one_verdict;
