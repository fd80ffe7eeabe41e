//! Tests of sources and sinks, of the crates that read a bundle and the program's words, and of the
//! texts of answers and registers: what no clause of theirs says, on tables of cases.
//!
//! The expected values come from the bundle's format, by hand. Whole bundles that are refused stand
//! elsewhere, as data of a program.
#![tactic(auto)]

#[cfg(test)]
mod bundles;
#[cfg(test)]
mod clock_lines_read;
#[cfg(test)]
mod clocks;
#[cfg(test)]
mod command_lines;
#[cfg(test)]
mod sections;
#[cfg(test)]
mod streams;
#[cfg(test)]
mod texts;
#[cfg(test)]
mod words;
