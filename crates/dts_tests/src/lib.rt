//! Device tree sources that were written by hand, each with what is to be read of it.
//!
//! Nothing but tests, from the words of a source to the clocks that it describes: tables of cases,
//! a helper for each. They stand in a crate of their own because a crate with tests is proved
//! twice, with them and without.
#![tactic(auto)]

#[cfg(test)]
mod board;
#[cfg(test)]
mod clocks;
#[cfg(test)]
mod kinds;
#[cfg(test)]
mod nodes;
#[cfg(test)]
mod refused_sources;
#[cfg(test)]
mod trees;
#[cfg(test)]
mod words;
