//! Tests of the core: what no contract says, and cases that were worked out by hand.
//!
//! They stand in a crate of their own because a crate with tests is proved twice, with them and without.
#![tactic(auto)]

#[cfg(test)]
mod clocks;
#[cfg(test)]
mod cores;
#[cfg(test)]
mod decided;
#[cfg(test)]
mod room;
