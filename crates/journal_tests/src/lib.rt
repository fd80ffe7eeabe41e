//! Tests of resets, bulk commands and phases: answers that were worked out by hand.
//!
//! They stand in a crate of their own because a crate with tests is proved twice.
#![tactic(auto)]

#[cfg(test)]
mod bulks;
#[cfg(test)]
mod descriptions;
#[cfg(test)]
mod phase_seats;
#[cfg(test)]
mod phases;
#[cfg(test)]
mod reset_seats;
#[cfg(test)]
mod resets;
#[cfg(test)]
mod sizes;
