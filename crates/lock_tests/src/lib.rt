//! Tests of the counted lock: drivers in threads over one list of numbers.
//!
//! They stand in a crate of their own because a crate with tests is proved twice.
#![tactic(auto)]

#[cfg(test)]
mod append;
#[cfg(test)]
mod desk;
#[cfg(test)]
mod roll;
#[cfg(test)]
mod turns;
