//! Tests of the framework: drivers on threads of their own.
//!
//! They stand in a crate of their own because a crate with tests is proved twice.
#![tactic(auto)]

#[cfg(test)]
mod threads;
