//! Tests of the program's top call that no text can say: sources and sinks that fail, or try again, the
//! pieces in which a text is written, bytes that are no text, words that are no word, drivers on threads of
//! their own, one for each, and that the turns of their calls come between each other.
//!
//! Runs that a text can say stand in the crate `worked_runs`. These stand in a crate of their own
//! because a crate with tests is proved twice.
#![tactic(auto)]

#[cfg(test)]
mod bytes;
#[cfg(test)]
mod faults;
#[cfg(test)]
mod pauses;
#[cfg(test)]
mod pieces;
#[cfg(test)]
mod retried;
#[cfg(test)]
mod running;
#[cfg(test)]
mod side_by_side;
#[cfg(test)]
mod threads;
#[cfg(test)]
mod untold;
