//! Places at which a run may pause.

use std::sync::Wait;

/// Where a run pauses: between two sections of a sleeping call, or at a candidate of planning.
#[derive(Clone, Copy, Debug, PartialEq, Eq)]
pub enum Place {
    Between,
    Planning,
}

/// What a run does at a pause. It promises nothing, and may wait.
pub trait Pause {
    fn pause<R: Wait + Sync>(&self, rt: &R, place: Place);
}

/// Pauses nowhere.
#[derive(Drop)]
pub struct NoPause;

impl Pause for NoPause {
    fn pause<R: Wait + Sync>(&self, _rt: &R, _place: Place) {}
}
