//! What is done between the candidates of a rounding.

use clk_base::{Pause, Place};
use std::sync::Wait;

/// What rounding and planning do once a candidate. It promises nothing.
pub trait Rest {
    fn rest(&self);
}

/// Goes on at once.
#[derive(Drop)]
pub struct NoRest;

impl Rest for NoRest {
    fn rest(&self) {}
}

/// Pauses at `Place::Planning`.
#[derive(Drop)]
pub struct Pausing<'a, R, Q> {
    pub rt: &'a R,
    pub pause: &'a Q,
}

impl<'a, R: Wait + Sync, Q: Pause> Rest for Pausing<'a, R, Q> {
    fn rest(&self) {
        self.pause.pause(self.rt, Place::Planning);
    }
}
