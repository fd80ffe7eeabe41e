//! How a pass waits.
use crossbeam_utils::Backoff;
use std::thread;

// After so many tries it lets other threads run between two.
const SHORT_RESTS: u32 = 1_000;

/// Waits for one pause of the processor.
pub(crate) fn pause() {
    Backoff::new().spin();
}

/// How often a pass has tried in vain. It is a hint: no clause rests on it.
#[derive(Drop)]
pub(crate) struct Patience {
    failed: u32,
}

impl Patience {
    /// Of a pass that has not tried yet.
    pub(crate) fn new() -> Patience {
        Patience { failed: 0 }
    }

    /// Rests after a try in vain: for three pauses of the processor, and after many tries so that
    /// other threads run.
    pub(crate) fn rest(&mut self) {
        if self.failed < SHORT_RESTS {
            self.failed += 1;
        } else {
            thread::yield_now();
        }
        let backoff = Backoff::new();
        backoff.spin();
        backoff.spin();
    }
}
