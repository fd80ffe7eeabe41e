//! How drivers leave the prepare lock to one another.

use crate::desk::Desk;
use reg_bank::Bank;
use std::hint;
use std::sync::atomic::{AtomicU32, Ordering};
use std::sync::{Mutex, MutexGuard, Wait};
use tier_lock::Named;

// The calls in a row after which a driver is to leave the prepare lock, where those that wait have a
// processor.
const FEWEST: u32 = 16;

// The most that come of it where they have none.
const MOST: u32 = 256;

// How often a driver that leaves the prepare lock looks whether another has taken it.
const LOOKS: u32 = 100;

// So many drivers try again and again before they sleep; where more wait, the others sleep at once.
const MOST_TRYING: u32 = 3;

// How often they try, and how many pauses of the processor they rest between two tries.
const TRIES: u32 = 200;

const PAUSES: u32 = 20;

/// How many drivers wait for the prepare lock, who had it last, how many calls it has made in a row,
/// and after how many it leaves the lock to another that waits. These are hints: no clause rests on
/// them.
#[derive(Drop)]
pub(crate) struct Courtesy {
    waiting: AtomicU32,
    last: AtomicU32,
    calls: AtomicU32,
    bound: AtomicU32,
}

// Waits for so many pauses of the processor.
fn pause(times: u32) {
    for _ in 0..times {
        hint::spin_loop();
    }
}

impl Courtesy {
    /// Nobody waits, and nobody has made a call.
    pub(crate) fn new() -> Courtesy {
        Courtesy {
            waiting: AtomicU32::new(0),
            last: AtomicU32::new(0),
            calls: AtomicU32::new(0),
            bound: AtomicU32::new(FEWEST),
        }
    }

    // Whether the driver had the prepare lock last, has made its calls in a row, and others wait.
    fn is_due(&self, driver: u32) -> bool {
        self.last.load(Ordering::SeqCst) == driver
            && self.calls.load(Ordering::SeqCst) >= self.bound.load(Ordering::SeqCst)
            && self.waiting.load(Ordering::SeqCst) > 0
    }

    // Looks for a while whether another driver has taken the prepare lock. Whether one has.
    fn is_taken(&self, driver: u32) -> bool {
        for _ in 0..LOOKS {
            if self.last.load(Ordering::SeqCst) != driver {
                return true;
            }
            pause(1);
        }
        false
    }

    // Leaves the prepare lock to those that wait, after the driver's calls in a row, but not for long.
    fn give_way(&self, driver: u32) {
        if !self.is_due(driver) {
            return;
        }
        let bound = if self.is_taken(driver) {
            FEWEST
        } else {
            self.calls.store(0, Ordering::SeqCst);
            self.bound
                .load(Ordering::SeqCst)
                .saturating_mul(2)
                .min(MOST)
        };
        self.bound.store(bound, Ordering::SeqCst);
    }

    // One of the driver's calls begins.
    fn note(&self, driver: u32) {
        let calls = if self.last.load(Ordering::SeqCst) == driver {
            self.calls.load(Ordering::SeqCst).saturating_add(1)
        } else {
            self.last.store(driver, Ordering::SeqCst);
            1
        };
        self.calls.store(calls, Ordering::SeqCst);
    }

    // Tries for a while to take the prepare lock.
    fn try_on<'d, B: Bank, N: Named>(
        desk: &'d Mutex<Desk<B, N>>,
    ) -> Option<MutexGuard<'d, Desk<B, N>>> {
        for _ in 0..TRIES {
            if let Some(guard) = desk.try_lock() {
                return Some(guard);
            }
            pause(PAUSES);
        }
        None
    }

    // Waits for the prepare lock.
    fn wait<'d, B: Bank, N: Named, R: Wait>(
        &self,
        rt: &R,
        desk: &'d Mutex<Desk<B, N>>,
    ) -> MutexGuard<'d, Desk<B, N>> {
        if self.waiting.fetch_add(1, Ordering::SeqCst) < MOST_TRYING {
            if let Some(guard) = Courtesy::try_on(desk) {
                return guard;
            }
        }
        desk.lock(rt)
    }

    /// Takes the prepare lock for one of the driver's calls.
    pub(crate) fn take<'d, B: Bank, N: Named, R: Wait>(
        &self,
        rt: &R,
        desk: &'d Mutex<Desk<B, N>>,
        driver: u32,
    ) -> MutexGuard<'d, Desk<B, N>> {
        self.give_way(driver);
        let guard = match desk.try_lock() {
            Some(guard) => guard,
            None => {
                let guard = self.wait(rt, desk);
                self.waiting.fetch_sub(1, Ordering::SeqCst);
                guard
            }
        };
        self.note(driver);
        guard
    }
}
