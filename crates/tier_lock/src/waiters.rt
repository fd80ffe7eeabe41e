//! How many passes wait for a lock.
use crossbeam_utils::CachePadded;
use crossbeam_utils::atomic::AtomicCell;

/// The count of the passes that wait, beside the lock. It is a hint: no clause rests on it, and a
/// change of it is no step of the rule.
#[derive(Drop)]
pub(crate) struct Waiters {
    count: CachePadded<AtomicCell<u32>>,
}

impl Waiters {
    /// Nobody waits.
    pub(crate) fn none() -> Waiters {
        Waiters {
            count: CachePadded::new(AtomicCell::new(0u32)),
        }
    }

    /// One more waits.
    pub(crate) fn join(&self) {
        self.count.fetch_add(1);
    }

    /// One waits no longer.
    pub(crate) fn leave(&self) {
        self.count.fetch_sub(1);
    }

    pub(crate) fn is_empty(&self) -> bool {
        self.count.load() == 0
    }
}
