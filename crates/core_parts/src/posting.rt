//! What is told of a clock that a change of rate visits.

ghost use Rattle.std.specs.Prelude.{◌≡◌, ◌≤◌, ◌==◌, false, Some, slice_get, if◌then◌else◌};
ghost use Rattle.change_walk.specs.declared.changes.Changed.{Changed};

use crate::course::Course;

/// How many notifiers of a visited clock are told, and its rates in Hz before the change and in the
/// outcome.
#[derive(Clone, Copy)]
pub struct Posting {
    pub count: usize,
    pub before: u64,
    pub after: u64,
}

// Nothing is told.
fn no_posting() -> Posting
    ensures { result ≡ record { count = 0; before = 0; after = 0 } }
{
    Posting {
        count: 0,
        before: 0,
        after: 0,
    }
}

/// What is told of a clock that has so many notifiers and this rate in Hz now: nothing if its rate
/// is the one before the change.
pub fn posts_of(course: &Course, count: usize, rate: u64) -> Posting
    ensures none { count ≡ 0 → result ≡ record { count = 0; before = 0; after = 0 } }
    ensures some { (count == 0) ≡ false → (n : Changed) → slice_get course.now.notified 0 ≡ Some n
        → result ≡ record { count = if rate == n.before then 0 else count; before = n.before; after = n.after } }
    ensures few { result.count ≤ count }
{
    if count == 0 {
        return no_posting();
    }
    let Some(next) = course.first() else {
        return no_posting();
    };
    Posting {
        count: if rate == next.before { 0 } else { count },
        before: next.before,
        after: next.after,
    }
}
