//! The rule of the lock's table: one word, and one slot with the value.
ghost use Rattle.tier_lock.specs.Entries.{reading};
ghost use Rattle.tier_lock.specs.Turns.{Holds, first_pass};

use crate::kept::Kept;
use crate::view::View;
use atomic_table::{Seat, Shared, Table, TableRule};
use std::alloc::Global;
use std::marker::PhantomData;
use std::snapshot::Snapshot;

/// What a seat of a lock's table knows.
pub type ViewOf<T> = View<<T as Kept>::Entry, <T as Kept>::Fixed>;

pub type SeatOf<T> = Seat<Option<T>, ViewOf<T>>;

/// The part of a lock's table that threads share.
pub type SharedOf<T> = Shared<Option<T>, ViewOf<T>, Snapshot<T>, Counted<T>>;

pub type TableOf<T> = Table<Option<T>, ViewOf<T>, Snapshot<T>, Counted<T>, Global>;

/// The word is twice the number of entries, and one more while the lock is taken.
pub struct Counted<T: Kept> {
    of: PhantomData<T>,
}

// The key is the value that the lock was made with, which has the fixed part.
impl<T: Kept> TableRule<Option<T>, View<T::Entry, T::Fixed>, Snapshot<T>> for Counted<T> {
    ghost holds = { λ key. Holds (reading T.entries T.fixed T.by T.prep T.cost T.most) (T.fixed key.value) };

    ghost first = { λ key. first_pass (T.fixed key.value) (T.most (T.fixed key.value)) };
}
