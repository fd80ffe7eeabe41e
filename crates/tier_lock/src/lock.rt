//! The lock.
ghost use Rattle.std.specs.Prelude.{◌≡◌, [], IfOk, Some};
ghost use Rattle.tier_lock.specs.Known.{first_known};

use crate::baton::Baton;
use crate::courtesy::Courtesy;
use crate::kept::Kept;
use crate::pass::Pass;
use crate::plays::HandBack;
use crate::rule::TableOf;
use crate::waiters::Waiters;
use atomic_table::Table;
use clk_io::NoMemory;
use std::alloc::Global;
use std::marker::Model;
use std::snapshot::Snapshot;

/// A value that passes take in turns, each turn with at most one entry. Contracts see it as a `KnownLock`.
#[derive(Drop)]
pub struct Lock<T: Kept> {
    pub(crate) table: TableOf<T>,
    pub(crate) waiters: Waiters,
}

impl<T: Kept> Model for Lock<T> {
    ghost use Rattle.std.specs.Prelude.{◌≡◌};
    ghost use Rattle.tier_lock.specs.Known.{KnownLock};

    ghost Value = { KnownLock T.Fixed };

    ghost view = { λ l. record { table = l.table.shared.table_id; fixed = T.fixed l.table.shared.key.value } };

    ghost invariant = { λ l. (l.table.shared.table_id.words ≡ 1) × (l.table.shared.table_id.slots ≡ 1) };
}

impl<T: Kept> Lock<T> {
    /// Locks a value that has no entry. The pass has number 0 and all of the room. The one error is
    /// want of memory.
    pub fn create(alloc: Global, value: T) -> Result<(Lock<T>, Pass<T>, Baton<T>), NoMemory>
        // The value has no entry.
        requires { T.entries value ≡ [] }
        // The lock knows the fixed part of the value.
        ensures lock { IfOk result (λ r. r.0.fixed ≡ T.fixed value) }
        // The pass has number 0, the whole room, and has seen nothing.
        ensures pass { IfOk result (λ r. r.1 ≡ first_known r.0.table (T.fixed value) (T.most (T.fixed value))) }
        // The baton is of this lock and has seen nothing.
        ensures baton { IfOk result (λ r. r.2 ≡ record { table = r.0.table; seen = []; fixed = Some (T.fixed value) }) }
    {
        let key = Snapshot::of(&value);
        let room = value.total();
        let mut slots = Vec::with_capacity(alloc, 1)?;
        slots.push(Some(value))?;
        let Ok((table, mut seat)) = TableOf::<T>::new(alloc, &[0], slots, &key) else {
            return Err(NoMemory);
        };
        let baton = Baton {
            seat: table.shared.split_seat::<HandBack>(&mut seat),
        };
        let pass = Pass {
            seat,
            number: 0,
            room,
            made: 1,
            last: 0,
            courtesy: Courtesy::new(),
        };
        let waiters = Waiters::none();
        Ok((Lock { table, waiters }, pass, baton))
    }
}
