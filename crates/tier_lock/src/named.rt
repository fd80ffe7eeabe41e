//! A name for a lock, for contracts alone.
ghost use Rattle.atomic_table.specs.Seated.{TableId};

use std::marker::Brand;

/// A type whose `N` is `Named` can say that it belongs to the lock `N.table`. The caller of a function over `N: Named` picks the lock, by calling it at `Brand`.
pub trait Named {
    ghost table: { TableId };
}

impl Named for Brand {
    ghost use Rattle.tier_lock.specs.Names.{no_table};

    ghost table = { no_table };
}
