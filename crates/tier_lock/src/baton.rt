//! The baton: whose pass has it may add entries of the prepare tier.
use crate::kept::Kept;
use crate::rule::SeatOf;
use std::marker::Model;

/// The one baton of a lock, while no pass has it. Contracts see it as a `KnownBaton`.
#[derive(Drop)]
pub struct Baton<T: Kept> {
    pub(crate) seat: SeatOf<T>,
}

impl<T: Kept> Model for Baton<T> {
    ghost use Rattle.tier_lock.specs.Known.{KnownBaton};

    ghost Value = { KnownBaton T.Entry T.Fixed };

    ghost use Rattle.tier_lock.specs.Sits.{known_baton, Lies};

    ghost view = { λ b. known_baton b.seat.table_id b.seat.me.0 };

    ghost invariant = { λ b. Lies b.seat.me };
}
