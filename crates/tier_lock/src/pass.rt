//! A pass: what one driver knows of the lock, and what it may add.
ghost use Rattle.std.specs.Prelude.{◌≡◌};
ghost use Rattle.tier_lock.specs.Entries.{own};

use crate::courtesy::Courtesy;
use crate::kept::Kept;
use crate::rule::SeatOf;
use std::marker::Model;

/// One driver's pass of a lock. Contracts see it as a `KnownPass`. A lock whose pass was dropped can't be closed any more.
#[derive(Drop)]
pub struct Pass<T: Kept> {
    pub(crate) seat: SeatOf<T>,
    pub(crate) number: u32,
    pub(crate) room: u32,
    pub(crate) made: u32,
    // The lock's word as this pass saw it last: where nobody else has had a turn since, it still is so,
    // and the next turn begins without a look at it.
    pub(crate) last: u64,
    pub(crate) courtesy: Courtesy,
}

impl<T: Kept> Model for Pass<T> {
    ghost use Rattle.tier_lock.specs.Known.{KnownPass};

    ghost Value = { KnownPass T.Entry T.Fixed };

    ghost use Rattle.tier_lock.specs.Sits.{known_pass, Sits};

    ghost view = { λ p. known_pass p.seat.table_id p.seat.me.0 };

    ghost invariant = { λ p. Sits T.by p.number p.room p.made p.seat.me };
}

impl<T: Kept> Pass<T> {
    /// What further entries of this pass may cost.
    pub fn room(&self) -> u32
        ensures room { result ≡ self.now.room }
        ensures mine { own T.by self.now.number self.now.seen ≡ self.now.mine }
    {
        self.room
    }

    /// The number that each entry of this pass has as its driver.
    pub fn number(&self) -> u32
        ensures number { result ≡ self.now.number }
        ensures mine { own T.by self.now.number self.now.seen ≡ self.now.mine }
    {
        self.number
    }
}
