//! Number 0 makes passes.
ghost use Rattle.std.specs.Prelude.{◌≡◌, ◌<◌, ◌≤◌, false};
ghost use Rattle.tier_lock.specs.Entries.{own};
ghost use Rattle.tier_lock.specs.Known.{parted, next_pass};

use crate::courtesy::Courtesy;
use crate::kept::Kept;
use crate::lock::Lock;
use crate::pass::Pass;
use crate::plays::{Amount, Look, Part};
use std::marker::Brand;

// The room is named by N, since a split of a view has no argument.
fn split_off<T: Kept, N: Amount>(lock: &Lock<T>, pass: &mut Pass<T>, room: u32) -> Pass<T>
    requires lock { pass.old.table ≡ lock.now.table }
    requires first { pass.old.number ≡ 0 }
    requires idle { pass.old.turn ≡ false }
    requires fits { room ≤ pass.old.room }
    requires few { pass.old.made < 4294967295 }
    requires amount { N.amount ≡ room }
    ensures old { pass.new ≡ parted room pass.old }
    ensures new { result ≡ next_pass room pass.old }
    ensures mine { own T.by result.number result.seen ≡ result.mine }
{
    let shared = &lock.table.shared;
    let mut seat = shared.split_seat::<Part<N>>(&mut pass.seat);
    let last = shared.load::<Look<T>>(&mut seat, 0);
    let number = pass.made;
    pass.made += 1;
    pass.room -= room;
    Pass {
        seat,
        number,
        room,
        made: 0,
        last,
        courtesy: Courtesy::new(),
    }
}

impl<T: Kept> Lock<T> {
    /// A pass of the next number, with some of the room of number 0.
    pub fn split(&self, pass: &mut Pass<T>, room: u32) -> Pass<T>
        // The pass is one of this lock.
        requires lock { pass.old.table ≡ self.now.table }
        // It is the one of number 0.
        requires first { pass.old.number ≡ 0 }
        // It isn't in a turn.
        requires idle { pass.old.turn ≡ false }
        // It has as much room.
        requires fits { room ≤ pass.old.room }
        // A number is left.
        requires few { pass.old.made < 4294967295 }
        // Number 0 has given one number more, and this room.
        ensures old { pass.new ≡ parted room pass.old }
        // The new pass has the next number and this room, has seen as much, and has no entry.
        ensures new { result ≡ next_pass room pass.old }
        // No entry of its number stands in what it has seen.
        ensures mine { own T.by result.number result.seen ≡ result.mine }
    {
        split_off::<T, Brand>(self, pass, room)
    }
}
