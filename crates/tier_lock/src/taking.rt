//! A turn begins.
ghost use Rattle.std.specs.Prelude.{◌≡◌, ◌+◌, ◌≤◌, true, false, Some, IfSome, IfNone, sum_by};
ghost use Rattle.tier_lock.specs.Entries.{reading, own, IsPrefix, AddsEnablesOnly, AreBelow};
ghost use Rattle.tier_lock.specs.Sits.{IsOf, IsFree, Took};

use crate::courtesy::Courtesy;
use crate::guard::Guard;
use crate::kept::Kept;
use crate::lock::Lock;
use crate::pass::Pass;
use crate::patience::{Patience, pause};
use crate::plays::{Fixes, Win};
use crate::rule::{SeatOf, SharedOf};
use crate::waiters::Waiters;
use std::marker::Brand;
use std::sync::Wait;

// How often a pass that leaves the lock looks whether another has taken it.
const LOOKS: u32 = 100;

// One try, where the lock has this word. It fails where the lock is taken, or where it has another word
// by now. The lock's fixed part is named by N.
fn try_take<T: Kept, N: Fixes<T::Fixed>>(
    shared: &SharedOf<T>,
    seat: &mut SeatOf<T>,
    word: u64,
) -> Option<T>
    requires table { IsOf shared.now.table_id seat.old.table_id }
    requires free { IsFree seat.old.me }
    requires named { N.fixed ≡ Some (T.fixed shared.now.key.value) }
    ensures same { (seat.new.table_id ≡ seat.old.table_id) × (seat.new.id ≡ seat.old.id) }
    ensures taken { IfSome result (λ value. Took (reading T.entries T.fixed T.by T.prep T.cost T.most) value seat.old.me seat.new.me) }
    ensures fixed { IfSome result (λ value. T.fixed value ≡ T.fixed shared.now.key.value) }
    ensures missed { IfNone result (seat.new.me ≡ seat.old.me) }
{
    if word % 2 != 0 {
        return None;
    }
    let found = shared.compare_exchange::<Win<T, N>>(seat, 0, word, word + 1);
    if found != word {
        return None;
    }
    let Some(value) = shared.exchange(seat, 0, None) else {
        unreachable!()
    };
    Some(value)
}

// Until this seat is the one that wins. A turn is short, and to sleep and be woken costs calls of the
// system; but each try takes the lock's word from the processor that is in its turn. So it rests
// between two tries.
fn wait_for_value<T: Kept, N: Fixes<T::Fixed>, R: Wait>(
    rt: &R,
    shared: &SharedOf<T>,
    seat: &mut SeatOf<T>,
) -> T
    requires table { IsOf shared.now.table_id seat.old.table_id }
    requires free { IsFree seat.old.me }
    requires named { N.fixed ≡ Some (T.fixed shared.now.key.value) }
    ensures same { (seat.new.table_id ≡ seat.old.table_id) × (seat.new.id ≡ seat.old.id) }
    ensures taken { Took (reading T.entries T.fixed T.by T.prep T.cost T.most) result seat.old.me seat.new.me }
    ensures fixed { T.fixed result ≡ T.fixed shared.now.key.value }
{
    let mut patience = Patience::new();
    for _ in rt.forever() {
        let word = shared.peek(0);
        if let Some(value) = try_take::<T, N>(shared, seat, word) {
            return value;
        }
        patience.rest();
    }
    unreachable!()
}

// Looks for a while whether the lock's word is another than this. Whether it is.
fn has_moved<T: Kept>(shared: &SharedOf<T>, last: u64) -> bool
    requires { shared.now.table_id.words ≡ 1 }
{
    for _ in 0..LOOKS {
        if shared.peek(0) != last {
            return true;
        }
        pause();
    }
    false
}

// After its turns in a row a pass leaves the lock to those that wait, until one of them has taken it,
// but not for long: they may have no processor. Whether one has taken it.
fn gives_way<T: Kept>(
    shared: &SharedOf<T>,
    waiters: &Waiters,
    courtesy: &mut Courtesy,
    last: u64,
) -> bool
    requires { shared.now.table_id.words ≡ 1 }
{
    if !courtesy.is_due() || waiters.is_empty() {
        return false;
    }
    let moved = has_moved(shared, last);
    courtesy.was_left(moved);
    moved
}

impl<T: Kept> Lock<T> {
    /// Waits for the turn, and has the value until the turn ends.
    pub fn take<R: Wait>(&self, rt: &R, pass: &mut Pass<T>) -> Guard<T>
        // The pass is one of this lock.
        requires lock { pass.old.table ≡ self.now.table }
        // It isn't in a turn.
        requires idle { pass.old.turn ≡ false }
        // The pass is in a turn and has seen all entries of the value.
        ensures turn { pass.new ≡ record pass.old { turn = true; seen = T.entries result.value } }
        // They continue what it had seen.
        ensures seen { IsPrefix pass.old.seen (T.entries result.value) }
        // The fixed part of the value is the lock's.
        ensures lock_fixed { T.fixed result.value ≡ self.now.fixed }
        // It is the one that the pass knows.
        ensures fixed { pass.old.fixed ≡ Some (T.fixed result.value) }
        // Those of its number are its own, in their order, each once.
        ensures mine { own T.by pass.old.number (T.entries result.value) ≡ pass.old.mine }
        // Its room fits into what is left of the total.
        ensures room { pass.old.room + sum_by T.cost (T.entries result.value) ≤ T.most (T.fixed result.value) }
        // Number 0 knows that each entry is of a number that it has given.
        ensures numbers { pass.old.number ≡ 0 → AreBelow T.by pass.old.made (T.entries result.value) }
        // Where the pass has the baton, nobody else has added an entry of the prepare tier.
        ensures baton { pass.old.baton ≡ true → AddsEnablesOnly T.prep pass.old.seen (T.entries result.value) }
    {
        let shared = &self.table.shared;
        let moved = gives_way(shared, &self.waiters, &mut pass.courtesy, pass.last);
        // Where nobody has had a turn since this pass's own, the lock's word is as it was.
        if !moved {
            if let Some(value) = try_take::<T, Brand>(shared, &mut pass.seat, pass.last) {
                pass.courtesy.goes_on();
                return Guard { value };
            }
        }
        self.waiters.join();
        let value = wait_for_value::<T, Brand, R>(rt, shared, &mut pass.seat);
        self.waiters.leave();
        pass.courtesy.begins();
        Guard { value }
    }
}
