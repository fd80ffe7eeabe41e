//! A turn ends.
ghost use Rattle.std.specs.Prelude.{◌≡◌, ◌<◌, ◌≤◌, true, false, [], ◌∷◌, length, Some};
ghost use Rattle.tier_lock.specs.Entries.{own, Adds};
ghost use Rattle.tier_lock.specs.Known.{added};
ghost use Rattle.tier_lock.specs.Sits.{IsOf, in_hand};

use crate::guard::Guard;
use crate::kept::Kept;
use crate::lock::Lock;
use crate::pass::Pass;
use crate::plays::{Give, GiveBack};
use crate::rule::{SeatOf, SharedOf};

// The value goes back into the slot, which stays with the seat.
fn refill<T: Kept>(shared: &SharedOf<T>, seat: &mut SeatOf<T>, value: T)
    requires table { IsOf shared.now.table_id seat.old.table_id }
    requires hand { seat.old.me.1 ≡ in_hand true }
    ensures same { (seat.new.table_id ≡ seat.old.table_id) × (seat.new.id ≡ seat.old.id) }
    ensures view { seat.new.me.0 ≡ seat.old.me.0 }
    ensures hand { seat.new.me.1 ≡ (0, Some value) ∷ [] }
{
    let None = shared.exchange(seat, 0, Some(value)) else {
        unreachable!()
    };
}

impl<T: Kept> Lock<T> {
    /// Ends the turn with the one entry that the value has more. It is of this pass's number, and of the prepare tier only where the pass has the baton.
    pub fn give_entry(&self, pass: &mut Pass<T>, guard: Guard<T>)
        // The pass is one of this lock.
        requires lock { pass.old.table ≡ self.now.table }
        // It is in its turn.
        requires turn { pass.old.turn ≡ true }
        // The fixed part of the value is as it was.
        requires fixed { pass.old.fixed ≡ Some (T.fixed guard.value) }
        // The value has exactly one entry more than the pass has seen.
        requires one_more { (e : T.Entry) × Adds pass.old.seen (T.entries guard.value) e }
        // It is of this pass's number.
        requires driver { (e : T.Entry) → Adds pass.old.seen (T.entries guard.value) e → T.by e ≡ pass.old.number }
        // The room covers its cost.
        requires cost { (e : T.Entry) → Adds pass.old.seen (T.entries guard.value) e → T.cost e ≤ pass.old.room }
        // It is of the prepare tier only where the pass has the baton.
        requires tier { (e : T.Entry) → Adds pass.old.seen (T.entries guard.value) e → T.prep e ≡ true → pass.old.baton ≡ true }
        // The entry stands at the end of what the pass has seen and of its own, the turn has ended, and the room has fallen by its cost.
        ensures added { (e : T.Entry) → Adds pass.old.seen (T.entries guard.value) e → pass.new ≡ added T.cost e pass.old }
        // The entries of its number in what it has seen are its own.
        ensures mine { own T.by pass.new.number pass.new.seen ≡ pass.new.mine }
    {
        let Guard { value } = guard;
        let cost = value.last_cost();
        let shared = &self.table.shared;
        refill(shared, &mut pass.seat, value);
        let word = shared.fetch_add::<Give<T>>(&mut pass.seat, 0, 1);
        pass.last = word.wrapping_add(1);
        pass.room -= cost;
    }

    /// Ends the turn without an entry.
    pub fn give_back(&self, pass: &mut Pass<T>, guard: Guard<T>)
        // The pass is one of this lock.
        requires lock { pass.old.table ≡ self.now.table }
        // It is in its turn.
        requires turn { pass.old.turn ≡ true }
        // The fixed part of the value is as it was.
        requires fixed { pass.old.fixed ≡ Some (T.fixed guard.value) }
        // The value has no entry more.
        requires same { T.entries guard.value ≡ pass.old.seen }
        // The turn has ended, and nothing else has changed.
        ensures { pass.new ≡ record pass.old { turn = false } }
    {
        let Guard { value } = guard;
        let shared = &self.table.shared;
        refill(shared, &mut pass.seat, value);
        let word = shared.fetch_sub::<GiveBack<T>>(&mut pass.seat, 0, 1);
        pass.last = word.wrapping_sub(1);
    }
}
