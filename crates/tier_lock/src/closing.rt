//! The lock ends, and gives its value.
ghost use Rattle.std.specs.Prelude.{◌≡◌, ◌+◌, ◌≤◌, All, IsOk, IfOk, Some, sum_by};
ghost use Rattle.tier_lock.specs.Entries.{reading, own, IsPrefix, AddsEnablesOnly, AreBelow};
ghost use Rattle.tier_lock.specs.Known.{IsIdle, AreAll};
ghost use Rattle.tier_lock.specs.Sits.{IsOf};
ghost use Rattle.tier_lock.specs.Closing.{KeepsAll, AllEnded, Closed, with_passes};

use crate::baton::Baton;
use crate::kept::Kept;
use crate::lock::Lock;
use crate::pass::Pass;
use crate::plays::End;
use crate::rule::{SeatOf, SharedOf, TableOf};
use clk_io::NoMemory;

/// The refusal in the type of `close`, which always closes: all that it was handed, and why.
pub type Unclosed<T> = (Lock<T>, Vec<Pass<T>>, Baton<T>, NoMemory);

// The baton's seat takes in what each pass knew, and its room.
fn end_all<T: Kept>(shared: &SharedOf<T>, keeper: &mut SeatOf<T>, passes: Vec<Pass<T>>)
    requires table { IsOf shared.now.table_id keeper.old.table_id }
    requires keeper { KeepsAll keeper.old.me }
    requires idle { All (λ p. IsIdle shared.now.table_id p) passes.items }
    ensures same { (keeper.new.table_id ≡ keeper.old.table_id) × (keeper.new.id ≡ keeper.old.id) }
    ensures view { keeper.new.me ≡ (with_passes passes.items keeper.old.me.0, keeper.old.me.1) }
{
    for pass in passes {
        let Pass {
            seat,
            number: _,
            room: _,
            made: _,
            last: _,
            courtesy: _,
        } = pass;
        shared.join_seat::<End>(keeper, seat);
    }
}

// No pass is left, so the value is in the slot.
fn value_of<T: Kept>(table: TableOf<T>, keeper: SeatOf<T>) -> T
    requires table { IsOf table.shared.table_id keeper.table_id }
    requires keeper { KeepsAll keeper.me }
    requires all { AllEnded keeper.me.0.ended }
    ensures { Closed (reading T.entries T.fixed T.by T.prep T.cost T.most) (T.fixed table.shared.key.value) keeper.me.0 result }
{
    let mut closed = table.close_with(keeper);
    let slot = closed.take(0);
    closed.free();
    let Some(value) = slot else { unreachable!() };
    value
}

impl<T: Kept> Lock<T> {
    /// Ends all passes and the baton, and gives the value. Takes no memory.
    pub fn close(self, passes: Vec<Pass<T>>, baton: Baton<T>) -> Result<T, Unclosed<T>>
        // The baton is of this lock.
        requires baton { baton.table ≡ self.table }
        // So are the passes, none of them in a turn.
        requires idle { All (λ p. IsIdle self.table p) passes.items }
        // They are all passes that were made.
        requires all { AreAll passes.items }
        // The lock always closes.
        ensures closes { IsOk result }
        // The value has the lock's fixed part.
        ensures fixed { IfOk result (λ value. T.fixed value ≡ self.fixed) }
        // Its entries continue what each pass had seen.
        ensures seen { IfOk result (λ value. All (λ p. IsPrefix p.seen (T.entries value)) passes.items) }
        // Those of each pass's number are that pass's own.
        ensures mine { IfOk result (λ value. All (λ p. own T.by p.number (T.entries value) ≡ p.mine) passes.items) }
        // Each is of a number that was given.
        ensures numbers { IfOk result (λ value. All (λ p. p.number ≡ 0 → AreBelow T.by p.made (T.entries value)) passes.items) }
        // Each pass knew the fixed part of the value.
        ensures pass_fixed { IfOk result (λ value. All (λ p. p.fixed ≡ Some (T.fixed value)) passes.items) }
        // So did the baton.
        ensures baton_fixed { IfOk result (λ value. baton.fixed ≡ Some (T.fixed value)) }
        // Behind what the baton had seen stand entries of the enable tier alone.
        ensures behind { IfOk result (λ value. AddsEnablesOnly T.prep baton.seen (T.entries value)) }
        // All rooms that are left and all costs fit into the total.
        ensures room { IfOk result (λ value. sum_by (λ p. p.room) passes.items + sum_by T.cost (T.entries value) ≤ T.most (T.fixed value)) }
    {
        let Lock { table, waiters: _ } = self;
        let Baton { seat: mut keeper } = baton;
        end_all(&table.shared, &mut keeper, passes);
        Ok(value_of(table, keeper))
    }
}
