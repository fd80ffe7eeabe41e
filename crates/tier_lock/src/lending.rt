//! The baton goes to a pass, and comes back.
ghost use Rattle.std.specs.Prelude.{◌≡◌, true, false};
ghost use Rattle.tier_lock.specs.Entries.{own, IsPrefix, AddsEnablesOnly, longer_of};
ghost use Rattle.tier_lock.specs.Known.{baton_of};

use crate::baton::Baton;
use crate::kept::Kept;
use crate::lock::Lock;
use crate::pass::Pass;
use crate::plays::{HandBack, Lend, Settle};

impl<T: Kept> Lock<T> {
    /// Gives the baton to a pass, which has then seen as much as the baton had.
    pub fn lend(&self, pass: &mut Pass<T>, baton: Baton<T>)
        // The pass is one of this lock.
        requires lock { pass.old.table ≡ self.now.table }
        // So is the baton.
        requires baton { baton.table ≡ self.now.table }
        // The pass isn't in a turn.
        requires idle { pass.old.turn ≡ false }
        // The pass has the baton, and has seen the longer of what both had seen.
        ensures lent { pass.new ≡ record pass.old { baton = true; seen = longer_of pass.old.seen baton.seen } }
        // What the pass had seen is a front of that.
        ensures seen { IsPrefix pass.old.seen pass.new.seen }
        // So is what the baton had seen.
        ensures baton_seen { IsPrefix baton.seen pass.new.seen }
        // Behind what the baton had seen stand entries of the enable tier alone.
        ensures behind { AddsEnablesOnly T.prep baton.seen pass.new.seen }
        // The entries of the pass's number in what it has seen are its own.
        ensures mine { own T.by pass.new.number pass.new.seen ≡ pass.new.mine }
        // Both know the same fixed part.
        ensures fixed { pass.old.fixed ≡ baton.fixed }
    {
        let Baton { seat } = baton;
        let shared = &self.table.shared;
        shared.join_seat::<Lend>(&mut pass.seat, seat);
        shared.load::<Settle<T>>(&mut pass.seat, 0);
    }

    /// Takes the baton from a pass. It has seen what the pass has.
    pub fn hand_back(&self, pass: &mut Pass<T>) -> Baton<T>
        // The pass is one of this lock.
        requires lock { pass.old.table ≡ self.now.table }
        // It isn't in a turn.
        requires idle { pass.old.turn ≡ false }
        // It has the baton.
        requires baton { pass.old.baton ≡ true }
        // The pass has it no longer, and is else as it was.
        ensures pass { pass.new ≡ record pass.old { baton = false } }
        // The baton has seen what the pass has.
        ensures baton { result ≡ baton_of pass.old }
    {
        let seat = self.table.shared.split_seat::<HandBack>(&mut pass.seat);
        Baton { seat }
    }
}
