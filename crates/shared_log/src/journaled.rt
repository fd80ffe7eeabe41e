//! What a shared journal can keep.

ghost use Rattle.std.specs.Prelude.{◌≡◌, ℕ, ◌<◌, List, [], ◌∷◌, ◌++◌, false, sum_by};

use tier_lock::Kept;

/// A core with a journal. Each of its calls makes one entry, which is of the enable tier and costs one
/// of the room.
pub trait Journaled: Kept {
    type Call;

    type Reply;

    // The journals that are legal from a fixed part.
    ghost legal: { Self.Fixed → List Self.Entry → Type 0 };
    // The calls that may be made.
    ghost may: { Self.Fixed → Self.Call → Type 0 };
    // The entry of a driver's call that was answered so.
    ghost entry: { ℕ → Self.Call → Self.Reply → Self.Entry };

    /// Makes a call of a driver.
    fn answer(&mut self, driver: u32, what: &Self::Call) -> Self::Reply
        // There is room for an entry.
        requires room { sum_by Self.cost (Self.entries self.old) < Self.most (Self.fixed self.old) }
        // The call may be made.
        requires may { may (Self.fixed self.old) what.now }
        // Its entry, with this reply, stands at the end.
        ensures entry { Self.entries self.new ≡ Self.entries self.old ++ entry driver what.now result ∷ [] }
        // The fixed part is as it was.
        ensures fixed { Self.fixed self.new ≡ Self.fixed self.old }
        // The journal is legal.
        ensures legal { legal (Self.fixed self.new) (Self.entries self.new) };

    // An entry is of the driver that made the call.
    ghost of_driver: { (d : ℕ) (w : Self.Call) (r : Self.Reply) → Self.by (entry d w r) ≡ d };

    ghost of_enable_tier: { (d : ℕ) (w : Self.Call) (r : Self.Reply) → Self.prep (entry d w r) ≡ false };

    ghost costs_one: { (d : ℕ) (w : Self.Call) (r : Self.Reply) → Self.cost (entry d w r) ≡ 1 };
}

/// A core in a box moves into a turn and out of it by its pointer, however many fields it has.
impl<T: Journaled> Journaled for Box<T> {
    type Call = T::Call;

    type Reply = T::Reply;

    ghost legal = { T.legal };

    ghost may = { T.may };

    ghost entry = { T.entry };

    fn answer(&mut self, driver: u32, what: &T::Call) -> T::Reply {
        (**self).answer(driver, what)
    }

    ghost of_driver = { λ d w r. T.of_driver d w r };

    ghost of_enable_tier = { λ d w r. T.of_enable_tier d w r };

    ghost costs_one = { λ d w r. T.costs_one d w r };
}
