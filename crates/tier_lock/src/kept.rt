//! What a lock can keep.
ghost use Rattle.std.specs.Prelude.{◌≡◌, ℕ, ◌<◌, ◌≤◌, ◌^◌, Bool, List, [], ◌∷◌, ◌++◌, length};

/// A value that is a log of entries. Contracts see its entries and its fixed part, and nothing else.
pub trait Kept: Drop {
    type Entry;
    /// Plain data.
    type Fixed;

    ghost entries: { Self → List Self.Entry };

    ghost fixed: { Self → Self.Fixed };
    // Of an entry: the number of its driver, whether it is of the prepare tier, and what it costs.
    ghost by: { Self.Entry → ℕ };

    ghost prep: { Self.Entry → Bool };

    ghost cost: { Self.Entry → ℕ };
    // What all entries may cost together.
    ghost most: { Self.Fixed → ℕ };

    /// What all entries may cost together.
    fn total(&self) -> u32
        ensures { result ≡ most (fixed self.now) };

    /// What the last entry cost; 0 where there is none.
    fn last_cost(&self) -> u32
        ensures last { (before : List Self.Entry) (e : Self.Entry) → entries self.now ≡ before ++ e ∷ [] → result ≡ cost e }
        ensures none { entries self.now ≡ [] → result ≡ 0 }
        // The entries are no more than memory can have.
        ensures few { length (entries self.now) < 2 ^ 63 };

    ghost costs_little: { (e : Self.Entry) → cost e ≤ 1 };
}

/// A value in a box moves into a turn and out of it by its pointer, however long it is.
impl<T: Kept> Kept for Box<T> {
    type Entry = T::Entry;

    type Fixed = T::Fixed;

    ghost entries = { λ b. T.entries b.value };

    ghost fixed = { λ b. T.fixed b.value };

    ghost by = { T.by };

    ghost prep = { T.prep };

    ghost cost = { T.cost };

    ghost most = { T.most };

    fn total(&self) -> u32 {
        (**self).total()
    }

    fn last_cost(&self) -> u32 {
        (**self).last_cost()
    }

    ghost costs_little = { λ e. T.costs_little e };
}
