//! When a pass leaves the lock to those that wait.

// The turns in a row after which a pass is to leave the lock, where those that wait have a processor.
const FEWEST: u32 = 8;

// The most that come of it where they have none.
const MOST: u32 = 256;

/// How many turns a pass has had in a row, and after how many it leaves the lock to another that
/// waits. It is a hint: no clause rests on it.
#[derive(Drop)]
pub(crate) struct Courtesy {
    turns: u32,
    bound: u32,
}

impl Courtesy {
    /// Of a pass that has had no turn.
    pub(crate) fn new() -> Courtesy {
        Courtesy {
            turns: 0,
            bound: FEWEST,
        }
    }

    /// Whether the pass has had its turns in a row.
    pub(crate) fn is_due(&self) -> bool {
        self.turns >= self.bound
    }

    /// One turn more, with no other pass's between.
    pub(crate) fn goes_on(&mut self) {
        self.turns = self.turns.saturating_add(1);
    }

    /// The first turn after another pass's.
    pub(crate) fn begins(&mut self) {
        self.turns = 1;
    }

    /// The lock was left to those that wait. Where one of them has taken it, it is left after few turns
    /// again; else who waits has no processor, and the next time comes later.
    pub(crate) fn was_left(&mut self, taken: bool) {
        self.turns = 0;
        self.bound = if taken {
            FEWEST
        } else {
            self.bound.saturating_mul(2).min(MOST)
        };
    }
}
