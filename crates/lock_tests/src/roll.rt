//! A list of numbers, each with the driver that added it.
ghost use Rattle.std.specs.Prelude.{◌≡◌, [], ◌∷◌, ◌++◌, OnOk, OnErr};

use std::alloc::{AllocError, Global};
use tier_lock::Kept;

#[derive(Clone, Copy)]
pub struct Line {
    pub driver: u32,
    pub number: u32,
    /// Whether only the driver with the baton may add it.
    pub prepares: bool,
}

#[derive(Drop)]
pub struct Roll {
    pub lines: Vec<Line>,
    pub most: u32,
}

impl Roll {
    pub fn new(alloc: Global, most: u32) -> Roll
        ensures lines { result.lines.items ≡ [] }
        ensures most { result.most ≡ most }
    {
        Roll {
            lines: Vec::new(alloc),
            most,
        }
    }

    pub fn add(&mut self, line: Line) -> Result<(), AllocError>
        ensures most { self.new.most ≡ self.old.most }
        ensures ok { OnOk result (self.new.lines.items ≡ self.old.lines.items ++ line ∷ []) }
        ensures err { OnErr result (self.new.lines.items ≡ self.old.lines.items) }
    {
        self.lines.push(line)?;
        Ok(())
    }
}

impl Kept for Roll {
    ghost use Rattle.std.proofs.Common.{arith};

    type Entry = Line;

    type Fixed = u32;

    ghost entries = { λ r. r.lines.items };

    ghost fixed = { λ r. r.most };

    ghost by = { λ l. l.driver };

    ghost prep = { λ l. l.prepares };

    ghost cost = { λ _. 1 };

    ghost most = { λ n. n };

    fn total(&self) -> u32 {
        self.most
    }

    fn last_cost(&self) -> u32 {
        if self.lines.is_empty() { 0 } else { 1 }
    }

    ghost costs_little = { λ _. Prim.omega arith };
}
