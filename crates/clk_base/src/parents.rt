//! The possible parents of a clock.

ghost use Rattle.std.specs.Prelude.{◌≡◌, ℕ, List, IfOk};

use crate::clock::ClockId;
use clk_io::NoMemory;
use std::alloc::Global;
use std::marker::Model;

/// The possible parents of a clock in their order, seen by contracts as the list of their places.
#[derive(Debug, Drop)]
pub struct Parents {
    clocks: Vec<ClockId>,
}

impl Model for Parents {
    ghost use Rattle.std.specs.Prelude.{ℕ, List};
    ghost use Rattle.clk_base.specs.Places.{places};

    ghost Value = { List ℕ };

    ghost view = { λ p. places p.clocks.items };
}

impl Parents {
    ghost use Rattle.clk_base.specs.Places.{places};

    /// These clocks as possible parents. Takes no memory.
    pub fn new(clocks: Vec<ClockId>) -> Parents
        ensures { result ≡ places clocks.items }
    {
        Parents { clocks }
    }

    /// The possible parents as a list.
    pub fn as_slice(&self) -> &[ClockId]
        ensures { places result.now ≡ self.now }
    {
        self.clocks.as_slice()
    }

    /// An equal list. Want of memory is its one refusal.
    pub fn copy(&self, alloc: Global) -> Result<Parents, NoMemory>
        ensures { IfOk result (λ parents. parents ≡ self.now) }
    {
        let clocks = Vec::from_slice(alloc, self.clocks.as_slice())?;
        Ok(Parents { clocks })
    }
}
