//! The rates that a plan gives the clocks of its walk.

ghost use Rattle.std.specs.Prelude.{◌≡◌, ◌<◌, ◌++◌, ◌∷◌, [], true, Some, length, slice_get, OnErr, OnOk};
ghost use Rattle.clk_model.specs.State.{registered};
ghost use Rattle.clk_tree.specs.Plans.{AreThere, rates_of};

use crate::tree::Tree;
use clk_base::ClockId;
use clk_io::NoMemory;
use std::alloc::Global;
use std::marker::Model;

/// A clock of a walk, and the rate in Hz that it will have.
#[derive(Clone, Copy, Debug, PartialEq, Eq)]
pub struct WalkRate {
    pub clock: ClockId,
    pub rate: u64,
}

/// The clock of a walk at a place with its rate. It is one of the tree.
pub fn rate_at(tree: &Tree, rates: &[WalkRate], place: usize) -> WalkRate
    requires place { place < length rates.now }
    requires there { AreThere tree.now.clocks (rates_of rates.now) }
    ensures at { slice_get rates.now place ≡ Some result }
    ensures there { registered tree.now.clocks result.clock.0 ≡ true }
    ensures inside { result.clock.0 < length tree.now.defs }
    ensures rated { result.clock.0 < length tree.now.rates }
{
    let entry = rates[place];
    let _there = tree.registered(entry.clock);
    entry
}

/// The clocks of a walk in its order with their rates, seen by contracts as a list.
#[derive(Debug, Drop)]
pub struct WalkRates {
    rates: Vec<WalkRate>,
}

impl Model for WalkRates {
    ghost use Rattle.std.specs.Prelude.{List};
    ghost use Rattle.clk_tree.specs.Plans.{ClockRate, rates_of};

    ghost Value = { List ClockRate };

    ghost view = { λ w. rates_of w.rates.items };
}

impl WalkRates {
    /// No clock. Takes no memory.
    pub fn none(alloc: Global) -> WalkRates
        ensures { result ≡ [] }
    {
        WalkRates {
            rates: Vec::new(alloc),
        }
    }

    /// No clock any more. The list keeps its memory.
    pub fn clear(&mut self)
        ensures { self.new ≡ [] }
    {
        self.rates.clear();
    }

    /// A clock with its rate behind these. Its one refusal is that memory runs out.
    pub fn push(&mut self, rate: WalkRate) -> Result<(), NoMemory>
        ensures pushed { OnOk result (self.new ≡ self.old ++ rates_of (rate ∷ [])) }
        ensures err { OnErr result (self.new ≡ self.old) }
    {
        self.rates.push(rate)?;
        Ok(())
    }

    /// These rates in the walk's order. Takes no memory.
    pub fn new(rates: Vec<WalkRate>) -> WalkRates
        ensures { result ≡ rates_of rates.items }
    {
        WalkRates { rates }
    }

    /// The clocks with their rates, in the walk's order.
    pub fn as_slice(&self) -> &[WalkRate]
        ensures { rates_of result.now ≡ self.now }
    {
        self.rates.as_slice()
    }
}
