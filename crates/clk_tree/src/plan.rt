//! What planning gives.

ghost use Rattle.std.specs.Prelude.{◌≡◌, [], false};

use crate::chain::PlannedChain;
use crate::walk_rates::WalkRates;
use std::alloc::Global;

/// A plan: the clocks that a request changes, and the rates that come out of it. Its lists keep their
/// memory from plan to plan.
#[derive(Debug, Drop)]
pub struct Plan {
    /// From the clock of the request to the top. Of a change of parent it is the one clock, with
    /// the rate that comes out and the new parent.
    pub chain: PlannedChain,
    /// The rate of each clock of the walk.
    pub rates: WalkRates,
    /// Whether the request is a change of parent.
    pub set_parent: bool,
}

impl Plan {
    /// No chain and no walk. Takes no memory.
    pub fn none(alloc: Global) -> Plan
        ensures { result ≡ record { chain = []; rates = []; set_parent = false } }
    {
        Plan {
            chain: PlannedChain::none(alloc),
            rates: WalkRates::none(alloc),
            set_parent: false,
        }
    }
}
