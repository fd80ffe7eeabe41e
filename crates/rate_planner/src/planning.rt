//! What plans are worked out in.

ghost use Rattle.std.specs.Prelude.{◌≡◌, [], false};

use clk_tree::Plan;
use std::alloc::Global;

/// A plan, and what is kept while it is worked out. The lists keep their memory from plan to plan, so
/// that one as long as an earlier one takes none.
#[derive(Drop)]
pub struct Planning {
    /// The plan that was worked out last, if there was one.
    pub plan: Plan,
    /// The rates in Hz that come out for the clocks of its chain.
    pub(crate) out: Vec<u64>,
}

impl Planning {
    /// No plan. Takes no memory.
    pub fn none(alloc: Global) -> Planning
        ensures { result.plan ≡ record { chain = []; rates = []; set_parent = false } }
    {
        Planning {
            plan: Plan::none(alloc),
            out: Vec::new(alloc),
        }
    }
}
