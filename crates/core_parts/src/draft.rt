//! What a change is worked out in before it begins.

use change_walk::{Changed, StepList};
use rate_planner::Planning;
use std::alloc::Global;

/// What a change of a rate or a parent is worked out in, before anything changes: its plan, its script,
/// and the clocks that it tells. Its lists keep their memory from change to change, so that one as long
/// as an earlier one takes none.
#[derive(Drop)]
pub struct Draft {
    pub planning: Planning,
    pub script: StepList,
    pub told: Vec<Changed>,
}

impl Draft {
    /// Nothing is worked out. Takes no memory.
    pub fn none(alloc: Global) -> Draft {
        Draft {
            planning: Planning::none(alloc),
            script: StepList::none(alloc),
            told: Vec::new(alloc),
        }
    }
}
