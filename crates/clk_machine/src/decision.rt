//! How a call begins, as it was decided over a copy of the prepare tier.

use change_walk::StepList;
use clk_base::Reply;
use clk_tree::Plan;

/// How a call begins, as it was decided over a copy of the prepare tier of a core.
#[derive(Drop)]
pub enum Decision {
    /// It is answered so at once.
    Reply(Reply),
    /// It goes on with this plan and its script, if there is room for the entries of its steps.
    Script { plan: Plan, steps: StepList },
    /// It is decided inside its own turn.
    Inside,
}
