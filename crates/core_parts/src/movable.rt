//! Whether the moves of a planned chain can be made.

ghost use Rattle.std.specs.Prelude.{◌≡◌, Some};
ghost use Rattle.clk_tree.specs.Plans.{chain_of, step_of};
ghost use Rattle.core_parts.specs.Movable.{can_get, can_go, can_go_along};

use crate::reparenting::is_candidate;
use clk_base::ClockId;
use clk_tree::{ChainStep, Tree, step_at};

// Whether a clock can get a parent: it has a link, and the parent is that one, or a candidate.
fn can_get(tree: &Tree, clock: ClockId, parent: ClockId) -> bool
    ensures { result ≡ can_get tree.now.defs tree.now.clocks clock.0 parent.0 }
{
    let Some(link) = tree.parent(clock) else {
        return false
    };
    link.0 == parent.0 || is_candidate(tree, clock, parent)
}

// Whether a step of a chain can be made.
fn can_go(tree: &Tree, sets_parent: bool, step: ChainStep) -> bool
    ensures { result ≡ can_go sets_parent tree.now.defs tree.now.clocks (step_of step) }
{
    match step.parent {
        Some(parent) => can_get(tree, step.clock, parent),
        None => !sets_parent,
    }
}

/// Whether each step of a planned chain can be made. Of a planned chain that the registers' rates
/// lead to each can.
pub fn can_go_along(tree: &Tree, sets_parent: bool, chain: &[ChainStep]) -> bool
    ensures { result ≡ can_go_along sets_parent tree.now.defs tree.now.clocks (chain_of chain.now) }
{
    for place in 0..chain.len() {
        if !can_go(tree, sets_parent, step_at(chain, place)) {
            return false;
        }
    }
    true
}
