//! Trees of clocks, each clock behind all that stand below it.

ghost use Rattle.std.specs.Prelude.{◌≡◌, ℕ, ◌+◌, ◌<◌, ◌≤◌, ◌++◌, List, length, slice_get, drop, map, IfOk};
ghost use Rattle.std.specs.Option.{option_map};
ghost use Rattle.clk_model.specs.State.{State};
ghost use Rattle.clk_model.specs.Script.{sweep_order};
ghost use Rattle.unused_sweep.specs.Together.{StandTogether, trees};

use clk_base::{ClockId, depth};
use clk_io::NoMemory;
use clk_tree::Tree;
use std::alloc::Global;

/// The trees of the roots and then of the orphans, children before their parent. Want of memory is
/// its one refusal.
pub fn sweep_order(alloc: Global, tree: &Tree) -> Result<Vec<ClockId>, NoMemory>
    ensures { (s : State) → s.defs ≡ tree.now.defs → s.clocks ≡ tree.now.clocks → s.order ≡ tree.now.order → IfOk result (λ order. map (λ c. c.0) order.items ≡ sweep_order s) }
{
    let mut order = Vec::new(alloc);
    // The roots; without any the orphans, and then none are left.
    let done = push_trees(tree, depth(), tree.top(0), &mut order)?;
    push_trees(tree, depth(), tree.top(done), &mut order)?;
    Ok(order)
}

// Adds the trees of a clock and of those that stand behind it among the children of its parent, the
// roots or the orphans, each tree cut to so many levels. Tells how many there are.
fn push_trees(
    tree: &Tree,
    levels: u32,
    first: Option<ClockId>,
    order: &mut Vec<ClockId>,
) -> Result<usize, NoMemory>
    ensures pushed { (cs : List ℕ) (k : ℕ) → StandTogether tree.now cs → option_map (λ c. c.0) first ≡ slice_get cs k
        → IfOk result (λ count. map (λ c. c.0) order.new.items ≡ map (λ c. c.0) order.old.items ++ trees tree.now levels (drop k cs)) }
    ensures counted { (cs : List ℕ) (k : ℕ) → StandTogether tree.now cs → option_map (λ c. c.0) first ≡ slice_get cs k
        → 0 < levels → k ≤ length cs → IfOk result (λ count. k + count ≡ length cs) }
{
    if levels == 0 {
        return Ok(0);
    }
    let mut at = first;
    for count in 0..usize::MAX {
        let Some(clock) = at else {
            return Ok(count);
        };
        push_trees(tree, levels - 1, tree.first_child(clock), order)?;
        order.push(clock)?;
        at = tree.next_sibling(clock);
    }
    Ok(usize::MAX)
}
