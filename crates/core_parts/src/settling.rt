//! The last requests of a clock and of all clocks below it.

ghost use Rattle.std.specs.Prelude.{◌≡◌, ◌<◌, length, slice_index};
ghost use Rattle.clk_model.specs.Tree.{children};
ghost use Rattle.clk_model.specs.Walk.{below_within};
ghost use Rattle.clk_tree.specs.TreeState.{IsTree};
ghost use Rattle.core_parts.specs.Settling.{settled_rows};

use clk_base::ClockId;
use clk_tree::Tree;

/// Makes the kept rate of a clock its last request, and does so for the clocks below it within so many
/// levels.
pub fn settle_below(levels: u32, tree: &mut Tree, clock: ClockId)
    requires place { clock.0 < length tree.old.defs }
    ensures clocks { tree.new.clocks ≡ settled_rows (slice_index tree.old.rates) tree.old.clocks
        (below_within (children tree.old.order tree.old.clocks) levels clock.0) }
    ensures order { tree.new.order ≡ tree.old.order }
    ensures rates { tree.new.rates ≡ tree.old.rates }
    ensures defs { tree.new.defs ≡ tree.old.defs }
    ensures checked { tree.new.words ≡ tree.old.words }
    ensures stands { IsTree tree.new.defs tree.new.clocks tree.new.order tree.new.rates }
{
    let rate = tree.rate(clock);
    if levels == 0 {
        return;
    }
    tree.set_last_request(clock, rate);
    let mut next = tree.first_child(clock);
    for _step in 0..tree.len() {
        let Some(child) = next else {
            return;
        };
        settle_below(levels - 1, tree, child);
        next = tree.next_sibling(child);
    }
}
