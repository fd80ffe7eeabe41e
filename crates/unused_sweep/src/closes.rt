//! The steps that close a gate.

ghost use Rattle.std.specs.Prelude.{◌≡◌, ◌<◌, ◌++◌, None, length, if◌then◌else◌, IfOk};
ghost use Rattle.std.specs.Option.{option_map};
ghost use Rattle.clk_base.specs.Flags as flags;
ghost use Rattle.clk_model.specs.Script.{close_of};
ghost use Rattle.clk_model.specs.State.{link_in};

use change_walk::{push_fed, runs_parent};
use clk_base::{ClockId, Micro};
use clk_io::NoMemory;
use clk_tree::Tree;

// The parent that runs while a clock's gate closes, if the clock's flags say so and it has one.
fn running_parent(tree: &Tree, clock: ClockId) -> Option<ClockId>
    requires { clock.0 < length tree.now.defs }
    ensures { option_map (λ c. c.0) result
        ≡ (if flags.runs_parent tree.now.defs clock.0 then link_in tree.now.clocks clock.0 else None) }
{
    if runs_parent(tree, clock) {
        tree.parent(clock)
    } else {
        None
    }
}

/// Adds the steps that close a clock's gate: its parent runs meanwhile, if the clock's flags say so.
/// If memory runs out, some of them may have been added.
pub fn push_close(steps: &mut Vec<Micro>, tree: &Tree, clock: ClockId) -> Result<(), NoMemory>
    requires { clock.0 < length tree.now.defs }
    ensures { IfOk result (λ done. steps.new.items
        ≡ steps.old.items ++ close_of tree.now.defs tree.now.clocks clock.0) }
{
    push_fed(steps, running_parent(tree, clock), Micro::Close(clock))
}
