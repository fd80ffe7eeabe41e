//! The visit of a clock, and the clocks that run while something is written.

ghost use Rattle.std.specs.Prelude.{◌≡◌, ◌<◌, ◌==◌, ◌++◌, length, option_map, IfOk};
ghost use Rattle.std.specs.List.{list_any};
ghost use Rattle.clk_base.specs.Description.{kind_of};
ghost use Rattle.clk_base.specs.Flags as flags;
ghost use Rattle.clk_model.specs.Kinds.{has_setting};
ghost use Rattle.clk_model.specs.Script as script;
ghost use Rattle.clk_tree.specs.Plans.{chain_of};
ghost use Rattle.change_walk.specs.Steps.{holds, runs_by_flags};

use bitflags::Flags;
use clk_base::{ClkFlags, ClockId, Kind, Micro};
use clk_io::NoMemory;
use clk_tree::{ChainStep, Tree};

/// Whether the parent of a clock runs while the clock is moved, or its setting is written.
pub fn runs_parent(tree: &Tree, clock: ClockId) -> bool
    requires { clock.0 < length tree.now.defs }
    ensures { result ≡ flags.runs_parent tree.now.defs clock.0 }
{
    Flags::contains(&tree.def(clock).flags, ClkFlags::OPS_PARENT_ENABLE)
}

// Whether a clock runs while its setting is written.
fn runs_to_set(tree: &Tree, clock: ClockId) -> bool
    requires { clock.0 < length tree.now.defs }
    ensures { result ≡ flags.runs_to_set tree.now.defs clock.0 }
{
    Flags::contains(&tree.def(clock).flags, ClkFlags::SET_RATE_UNGATE)
}

// The clock that runs while the setting of a clock is written, as its flags say: itself or its parent.
fn runs_by_flags(tree: &Tree, clock: ClockId) -> Option<ClockId>
    requires { clock.0 < length tree.now.defs }
    ensures { option_map (λ c. c.0) result ≡ runs_by_flags tree.now.defs tree.now.clocks clock.0 }
{
    if runs_to_set(tree, clock) {
        return Some(clock);
    }
    if runs_parent(tree, clock) {
        return tree.parent(clock);
    }
    None
}

// Whether a planned rate is set in a field of a clock.
fn has_setting(tree: &Tree, clock: ClockId) -> bool
    requires { clock.0 < length tree.now.defs }
    ensures { result ≡ has_setting (kind_of tree.now.defs clock.0) }
{
    matches!(
        tree.def(clock).kind,
        Kind::Divider { .. } | Kind::Pll { .. }
    )
}

// Whether a chain has a step of a clock.
fn is_planned(chain: &[ChainStep], clock: ClockId) -> bool
    ensures { result ≡ list_any (λ k. k.clock == clock.0) (chain_of chain.now) }
{
    chain.iter().any(|step| step.clock.0 == clock.0)
}

// The clock that runs while the planned setting of a clock is written, if it has one and its flags
// name a clock.
fn runs_for(tree: &Tree, chain: &[ChainStep], clock: ClockId) -> Option<ClockId>
    requires { clock.0 < length tree.now.defs }
    ensures { option_map (λ c. c.0) result
        ≡ script.runs_for tree.now.defs tree.now.clocks (chain_of chain.now) clock.0 }
{
    let running = runs_by_flags(tree, clock)?;
    if has_setting(tree, clock) && is_planned(chain, clock) {
        Some(running)
    } else {
        None
    }
}

/// Holds a clock that is powered.
pub(crate) fn hold(steps: &mut Vec<Micro>, clock: ClockId) -> Result<(), NoMemory>
    ensures { IfOk result (λ done. steps.new.items ≡ steps.old.items ++ holds clock) }
{
    steps.push(Micro::HoldPrepare(clock))?;
    steps.push(Micro::HoldEnable(clock))?;
    Ok(())
}

/// Keeps a clock running.
pub(crate) fn feed(steps: &mut Vec<Micro>, clock: ClockId) -> Result<(), NoMemory>
    ensures { IfOk result (λ done. steps.new.items ≡ steps.old.items ++ script.feed clock.0) }
{
    steps.push(Micro::Raise(clock))?;
    hold(steps, clock)?;
    Ok(())
}

/// Lets a clock go that was kept running.
pub(crate) fn unfeed(steps: &mut Vec<Micro>, clock: ClockId) -> Result<(), NoMemory>
    ensures { IfOk result (λ done. steps.new.items ≡ steps.old.items ++ script.unfeed clock.0) }
{
    steps.push(Micro::DropEnable(clock))?;
    steps.push(Micro::DropPrepare(clock))?;
    steps.push(Micro::Lower(clock))?;
    Ok(())
}

/// Adds a step, within the steps that keep a clock running for it, if one is to run.
pub fn push_fed(
    steps: &mut Vec<Micro>,
    running: Option<ClockId>,
    step: Micro,
) -> Result<(), NoMemory>
    ensures { IfOk result (λ done. steps.new.items
        ≡ steps.old.items ++ script.fed_step (option_map (λ c. c.0) running) step) }
{
    let Some(running) = running else {
        steps.push(step)?;
        return Ok(());
    };
    feed(steps, running)?;
    steps.push(step)?;
    unfeed(steps, running)?;
    Ok(())
}

/// The visit of a clock, within what keeps a clock running for it.
pub(crate) fn visit(
    steps: &mut Vec<Micro>,
    tree: &Tree,
    chain: &[ChainStep],
    clock: ClockId,
) -> Result<(), NoMemory>
    requires { clock.0 < length tree.now.defs }
    ensures { IfOk result (λ done. steps.new.items
        ≡ steps.old.items ++ script.visit_of tree.now.defs tree.now.clocks (chain_of chain.now) clock.0) }
{
    push_fed(steps, runs_for(tree, chain, clock), Micro::Visit(clock))
}
