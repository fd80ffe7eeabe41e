//! The moves of a walk, each with the visit after it.

ghost use Rattle.std.specs.Prelude.{◌≡◌, ◌<◌, ◌≤◌, ◌==◌, ◌++◌, ◌∷◌, [], true, false, length, flat_map, filter, ◌&&◌, IfOk};
ghost use Rattle.std.specs.List.{position_or_len};
ghost use Rattle.std.specs.Option.{option_map_or};
ghost use Rattle.clk_base.specs.declared.call.Micro.TheVariants as micro;
ghost use Rattle.clk_model.specs.Chain as chain;
ghost use Rattle.clk_model.specs.Script as script;
ghost use Rattle.clk_tree.specs.Plans.{AreThere, chain_of, rates_of, step_of};
ghost use Rattle.change_walk.specs.Steps.{drops, fed_move, visits};

use crate::visits::{feed, hold, runs_parent, unfeed, visit};
use clk_base::{ClockId, Micro};
use clk_io::NoMemory;
use clk_tree::{ChainStep, Tree, View, WalkRate, rate_at, step_at};

// The first place of a parent in a list, or the one after its end.
fn place_in(parents: &[ClockId], parent: ClockId) -> usize
    ensures place { result ≡ position_or_len (λ other. other.0 == parent.0) parents.now }
    ensures few { result ≤ length parents.now }
{
    for place in 0..parents.len() {
        if parents[place].0 == parent.0 {
            return place;
        }
    }
    parents.len()
}

// The place of a parent in the list of a clock.
fn place_of(tree: &Tree, clock: ClockId, parent: ClockId) -> u32
    requires { clock.0 < length tree.now.defs }
    ensures { result ≡ chain.place_of tree.now.defs clock.0 parent.0 }
{
    let place = place_in(tree.def(clock).parents.as_slice(), parent);
    place as u32
}

// Links a clock to a parent and writes its field, and no more.
fn relink(
    steps: &mut Vec<Micro>,
    tree: &Tree,
    clock: ClockId,
    parent: ClockId,
) -> Result<(), NoMemory>
    requires { clock.0 < length tree.now.defs }
    ensures { IfOk result (λ done. steps.new.items
        ≡ steps.old.items ++ micro.Relink clock parent ∷ micro.WriteMux clock (chain.place_of tree.now.defs clock.0 parent.0) ∷ []) }
{
    steps.push(Micro::Relink(clock, parent))?;
    steps.push(Micro::WriteMux(clock, place_of(tree, clock, parent)))?;
    Ok(())
}

// Lets go of the parent that a clock had, if it had one.
fn drop_old(steps: &mut Vec<Micro>, tree: &Tree, clock: ClockId) -> Result<(), NoMemory>
    ensures { IfOk result (λ done. steps.new.items ≡ steps.old.items ++ drops tree.now.clocks clock.0) }
{
    let Some(old) = tree.parent(clock) else {
        return Ok(())
    };
    unfeed(steps, old)
}

// Moves a prepared clock to a parent, which runs before, while the old one runs on until after.
fn move_held(
    steps: &mut Vec<Micro>,
    tree: &Tree,
    clock: ClockId,
    parent: ClockId,
) -> Result<(), NoMemory>
    requires { clock.0 < length tree.now.defs }
    ensures { IfOk result (λ done. steps.new.items
        ≡ steps.old.items ++ script.move tree.now.defs tree.now.clocks (λ c. true) clock.0 parent.0) }
{
    feed(steps, parent)?;
    steps.push(Micro::HoldEnable(clock))?;
    relink(steps, tree, clock, parent)?;
    steps.push(Micro::DropEnable(clock))?;
    drop_old(steps, tree, clock)?;
    Ok(())
}

// Moves a clock that isn't prepared to a parent while both run, and the old parent until after.
fn move_fed(
    steps: &mut Vec<Micro>,
    tree: &Tree,
    clock: ClockId,
    parent: ClockId,
) -> Result<(), NoMemory>
    requires { clock.0 < length tree.now.defs }
    ensures { IfOk result (λ done. steps.new.items
        ≡ steps.old.items ++ fed_move tree.now.defs tree.now.clocks clock.0 parent.0) }
{
    steps.push(Micro::Raise(clock))?;
    steps.push(Micro::Raise(parent))?;
    hold(steps, clock)?;
    hold(steps, parent)?;
    relink(steps, tree, clock, parent)?;
    drop_old(steps, tree, clock)?;
    unfeed(steps, clock)?;
    Ok(())
}

// Moves a clock that isn't prepared to a parent, as its flags say.
fn move_unheld(
    steps: &mut Vec<Micro>,
    tree: &Tree,
    clock: ClockId,
    parent: ClockId,
) -> Result<(), NoMemory>
    requires { clock.0 < length tree.now.defs }
    ensures { IfOk result (λ done. steps.new.items
        ≡ steps.old.items ++ script.move tree.now.defs tree.now.clocks (λ c. false) clock.0 parent.0) }
{
    if runs_parent(tree, clock) {
        move_fed(steps, tree, clock, parent)
    } else {
        relink(steps, tree, clock, parent)
    }
}

// The move of a clock by a step of the chain, if the step is of this clock and moves it.
fn move_by<V: View>(
    steps: &mut Vec<Micro>,
    tree: &Tree,
    view: &V,
    step: ChainStep,
    clock: ClockId,
) -> Result<(), NoMemory>
    requires place { clock.0 < length tree.now.defs }
    requires seen { clock.0 < V.size view.now }
    ensures { IfOk result (λ done. steps.new.items
        ≡ steps.old.items ++ script.move_of tree.now.defs tree.now.clocks (V.means view.now).prepared (step_of step ∷ []) clock.0) }
{
    if step.clock.0 != clock.0 || !tree.moves(step) {
        return Ok(());
    }
    let Some(parent) = step.parent else {
        return Ok(())
    };
    if view.prepared(clock) {
        move_held(steps, tree, clock, parent)?;
    } else {
        move_unheld(steps, tree, clock, parent)?;
    }
    Ok(())
}

// The move of a clock, if the chain moves it.
fn move_of<V: View>(
    steps: &mut Vec<Micro>,
    tree: &Tree,
    view: &V,
    chain: &[ChainStep],
    clock: ClockId,
) -> Result<(), NoMemory>
    requires place { clock.0 < length tree.now.defs }
    requires seen { clock.0 < V.size view.now }
    ensures { IfOk result (λ done. steps.new.items
        ≡ steps.old.items ++ script.move_of tree.now.defs tree.now.clocks (V.means view.now).prepared (chain_of chain.now) clock.0) }
{
    for place in 0..chain.len() {
        move_by(steps, tree, view, step_at(chain, place), clock)?;
    }
    Ok(())
}

/// Each clock of the walk with its move, if it moves, and then its visit.
pub(crate) fn visit_all<V: View>(
    steps: &mut Vec<Micro>,
    tree: &Tree,
    view: &V,
    chain: &[ChainStep],
    rates: &[WalkRate],
) -> Result<(), NoMemory>
    requires seen { length tree.now.defs ≤ V.size view.now }
    requires there { AreThere tree.now.clocks (rates_of rates.now) }
    ensures { IfOk result (λ done. steps.new.items
        ≡ steps.old.items ++ visits tree.now.defs tree.now.clocks (V.means view.now).prepared (chain_of chain.now) (rates_of rates.now)) }
{
    for place in 0..rates.len() {
        let clock = rate_at(tree, rates, place).clock;
        move_of(steps, tree, view, chain, clock)?;
        visit(steps, tree, chain, clock)?;
    }
    Ok(())
}
