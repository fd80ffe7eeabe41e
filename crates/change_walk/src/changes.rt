//! The clocks whose rate a plan changes.

ghost use Rattle.std.specs.Prelude.{◌≡◌, ◌<◌, ◌==◌, ◌&&◌, ◌++◌, not, true, if◌then◌else◌, [], ◌∷◌, Some, reverse, slice_index, IfOk, OnOk};
ghost use Rattle.std.specs.Option.{option_map};
ghost use Rattle.clk_model.specs.Lists.{is_at};
ghost use Rattle.clk_tree.specs.Plans.{AreThere, chain_of, rates_of};
ghost use Rattle.change_walk.specs.Changes.{back_to, changed_along, changes_below, is_back, parent_after};

use clk_base::ClockId;
use clk_io::NoMemory;
use clk_tree::{ChainStep, Tree, WalkRate, rate_at, step_at};

/// A clock whose rate a plan changes.
#[derive(Clone, Copy, Debug, PartialEq, Eq)]
pub struct Changed {
    pub clock: ClockId,
    /// Its rate in Hz at the beginning.
    pub before: u64,
    /// Its rate in Hz in the outcome.
    pub after: u64,
}

/// A clock below which the walk is, and whether its rate changes with those of all above it.
#[derive(Clone, Copy, Debug, PartialEq, Eq)]
pub(crate) struct Passed {
    pub clock: ClockId,
    pub changes: bool,
}

/// The parent that a clock will have.
fn parent_after(tree: &Tree, chain: &[ChainStep], clock: ClockId) -> Option<ClockId>
    ensures { option_map (λ p. p.0) result ≡ parent_after tree.now.clocks (chain_of chain.now) clock.0 }
{
    for place in 0..chain.len() {
        let step = step_at(chain, place);
        if step.clock.0 == clock.0 {
            return step.parent;
        }
    }
    tree.parent(clock)
}

// Whether this is the clock, if there is one.
fn is_parent(parent: Option<ClockId>, clock: ClockId) -> bool
    ensures { result ≡ is_at clock.0 (option_map (λ p. p.0) parent) }
{
    match parent {
        Some(parent) => parent.0 == clock.0,
        None => false,
    }
}

// Whether the last of the clocks that were passed is this parent, or none was.
fn is_back(passed: &[Passed], parent: Option<ClockId>) -> bool
    ensures { result ≡ is_back (option_map (λ p. p.0) parent) (reverse passed.now) }
{
    match passed.last() {
        Some(last) => is_parent(parent, last.clock),
        None => true,
    }
}

// Leaves the clocks after the last that is this parent.
fn go_back_to(passed: &mut Vec<Passed>, parent: Option<ClockId>)
    ensures { reverse passed.new.items ≡ back_to (option_map (λ p. p.0) parent) (reverse passed.old.items) }
{
    while !is_back(passed, parent) {
        passed.pop();
    }
}

// Whether the rate of the last of these clocks changes with those of all above it; of none, yes.
fn changes_below(passed: &[Passed]) -> bool
    ensures { result ≡ changes_below (reverse passed.now) }
{
    match passed.last() {
        Some(last) => last.changes,
        None => true,
    }
}

// Whether the rate of a clock differs, and changes below these.
fn changes_here(passed: &[Passed], before: u64, after: u64) -> bool
    ensures { result ≡ (changes_below (reverse passed.now) && not (after == before)) }
{
    changes_below(passed) && after != before
}

// Adds a clock if it changes.
fn add_if(changed: &mut Vec<Changed>, changes: bool, one: Changed) -> Result<(), NoMemory>
    ensures { IfOk result (λ done. changed.new.items ≡ changed.old.items ++ (if changes then one ∷ [] else [])) }
{
    if changes {
        changed.push(one)?;
    }
    Ok(())
}

/// The clocks whose rates change, in the walk's order, in place of those that stand there: those that it
/// reaches from its top over such clocks alone.
pub(crate) fn changes(
    passed: &mut Vec<Passed>,
    changed: &mut Vec<Changed>,
    tree: &Tree,
    chain: &[ChainStep],
    rates: &[WalkRate],
) -> Result<(), NoMemory>
    requires there { AreThere tree.now.clocks (rates_of rates.now) }
    ensures { OnOk result (changed.new.items
        ≡ changed_along (parent_after tree.now.clocks (chain_of chain.now)) (slice_index tree.now.rates) [] (rates_of rates.now)) }
{
    passed.clear();
    changed.clear();
    for place in 0..rates.len() {
        let entry = rate_at(tree, rates, place);
        let clock = entry.clock;
        go_back_to(passed, parent_after(tree, chain, clock));
        let before = tree.rate(clock);
        let after = entry.rate;
        let changes = changes_here(passed, before, after);
        add_if(
            changed,
            changes,
            Changed {
                clock,
                before,
                after,
            },
        )?;
        passed.push(Passed { clock, changes })?;
    }
    Ok(())
}
