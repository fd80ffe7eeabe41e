//! One clock of a chain, and how the chain goes on from it.

ghost use Rattle.std.specs.Prelude.{◌≡◌, ℕ, ◌≤◌, ◌||◌, true, List, Option, Some, length, option_map};
ghost use Rattle.clk_base.specs.Description.{kind_of};
ghost use Rattle.clk_model.specs.Kinds.{can_round};
ghost use Rattle.clk_model.specs.Round.{passes_on, round};
ghost use Rattle.clk_model.specs.State as state;
ghost use Rattle.clk_model.specs.State.{registered};
ghost use Rattle.clk_model.specs.Chain as chain;
ghost use Rattle.rate_planner.specs.Chains.{continued, chain_here, NextIsThere};
ghost use Rattle.rate_planner.specs.Rounded.{rounded_of, NamesRegistered};
ghost use Rattle.rate_planner.specs.Kept.{Always};

use crate::kind::{can_round, kind_of, sets_parent_gate, sets_rate_parent};
use crate::now::{passes_on, rate_now};
use crate::rounded::Rounded;
use clk_base::ClockId;
use clk_tree::{ChainStep, Tree, View};

/// How a chain goes on from a clock.
#[derive(Clone, Copy, Debug, PartialEq, Eq)]
pub(crate) enum Next {
    /// There is no plan.
    NoPlan,
    /// This is the step of the top.
    Last(ChainStep),
    /// After this step comes that of the parent, asked for this rate in Hz.
    More(ChainStep, ClockId, u64),
}

// How a chain goes on from a clock that is rounded so.
fn continue_from<V: View>(tree: &Tree, view: &V, clock: ClockId, x: u64, rounded: Rounded) -> Next
    requires seen { length tree.now.defs ≤ V.size view.now }
    requires there { registered tree.now.clocks clock.0 ≡ true }
    requires names { NamesRegistered tree.now.clocks (Some rounded) }
    ensures next { Always tree.now.defs tree.now (λ w. (more : ℕ → ℕ → Option (List state.ChainStep))
        → continued more result ≡ chain.chain_from more w (V.means view.now) clock.0 x (rounded_of rounded)) }
    ensures there { NextIsThere tree.now.clocks result }
{
    let step = ChainStep {
        clock,
        rate: rounded.rate,
        parent: rounded.parent,
    };
    // Its clause says that the clock is one of the description.
    let _place = rate_now(tree, clock);
    if tree.moves(step) && sets_parent_gate(tree, clock) && view.prepared(clock) {
        return Next::NoPlan;
    }
    if !sets_rate_parent(tree, clock) {
        return Next::Last(step);
    }
    let Some(parent) = rounded.parent else {
        return Next::NoPlan
    };
    if rounded.parent_rate == rate_now(tree, parent) {
        return Next::Last(step);
    }
    let request = if can_round(kind_of(tree, clock)) {
        rounded.parent_rate
    } else {
        x
    };
    Next::More(step, parent, request)
}

// Whether a clock can round or passes requests on.
fn takes_requests(tree: &Tree, clock: ClockId) -> bool
    ensures { Always tree.now.defs tree.now (λ w. result ≡ (can_round (kind_of w.defs clock.0) || passes_on w clock.0)) }
{
    can_round(kind_of(tree, clock)) || passes_on(tree, clock)
}

/// How a chain goes on from a clock that is asked for a rate, if it would be rounded so.
pub(crate) fn next_step<V: View>(
    tree: &Tree,
    view: &V,
    clock: ClockId,
    x: u64,
    rounding: Option<Rounded>,
) -> Next
    requires seen { length tree.now.defs ≤ V.size view.now }
    requires there { registered tree.now.clocks clock.0 ≡ true }
    requires names { NamesRegistered tree.now.clocks rounding }
    ensures next { Always tree.now.defs tree.now (λ w. option_map rounded_of rounding ≡ round w (V.means view.now) clock.0 x
        → (more : ℕ → ℕ → Option (List state.ChainStep))
        → continued more result ≡ chain_here more w (V.means view.now) clock.0 x) }
    ensures there { NextIsThere tree.now.clocks result }
{
    if takes_requests(tree, clock) {
        match rounding {
            Some(rounded) => continue_from(tree, view, clock, x, rounded),
            None => Next::NoPlan,
        }
    } else {
        Next::NoPlan
    }
}
