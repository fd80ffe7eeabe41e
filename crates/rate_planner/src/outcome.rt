//! The rates that come out of a chain, and whether they keep the boundaries.

ghost use Rattle.std.specs.Prelude.{◌≡◌, ◌<◌, ◌&&◌, nat_le, drop, length, IfSome, OnOk};
ghost use Rattle.std.specs.List.{All};
ghost use Rattle.std.specs.Option.{option_map_or};
ghost use Rattle.clk_base.specs.Valid.{IsValid};
ghost use Rattle.clk_model.specs.Round.{rate_in};
ghost use Rattle.clk_tree.specs.Plans.{chain_of, step_of};
ghost use Rattle.rate_planner.specs.Chains.{IsThere};
ghost use Rattle.rate_planner.specs.Kept.{Always, Told, wired};
ghost use Rattle.rate_planner.specs.Outcomes.{out_rate, out_rates, first_or, rates_within};

use crate::kind::{kind_of, set_rate};
use crate::now::rate_now;
use clk_base::ClockId;
use clk_io::NoMemory;
use clk_tree::{ChainStep, Tree, View, rate_by};
use reg_bank::Bank;

// The rate that comes out for a clock of a chain over what comes out for its planned parent.
fn out_rate<B: Bank>(tree: &Tree, bank: &B, step: ChainStep, parent: u64) -> u64
    requires valid { IsValid (B.size bank.now) tree.now.defs }
    ensures { IfSome (B.contents bank.now) (λ regs. result
        ≡ out_rate (wired tree.now.defs regs tree.now) (step_of step) parent) }
{
    let kind = kind_of(tree, step.clock);
    if tree.moves(step) {
        rate_by(&kind, bank, parent)
    } else {
        set_rate(kind, bank, parent, step.rate)
    }
}

// The rate of a planned parent now.
fn parent_now(tree: &Tree, step: ChainStep) -> u64
    requires there { IsThere tree.now.clocks step }
    ensures { Always tree.now.defs tree.now (λ w. result ≡ option_map_or (rate_in w) (step_of step).parent 0) }
{
    match step.parent {
        Some(parent) => rate_now(tree, parent),
        None => 0,
    }
}

// The rate at a place of those that came out, and the rate of the planned parent after the last.
fn rate_above(tree: &Tree, step: ChainStep, rates: &[u64], place: usize) -> u64
    requires there { IsThere tree.now.clocks step }
    ensures { Always tree.now.defs tree.now (λ w. result
        ≡ first_or (drop place rates.now) (option_map_or (rate_in w) (step_of step).parent 0)) }
{
    if place < rates.len() {
        rates[place]
    } else {
        parent_now(tree, step)
    }
}

/// The rates that come out for the clocks of a chain, from the top down, in place of those that stand
/// there.
pub(crate) fn outcome_rates<B: Bank>(
    rates: &mut Vec<u64>,
    tree: &Tree,
    bank: &B,
    steps: &[ChainStep],
) -> Result<(), NoMemory>
    requires valid { IsValid (B.size bank.now) tree.now.defs }
    requires there { All (IsThere tree.now.clocks) steps.now }
    ensures size { OnOk result (length rates.new.items ≡ length steps.now) }
    ensures rates { OnOk result (Told (B.contents bank.now) tree.now.defs tree.now (λ w. rates.new.items
        ≡ out_rates w (chain_of steps.now))) }
{
    let count = steps.len();
    rates.resize(count, 0)?;
    for done in 0..count {
        let place = count - 1 - done;
        let step = steps[place];
        let above = rate_above(tree, step, rates, place + 1);
        let rate = out_rate(tree, bank, step, above);
        rates[place] = rate;
    }
    Ok(())
}

// Whether a rate of a clock lies between its boundaries.
fn is_between<V: View>(view: &V, clock: ClockId, rate: u64) -> bool
    requires { clock.0 < V.size view.now }
    ensures { result ≡ (nat_le ((V.means view.now).low clock.0) rate && nat_le rate ((V.means view.now).high clock.0)) }
{
    let (low, high) = view.bounds(clock);
    low <= rate && rate <= high
}

/// Whether these rates of the clocks of a chain lie between their boundaries.
pub(crate) fn keep_boundaries<V: View>(view: &V, steps: &[ChainStep], rates: &[u64]) -> bool
    requires sizes { length rates.now ≡ length steps.now }
    requires inside { All (λ s. s.clock.0 < V.size view.now) steps.now }
    ensures { result ≡ rates_within (V.means view.now) (chain_of steps.now) rates.now }
{
    for place in 0..steps.len() {
        if !is_between(view, steps[place].clock, rates[place]) {
            return false;
        }
    }
    true
}
