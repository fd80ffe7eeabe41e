//! Planning.

ghost use Rattle.std.specs.Prelude.{◌≡◌, ℕ, ◌<◌, ◌≤◌, true, false, Some, None, length, option_map, if◌then◌else◌, IfOk, OnOk};
ghost use Rattle.clk_base.specs.Levels.{depth};
ghost use Rattle.clk_base.specs.Valid.{IsValid};
ghost use Rattle.clk_model.specs.Chain as chain;
ghost use Rattle.clk_model.specs.Chain.{chain_within};
ghost use Rattle.clk_model.specs.Round.{round};
ghost use Rattle.clk_model.specs.State.{registered};
ghost use Rattle.rate_planner.specs.Chains.{AllThere};
ghost use Rattle.rate_planner.specs.Kept.{Told, ToldButGates};
ghost use Rattle.rate_planner.specs.Rounded.{rounded_of, NamesRegistered};
ghost use Rattle.clk_tree.specs.Plans.{AreThere};
ghost use Rattle.rate_planner.specs.Walks.{walked_rates};

use crate::climb::climb;
use crate::outcome::{keep_boundaries, outcome_rates};
use crate::planning::Planning;
use crate::rest::{NoRest, Pausing, Rest};
use crate::rounded::Rounded;
use crate::rounding::rounding;
use crate::walk::walk_rates;
use clk_base::{ClockId, Pause, ValidDesc};
use clk_io::NoMemory;
use clk_tree::{Tree, View};
use reg_bank::Bank;
use std::sync::Wait;

// The rates of the walk of a chain that was climbed. Answers whether all clocks of the chain keep their
// boundaries; if one doesn't, there is no plan.
fn walk_within<B: Bank, V: View>(
    planning: &mut Planning,
    tree: &Tree,
    bank: &B,
    view: &V,
) -> Result<bool, NoMemory>
    requires valid { IsValid (B.size bank.now) tree.now.defs }
    requires seen { length tree.now.defs ≤ V.size view.now }
    requires steps { AllThere tree.now.clocks planning.old.plan.chain }
    requires some { 0 < length planning.old.plan.chain }
    ensures chain { IfOk result (λ found. Told (B.contents bank.now) tree.now.defs tree.now (λ w. (c x : ℕ)
        → Some planning.old.plan.chain ≡ chain_within depth w (V.means view.now) c x
        → (if found then Some planning.old.plan.chain else None) ≡ chain.chain w (V.means view.now) c x)) }
    ensures rates { IfOk result (λ found. found ≡ true → Told (B.contents bank.now) tree.now.defs tree.now (λ w. (c x : ℕ)
        → Some planning.old.plan.chain ≡ chain_within depth w (V.means view.now) c x
        → planning.new.plan.rates ≡ walked_rates tree.now.order w planning.old.plan.chain)) }
    ensures kept { planning.new.plan.chain ≡ planning.old.plan.chain }
    ensures set_parent { planning.new.plan.set_parent ≡ planning.old.plan.set_parent }
    ensures there { IfOk result (λ found. found ≡ true → AreThere tree.now.clocks planning.new.plan.rates) }
{
    let steps = planning.plan.chain.as_slice();
    // Its clause says that the tree stands.
    let _there = tree.registered(steps[0].clock);
    outcome_rates(&mut planning.out, tree, bank, steps)?;
    let rates = planning.out.as_slice();
    if !keep_boundaries(view, steps, rates) {
        return Ok(false);
    }
    walk_rates(&mut planning.plan.rates, tree, bank, steps, rates)?;
    Ok(true)
}

// The plan of a request for a rate.
fn plan_told<B: Bank, V: View, W: Rest>(
    planning: &mut Planning,
    tree: &Tree,
    bank: &B,
    view: &V,
    rest: &W,
    c: ClockId,
    x: u64,
) -> Result<bool, NoMemory>
    requires valid { IsValid (B.size bank.now) tree.now.defs }
    requires seen { length tree.now.defs ≤ V.size view.now }
    requires there { registered tree.now.clocks c.0 ≡ true }
    ensures chain { IfOk result (λ found. Told (B.contents bank.now) tree.now.defs tree.now (λ w.
        (if found then Some planning.new.plan.chain else None) ≡ chain.chain w (V.means view.now) c.0 x)) }
    ensures rates { IfOk result (λ found. found ≡ true → Told (B.contents bank.now) tree.now.defs tree.now (λ w.
        planning.new.plan.rates ≡ walked_rates tree.now.order w planning.new.plan.chain)) }
    ensures set_parent { OnOk result (planning.new.plan.set_parent ≡ false) }
    ensures there { IfOk result (λ found. found ≡ true → AreThere tree.now.clocks planning.new.plan.rates) }
{
    let first = rounding(tree, view, rest, c, x);
    plan_from(planning, tree, bank, view, rest, c, x, first)
}

// The plan of a request for a rate. The bits of gates make no difference to it.
fn plan_resting<B: Bank, V: View, W: Rest>(
    planning: &mut Planning,
    tree: &Tree,
    bank: &B,
    view: &V,
    rest: &W,
    c: ClockId,
    x: u64,
) -> Result<bool, NoMemory>
    requires valid { IsValid (B.size bank.now) tree.now.defs }
    requires seen { length tree.now.defs ≤ V.size view.now }
    requires there { registered tree.now.clocks c.0 ≡ true }
    ensures chain { IfOk result (λ found. Told (B.contents bank.now) tree.now.defs tree.now (λ w.
        (if found then Some planning.new.plan.chain else None) ≡ chain.chain w (V.means view.now) c.0 x)) }
    ensures rates { IfOk result (λ found. found ≡ true → Told (B.contents bank.now) tree.now.defs tree.now (λ w.
        planning.new.plan.rates ≡ walked_rates tree.now.order w planning.new.plan.chain)) }
    ensures gates { IfOk result (λ found. ToldButGates (B.contents bank.now) tree.now.defs tree.now (λ w.
        (if found then Some planning.new.plan.chain else None) ≡ chain.chain w (V.means view.now) c.0 x)) }
    ensures rates_but_gates { IfOk result (λ found. found ≡ true → ToldButGates (B.contents bank.now) tree.now.defs tree.now (λ w.
        planning.new.plan.rates ≡ walked_rates tree.now.order w planning.new.plan.chain)) }
    ensures set_parent { OnOk result (planning.new.plan.set_parent ≡ false) }
    ensures there { IfOk result (λ found. found ≡ true → AreThere tree.now.clocks planning.new.plan.rates) }
{
    // Its clause says that the tree stands.
    let _there = tree.registered(c);
    plan_told(planning, tree, bank, view, rest, c, x)
}

/// Works out the plan of a request for a rate. Answers whether there is one; if there is none, what is
/// left of it says nothing. Pauses at `Place::Planning` once a candidate. Out of memory is its one
/// refusal.
pub fn plan<R: Wait + Sync, B: Bank, V: View, Q: Pause>(
    rt: &R,
    planning: &mut Planning,
    desc: &ValidDesc,
    tree: &Tree,
    bank: &B,
    view: &V,
    c: ClockId,
    x: u64,
    pause: &Q,
) -> Result<bool, NoMemory>
    requires made { desc.now.defs ≡ tree.now.defs }
    requires bank { desc.now.words ≤ B.size bank.now }
    requires seen { length tree.now.defs ≤ V.size view.now }
    requires there { registered tree.now.clocks c.0 ≡ true }
    ensures chain { IfOk result (λ found. Told (B.contents bank.now) desc.now.defs tree.now (λ w.
        (if found then Some planning.new.plan.chain else None) ≡ chain.chain w (V.means view.now) c.0 x)) }
    ensures rates { IfOk result (λ found. found ≡ true → Told (B.contents bank.now) desc.now.defs tree.now (λ w.
        planning.new.plan.rates ≡ walked_rates tree.now.order w planning.new.plan.chain)) }
    ensures gates { IfOk result (λ found. ToldButGates (B.contents bank.now) desc.now.defs tree.now (λ w.
        (if found then Some planning.new.plan.chain else None) ≡ chain.chain w (V.means view.now) c.0 x)) }
    ensures rates_but_gates { IfOk result (λ found. found ≡ true → ToldButGates (B.contents bank.now) desc.now.defs tree.now (λ w.
        planning.new.plan.rates ≡ walked_rates tree.now.order w planning.new.plan.chain)) }
    ensures set_parent { OnOk result (planning.new.plan.set_parent ≡ false) }
    ensures there { IfOk result (λ found. found ≡ true → AreThere tree.now.clocks planning.new.plan.rates) }
{
    // Its clause says that the description is valid.
    let _size = desc.len();
    plan_resting(planning, tree, bank, view, &Pausing { rt, pause }, c, x)
}

/// Works out the plan of a request for a rate as `plan` does, without a pause. Out of memory is its
/// one refusal.
pub fn plan_now<B: Bank, V: View>(
    planning: &mut Planning,
    desc: &ValidDesc,
    tree: &Tree,
    bank: &B,
    view: &V,
    c: ClockId,
    x: u64,
) -> Result<bool, NoMemory>
    requires made { desc.now.defs ≡ tree.now.defs }
    requires bank { desc.now.words ≤ B.size bank.now }
    requires seen { length tree.now.defs ≤ V.size view.now }
    requires there { registered tree.now.clocks c.0 ≡ true }
    ensures chain { IfOk result (λ found. Told (B.contents bank.now) desc.now.defs tree.now (λ w.
        (if found then Some planning.new.plan.chain else None) ≡ chain.chain w (V.means view.now) c.0 x)) }
    ensures rates { IfOk result (λ found. found ≡ true → Told (B.contents bank.now) desc.now.defs tree.now (λ w.
        planning.new.plan.rates ≡ walked_rates tree.now.order w planning.new.plan.chain)) }
    ensures gates { IfOk result (λ found. ToldButGates (B.contents bank.now) desc.now.defs tree.now (λ w.
        (if found then Some planning.new.plan.chain else None) ≡ chain.chain w (V.means view.now) c.0 x)) }
    ensures rates_but_gates { IfOk result (λ found. found ≡ true → ToldButGates (B.contents bank.now) desc.now.defs tree.now (λ w.
        planning.new.plan.rates ≡ walked_rates tree.now.order w planning.new.plan.chain)) }
    ensures set_parent { OnOk result (planning.new.plan.set_parent ≡ false) }
    ensures there { IfOk result (λ found. found ≡ true → AreThere tree.now.clocks planning.new.plan.rates) }
{
    // Its clause says that the description is valid.
    let _size = desc.len();
    plan_resting(planning, tree, bank, view, &NoRest, c, x)
}

/// Works out the plan of a request for a rate as `plan` does, if the clock would be rounded so for
/// the request (`first_rounding`). Nothing is said of the plan over another rounding, but that its
/// clocks are registered. Rests once a candidate. Out of memory is its one refusal.
pub fn plan_from<B: Bank, V: View, W: Rest>(
    planning: &mut Planning,
    tree: &Tree,
    bank: &B,
    view: &V,
    rest: &W,
    c: ClockId,
    x: u64,
    first: Option<Rounded>,
) -> Result<bool, NoMemory>
    requires valid { IsValid (B.size bank.now) tree.now.defs }
    requires seen { length tree.now.defs ≤ V.size view.now }
    requires there { registered tree.now.clocks c.0 ≡ true }
    requires names { NamesRegistered tree.now.clocks first }
    ensures chain { IfOk result (λ found. Told (B.contents bank.now) tree.now.defs tree.now (λ w.
        option_map rounded_of first ≡ round w (V.means view.now) c.0 x
        → (if found then Some planning.new.plan.chain else None) ≡ chain.chain w (V.means view.now) c.0 x)) }
    ensures rates { IfOk result (λ found. found ≡ true → Told (B.contents bank.now) tree.now.defs tree.now (λ w.
        option_map rounded_of first ≡ round w (V.means view.now) c.0 x
        → planning.new.plan.rates ≡ walked_rates tree.now.order w planning.new.plan.chain)) }
    ensures set_parent { OnOk result (planning.new.plan.set_parent ≡ false) }
    ensures there { IfOk result (λ found. found ≡ true → AreThere tree.now.clocks planning.new.plan.rates) }
{
    planning.plan.set_parent = false;
    let chain = &mut planning.plan.chain;
    if !climb(chain, tree, view, rest, c, x, first)? {
        return Ok(false);
    }
    walk_within(planning, tree, bank, view)
}
