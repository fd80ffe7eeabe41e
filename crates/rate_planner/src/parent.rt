//! Planning of a change of parent.

ghost use Rattle.std.specs.Prelude.{◌≡◌, ◌≢◌, ◌≤◌, true, Some, OnOk};
ghost use Rattle.clk_base.specs.Description.{parents_of};
ghost use Rattle.clk_base.specs.Valid.{IsValid};
ghost use Rattle.clk_model.specs.Lists.{is_in};
ghost use Rattle.clk_model.specs.State.{registered, link_in};
ghost use Rattle.rate_planner.specs.Kept.{Told};
ghost use Rattle.clk_tree.specs.Plans.{AreThere};
ghost use Rattle.rate_planner.specs.Walks.{parent_chain, walked_rates};

use crate::now::rate_now;
use crate::planning::Planning;
use crate::walk::walk_rates;
use clk_base::{ClockId, ValidDesc};
use clk_io::NoMemory;
use clk_tree::{ChainStep, Tree, rate_of};
use reg_bank::Bank;

/// Works out the plan of a change of parent: the chain is the clock alone, with its rate over the new
/// parent. Out of memory is its one refusal.
pub fn plan_move<B: Bank>(
    planning: &mut Planning,
    tree: &Tree,
    bank: &B,
    c: ClockId,
    p: ClockId,
) -> Result<(), NoMemory>
    requires valid { IsValid (B.size bank.now) tree.now.defs }
    requires clock { registered tree.now.clocks c.0 ≡ true }
    requires parent { registered tree.now.clocks p.0 ≡ true }
    requires possible { is_in p.0 (parents_of tree.now.defs c.0) ≡ true }
    requires other { link_in tree.now.clocks c.0 ≢ Some p.0 }
    ensures chain { OnOk result (Told (B.contents bank.now) tree.now.defs tree.now (λ w.
        planning.new.plan.chain ≡ parent_chain w c.0 p.0)) }
    ensures rates { OnOk result (Told (B.contents bank.now) tree.now.defs tree.now (λ w.
        planning.new.plan.rates ≡ walked_rates tree.now.order w planning.new.plan.chain)) }
    ensures set_parent { OnOk result (planning.new.plan.set_parent ≡ true) }
    ensures there { OnOk result (AreThere tree.now.clocks planning.new.plan.rates) }
{
    // Its clause says that the tree stands.
    let _there = tree.registered(c);
    let rate = rate_of(tree, c, bank, rate_now(tree, p));
    let step = ChainStep {
        clock: c,
        rate,
        parent: Some(p),
    };
    planning.plan.set_parent = true;
    planning.plan.chain.clear();
    planning.plan.chain.push(step)?;
    planning.out.clear();
    planning.out.push(rate)?;
    let steps = planning.plan.chain.as_slice();
    let rates = planning.out.as_slice();
    walk_rates(&mut planning.plan.rates, tree, bank, steps, rates)?;
    Ok(())
}

/// Works out the plan of a change of parent as `plan_move` does, over a tree that was made for this
/// description. Out of memory is its one refusal.
pub fn plan_parent<B: Bank>(
    planning: &mut Planning,
    desc: &ValidDesc,
    tree: &Tree,
    bank: &B,
    c: ClockId,
    p: ClockId,
) -> Result<(), NoMemory>
    requires made { desc.now.defs ≡ tree.now.defs }
    requires bank { desc.now.words ≤ B.size bank.now }
    requires clock { registered tree.now.clocks c.0 ≡ true }
    requires parent { registered tree.now.clocks p.0 ≡ true }
    requires possible { is_in p.0 (parents_of desc.now.defs c.0) ≡ true }
    requires other { link_in tree.now.clocks c.0 ≢ Some p.0 }
    ensures chain { OnOk result (Told (B.contents bank.now) desc.now.defs tree.now (λ w.
        planning.new.plan.chain ≡ parent_chain w c.0 p.0)) }
    ensures rates { OnOk result (Told (B.contents bank.now) desc.now.defs tree.now (λ w.
        planning.new.plan.rates ≡ walked_rates tree.now.order w planning.new.plan.chain)) }
    ensures set_parent { OnOk result (planning.new.plan.set_parent ≡ true) }
    ensures there { OnOk result (AreThere tree.now.clocks planning.new.plan.rates) }
{
    // Its clause says that the description is valid.
    let _size = desc.len();
    plan_move(planning, tree, bank, c, p)
}
