//! The script of a plan.

ghost use Rattle.std.specs.Prelude.{◌≡◌, ◌+◌, ◌^◌, ◌-◌, ◌≤◌, ◌&&◌, ◌++◌, ◌∷◌, [], false, min, length, sum_by, if◌then◌else◌, flat_map, IfOk, OnOk};
ghost use Rattle.std.specs.List.{list_any};
ghost use Rattle.clk_base.specs.declared.call.Micro.TheVariants as micro;
ghost use Rattle.clk_model.specs.Script.{is_raise};
ghost use Rattle.clk_model.specs.Notices.{is_veto};
ghost use Rattle.clk_tree.specs.Plans.{AreThere, chain_of, rates_of};
ghost use Rattle.change_walk.specs.Given.{OfPlan, extra_of, planned_by, settles, weight_of};
ghost use Rattle.change_walk.specs.Steps.{IsMadeOf, IsToldAs, changed_by, steps_for};
ghost use Rattle.change_walk.specs.Tellings.{has_notifiers, notifiers_at, tell_before};
ghost use Rattle.change_walk.specs.Weights.{brings_notices, step_weight};

use crate::changes::{Changed, Passed, changes};
use crate::moves::visit_all;
use crate::notices::{tell_all_before, tell_all_off};
use crate::step_list::StepList;
use crate::weight::{count_notifiers, raises, weigh};
use clk_base::{Micro, ValidDesc};
use clk_io::NoMemory;
use clk_tree::{ChainStep, Plan, Tree, View, WalkRate};
use notifiers::Notifiers;

// The last steps of a change of parent settle its clock; another change has none.
fn settle(steps: &mut Vec<Micro>, set_parent: bool, chain: &[ChainStep]) -> Result<(), NoMemory>
    ensures { IfOk result (λ done. steps.new.items ≡ steps.old.items ++ settles set_parent (chain_of chain.now)) }
{
    if set_parent && !chain.is_empty() {
        steps.push(Micro::Settle(chain[0].clock))?;
    }
    Ok(())
}

// Whether a clock of a walk has a notifier.
fn has_notifiers(notifiers: &Notifiers, rates: &[WalkRate]) -> bool
    ensures { result ≡ list_any (λ r. has_notifiers notifiers.now r.clock.0) rates.now }
{
    rates
        .iter()
        .any(|entry| !notifiers.chain(entry.clock).is_empty())
}

// Finds the clocks that a plan changes, if a clock of its walk has a notifier; else it finds none,
// since none is told. Answers whether a clock has one.
fn find_changed(
    passed: &mut Vec<Passed>,
    changed: &mut Vec<Changed>,
    tree: &Tree,
    notifiers: &Notifiers,
    plan: &Plan,
) -> Result<bool, NoMemory>
    requires there { AreThere tree.now.clocks plan.now.rates }
    ensures told { OnOk result (IsToldAs notifiers.now changed.new.items (changed_by tree.now plan.now)) }
    ensures tells { IfOk result (λ tells. tells ≡ list_any (λ r. has_notifiers notifiers.now r.clock) plan.now.rates) }
    ensures untold { IfOk result (λ tells. tells ≡ false → changed.new.items ≡ []) }
{
    let rates = plan.rates.as_slice();
    if has_notifiers(notifiers, rates) {
        changes(passed, changed, tree, plan.chain.as_slice(), rates)?;
        Ok(true)
    } else {
        changed.clear();
        Ok(false)
    }
}

// Makes the steps of a plan that changes these clocks, in place of those that stand there. Answers
// whether a notice vetoes it.
fn make_steps<V: View>(
    steps: &mut Vec<Micro>,
    tree: &Tree,
    view: &V,
    notifiers: &Notifiers,
    plan: &Plan,
    changed: &[Changed],
) -> Result<bool, NoMemory>
    requires seen { length tree.now.defs ≤ V.size view.now }
    requires there { AreThere tree.now.clocks plan.now.rates }
    ensures steps { IfOk result (λ vetoed. steps.new.items
        ≡ steps_for tree.now (V.means view.now).prepared notifiers.now plan.now changed.now) }
    ensures vetoed { IfOk result (λ vetoed. vetoed
        ≡ list_any is_veto (flat_map (λ x. tell_before x (notifiers_at notifiers.now x)) changed.now)) }
{
    steps.clear();
    let vetoed = tell_all_before(steps, notifiers, changed)?;
    if vetoed {
        tell_all_off(steps, notifiers, changed)?;
    } else {
        let chain = plan.chain.as_slice();
        visit_all(steps, tree, view, chain, plan.rates.as_slice())?;
        settle(steps, plan.set_parent, chain)?;
    }
    steps.push(Micro::End)?;
    Ok(vetoed)
}

// The notices that a timeout of these steps may bring.
fn extra_of(notifiers: &Notifiers, set_parent: bool, steps: &[Micro], changed: &[Changed]) -> u64
    ensures { result ≡ (if set_parent && list_any is_raise steps.now
        then min (sum_by (λ x. length (notifiers_at notifiers.now x)) changed.now) (2 ^ 64 - 1) else 0) }
{
    if set_parent && raises(steps) {
        count_notifiers(notifiers, changed)
    } else {
        0
    }
}

// How many entries steps come to, told whether one of them visits a clock with a notifier: if none
// does and no line of possible parents has a PLL, each step is one entry.
fn weigh_steps(notifiers: &Notifiers, plls: u32, steps: &[Micro], tells: bool) -> u64
    requires { tells ≡ false → list_any (brings_notices notifiers.now) steps.now ≡ false }
    ensures { result ≡ min (sum_by (step_weight plls notifiers.now) steps.now) (2 ^ 64 - 1) }
{
    if plls == 0 && !tells {
        return steps.len() as u64;
    }
    weigh(notifiers, plls, steps)
}

/// Makes the script of a plan, in place of the one that was made last: the notices before the change;
/// if one vetoes those that it is called off, else each clock of the walk with its move and its
/// visit, and of a change of parent the settling of its clock; and the end.
///
/// It costs what the walk and the notices cost. If memory runs out, what is left of the script says
/// nothing. What it is made of is said of each plan and each view. That it is the script of the
/// definitions is said of a plan from this tree, as planning gives it, and of a view that tells which
/// clocks a state holds prepared.
pub fn script_of<V: View>(
    list: &mut StepList,
    tree: &Tree,
    view: &V,
    notifiers: &Notifiers,
    plan: &Plan,
) -> Result<(), NoMemory>
    requires seen { length tree.now.defs ≤ V.size view.now }
    requires there { AreThere tree.now.clocks plan.now.rates }
    ensures steps { OnOk result (OfPlan tree.now (V.means view.now).prepared notifiers.now plan.now
        (λ s. list.new.steps ≡ (planned_by s plan.now).steps)) }
    ensures vetoed { OnOk result (OfPlan tree.now (V.means view.now).prepared notifiers.now plan.now
        (λ s. list.new.vetoed ≡ (planned_by s plan.now).vetoed)) }
    ensures extra { OnOk result (OfPlan tree.now (V.means view.now).prepared notifiers.now plan.now
        (λ s. list.new.extra ≡ extra_of s plan.now)) }
    ensures weight { OnOk result (OfPlan tree.now (V.means view.now).prepared notifiers.now plan.now
        (λ s. list.new.weight ≡ weight_of s plan.now)) }
    ensures made { OnOk result (IsMadeOf tree.now (V.means view.now).prepared notifiers.now plan.now list.new) }
{
    let _size = tree.len();
    let _chains = notifiers.len();
    let tells = find_changed(&mut list.passed, &mut list.changed, tree, notifiers, plan)?;
    list.vetoed = make_steps(&mut list.steps, tree, view, notifiers, plan, &list.changed)?;
    list.extra = extra_of(notifiers, plan.set_parent, &list.steps, &list.changed);
    let weight = weigh_steps(notifiers, tree.plls(), &list.steps, tells);
    list.weight = weight.saturating_add(list.extra);
    Ok(())
}

/// Makes what `script_of` makes, of a description equal to the tree's own.
pub fn script<V: View>(
    list: &mut StepList,
    desc: &ValidDesc,
    tree: &Tree,
    view: &V,
    notifiers: &Notifiers,
    plan: &Plan,
) -> Result<(), NoMemory>
    requires made { desc.now.defs ≡ tree.now.defs }
    requires seen { length tree.now.defs ≤ V.size view.now }
    requires there { AreThere tree.now.clocks plan.now.rates }
    ensures steps { OnOk result (OfPlan tree.now (V.means view.now).prepared notifiers.now plan.now
        (λ s. list.new.steps ≡ (planned_by s plan.now).steps)) }
    ensures vetoed { OnOk result (OfPlan tree.now (V.means view.now).prepared notifiers.now plan.now
        (λ s. list.new.vetoed ≡ (planned_by s plan.now).vetoed)) }
    ensures extra { OnOk result (OfPlan tree.now (V.means view.now).prepared notifiers.now plan.now
        (λ s. list.new.extra ≡ extra_of s plan.now)) }
    ensures weight { OnOk result (OfPlan tree.now (V.means view.now).prepared notifiers.now plan.now
        (λ s. list.new.weight ≡ weight_of s plan.now)) }
    ensures made { OnOk result (IsMadeOf tree.now (V.means view.now).prepared notifiers.now plan.now list.new) }
{
    script_of(list, tree, view, notifiers, plan)
}
