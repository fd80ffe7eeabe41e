//! The assigned clocks of a node.

ghost use Rattle.std.specs.Prelude.{◌≡◌, ◌<◌, ◌++◌, Some, None, map, length, IfOk, OnOk, slice_get};
ghost use Rattle.std.specs.Option.{option_map};
ghost use Rattle.dts_clocks.specs.Assigned.{seen_lists, seen_assigned, rates_of, lists_of, lacks_clocks, is_too_long, clock_at, parent_step, rate_step, steps_of, assigned_of};
ghost use Rattle.dts_clocks.specs.Joined.{joined};

use crate::consumers::clocks_in;
use crate::loaded::{Assigned, AssignedStep};
use crate::specifiers::Named;
use clk_base::ClockId;
use clk_io::NoMemory;
use dts_bindings::{Node, has_property, numbers, values};
use std::alloc::Global;

/// The three lists of a node, a null as None.
#[derive(Drop)]
pub(crate) struct Lists {
    pub(crate) clocks: Vec<Option<ClockId>>,
    pub(crate) parents: Vec<Option<ClockId>>,
    pub(crate) rates: Vec<u32>,
}

// The numbers of `assigned-clock-rates`.
#[tactic(auto, unfolding(crate::specs::Assigned::rates_of))]
fn rates_of(alloc: Global, node: &Node<'_>) -> Result<Vec<u32>, NoMemory>
    ensures { IfOk result (λ rates. rates.items ≡ rates_of node.now) }
{
    match numbers(alloc, values(node, "assigned-clock-rates"))? {
        Some(rates) => Ok(rates),
        None => Ok(Vec::new(alloc)),
    }
}

/// The three lists of a node. None where a specifier is bad.
#[tactic(auto, unfolding(crate::specs::Assigned::lists_of))]
pub(crate) fn lists_of(
    alloc: Global,
    chart: &Named<'_>,
    node: &Node<'_>,
) -> Result<Option<Lists>, NoMemory>
    ensures { IfOk result (λ lists. option_map seen_lists lists ≡ lists_of chart.now node.now) }
{
    let Some(clocks) = clocks_in(alloc, chart, "assigned-clocks", node)? else {
        return Ok(None);
    };
    let Some(parents) = clocks_in(alloc, chart, "assigned-clock-parents", node)? else {
        return Ok(None);
    };
    let rates = rates_of(alloc, node)?;
    Ok(Some(Lists {
        clocks,
        parents,
        rates,
    }))
}

/// Whether there are parents or rates, and no assigned clocks.
#[tactic(auto, unfolding(crate::specs::Assigned::lacks_clocks))]
pub(crate) fn lacks_clocks(node: &Node<'_>) -> bool
    ensures { result ≡ lacks_clocks node.now }
{
    !has_property(node, "assigned-clocks")
        && (has_property(node, "assigned-clock-parents")
            || has_property(node, "assigned-clock-rates"))
}

/// Whether a list is longer than that of the assigned clocks.
pub(crate) fn is_too_long(lists: &Lists) -> bool
    ensures { result ≡ is_too_long (seen_lists lists.now) }
{
    lists.parents.len() > lists.clocks.len() || lists.rates.len() > lists.clocks.len()
}

// The clock at a place of a list.
fn clock_at(clocks: &[Option<ClockId>], at: usize) -> Option<ClockId>
    ensures { result ≡ clock_at clocks.now at }
{
    match clocks.get(at) {
        Some(clock) => *clock,
        None => None,
    }
}

// A clock's new parent, behind the steps so far, unless one of them is a null.
fn push_parent(
    steps: &mut Vec<AssignedStep>,
    clock: Option<ClockId>,
    parent: Option<ClockId>,
) -> Result<(), NoMemory>
    ensures { OnOk result (steps.new.items ≡ steps.old.items ++ parent_step clock parent) }
{
    let Some(clock) = clock else {
        return Ok(());
    };
    let Some(parent) = parent else {
        return Ok(());
    };
    steps.push(AssignedStep::Parent { clock, parent })?;
    Ok(())
}

// A clock's new rate, behind the steps so far, unless the clock is a null or the rate is 0.
fn push_rate(
    steps: &mut Vec<AssignedStep>,
    clock: Option<ClockId>,
    rate: u32,
) -> Result<(), NoMemory>
    ensures { OnOk result (steps.new.items ≡ steps.old.items ++ rate_step clock (Some rate)) }
{
    let Some(clock) = clock else {
        return Ok(());
    };
    if rate == 0 {
        return Ok(());
    }
    steps.push(AssignedStep::Rate { clock, rate })?;
    Ok(())
}

// The new parents, behind the steps so far.
fn push_parents(steps: &mut Vec<AssignedStep>, lists: &Lists) -> Result<(), NoMemory>
    ensures { OnOk result (steps.new.items ≡ steps.old.items
        ++ joined (λ i. parent_step (clock_at lists.now.clocks.items i) (clock_at lists.now.parents.items i)) (length lists.now.parents.items)) }
{
    for at in 0..lists.parents.len() {
        let clock = clock_at(&lists.clocks, at);
        let parent = clock_at(&lists.parents, at);
        push_parent(steps, clock, parent)?;
    }
    Ok(())
}

// The new rates, behind the steps so far.
fn push_rates(steps: &mut Vec<AssignedStep>, lists: &Lists) -> Result<(), NoMemory>
    ensures { OnOk result (steps.new.items ≡ steps.old.items
        ++ joined (λ i. rate_step (clock_at lists.now.clocks.items i) (slice_get lists.now.rates.items i)) (length lists.now.rates.items)) }
{
    for at in 0..lists.rates.len() {
        let clock = clock_at(&lists.clocks, at);
        push_rate(steps, clock, lists.rates[at])?;
    }
    Ok(())
}

// The steps: first the parents, then the rates.
#[tactic(auto, unfolding(crate::specs::Assigned::steps_of))]
fn steps_of(alloc: Global, lists: &Lists) -> Result<Vec<AssignedStep>, NoMemory>
    ensures { IfOk result (λ steps. steps.items ≡ steps_of (seen_lists lists.now)) }
{
    let mut steps = Vec::new(alloc);
    push_parents(&mut steps, lists)?;
    push_rates(&mut steps, lists)?;
    Ok(steps)
}

/// What a node with `assigned-clocks` asks for.
#[tactic(auto, unfolding(crate::specs::Assigned::assigned_of))]
pub(crate) fn assigned_of(
    alloc: Global,
    node: &Node<'_>,
    lists: &Lists,
) -> Result<Option<Assigned>, NoMemory>
    ensures { IfOk result (λ assigned. option_map seen_assigned assigned ≡ assigned_of node.now (seen_lists lists.now)) }
{
    if !has_property(node, "assigned-clocks") {
        return Ok(None);
    }
    let steps = steps_of(alloc, lists)?;
    Ok(Some(Assigned {
        line: node.line(),
        steps,
    }))
}
