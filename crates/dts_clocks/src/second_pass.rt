//! The second look at the nodes: the clocks that their specifiers name.

ghost use Rattle.std.specs.Prelude.{◌≡◌, ◌<◌, ◌≤◌, ◌+◌, [], Some, None, map, length, IfOk, IfErr, OnOk, nat_lt, ◌||◌};
ghost use Rattle.std.specs.List.{list_all};
ghost use Rattle.std.specs.Option.{option_map, option_map_or};
ghost use Rattle.clk_base.specs.Valid.{can_have_parents};
ghost use Rattle.dts_bindings.specs.Binding.{seen_binding};
ghost use Rattle.dts_clocks.specs.Assigned.{seen_lists, entries, is_too_long, lacks_clocks};
ghost use Rattle.dts_clocks.specs.Clocks.{binding_at};
ghost use Rattle.dts_clocks.specs.Faults.{Tells};
ghost use Rattle.dts_clocks.specs.Joined.{total};
ghost use Rattle.dts_clocks.specs.SecondPass.{all_there, parents_of, seen_links, links_of, links_at, entries_at, second_fault, most_entries};

use crate::assigned::{Lists, is_too_long, lacks_clocks, lists_of};
use crate::consumers::consumer_of;
use crate::fault::DtsFault;
use crate::loaded::Consumer;
use crate::specifiers::Named;
use clk_base::{ClockId, Kind};
use clk_io::NoMemory;
use dts_bindings::{Binding, BoundClock, Node};
use std::alloc::Global;

/// The most entries of assigned clocks.
const MOST_ENTRIES: usize = 4096;

/// What the specifiers of a node say.
#[derive(Drop)]
pub(crate) struct Links {
    pub(crate) parents: Vec<ClockId>,
    pub(crate) consumer: Option<Consumer>,
    pub(crate) lists: Lists,
}

// The clocks, where none is a null.
fn all_there(alloc: Global, clocks: &[Option<ClockId>]) -> Result<Option<Vec<ClockId>>, NoMemory>
    ensures { IfOk result (λ there. option_map (λ v. v.items) there ≡ all_there clocks.now) }
{
    let mut there = Vec::new(alloc);
    for clock in clocks {
        let Some(clock) = *clock else {
            return Ok(None);
        };
        there.push(clock)?;
    }
    Ok(Some(there))
}

// Whether a clock of this kind can have so many possible parents.
fn can_have_parents(kind: Kind, parents: usize) -> bool
    ensures { result ≡ can_have_parents kind parents }
{
    match kind {
        Kind::FixedRate { .. } => parents == 0,
        Kind::Mux { .. } => parents > 0,
        Kind::Factor { .. } => parents == 1,
        Kind::Gate { .. } => parents == 1,
        Kind::Divider { .. } => parents == 1,
        Kind::Pll { .. } => parents == 1,
    }
}

// Whether each clock can have so many possible parents.
fn can_each_have(clocks: &[BoundClock], parents: usize) -> bool
    ensures { result ≡ list_all (λ c. can_have_parents c.kind parents) clocks.now }
{
    clocks
        .iter()
        .all(|clock| can_have_parents(clock.kind, parents))
}

// The possible parents of a provider's clocks.
#[tactic(auto, unfolding(crate::specs::SecondPass::parents_of))]
fn parents_of(
    alloc: Global,
    chart: &Named<'_>,
    binding: &Binding,
) -> Result<Option<Vec<ClockId>>, NoMemory>
    ensures { IfOk result (λ parents. option_map (λ v. v.items) parents ≡ parents_of chart.now (seen_binding binding.now)) }
{
    let Some(clocks) = chart.clocks(alloc, &binding.inputs)? else {
        return Ok(None);
    };
    let Some(parents) = all_there(alloc, &clocks)? else {
        return Ok(None);
    };
    if !can_each_have(&binding.clocks, parents.len()) {
        return Ok(None);
    }
    Ok(Some(parents))
}

// The possible parents of the clocks of a node; none where it has no binding.
fn parents_by(
    alloc: Global,
    chart: &Named<'_>,
    binding: &Option<Binding>,
) -> Result<Option<Vec<ClockId>>, NoMemory>
    ensures { IfOk result (λ parents. option_map (λ v. v.items) parents
        ≡ option_map_or (parents_of chart.now) (option_map seen_binding binding.now) (Some [])) }
{
    match binding {
        Some(binding) => parents_of(alloc, chart, binding),
        None => Ok(Some(Vec::new(alloc))),
    }
}

// What the specifiers of a node say. None where one of them is bad.
fn links_of(
    alloc: Global,
    chart: &Named<'_>,
    binding: &Option<Binding>,
    at: usize,
    node: &Node<'_>,
) -> Result<Option<Links>, NoMemory>
    requires within { at < length chart.now }
    requires bound { option_map seen_binding binding.now ≡ binding_at chart.now at }
    ensures { IfOk result (λ links. option_map seen_links links ≡ links_of chart.now at node.now) }
{
    let Some(parents) = parents_by(alloc, chart, binding)? else {
        return Ok(None);
    };
    let Some(consumer) = consumer_of(alloc, chart, at, node)? else {
        return Ok(None);
    };
    let Some(lists) = lists_of(alloc, chart, node)? else {
        return Ok(None);
    };
    Ok(Some(Links {
        parents,
        consumer,
        lists,
    }))
}

// Whether the entries so far and those of the lists are too many.
fn are_too_many(before: usize, lists: &Lists) -> bool
    requires { before ≤ 4096 }
    ensures { result ≡ nat_lt most_entries (before + entries (seen_lists lists.now)) }
{
    let parents = lists.parents.len();
    let rates = lists.rates.len();
    if parents > MOST_ENTRIES {
        return true;
    }
    if rates > MOST_ENTRIES {
        return true;
    }
    before + parents + rates > MOST_ENTRIES
}

// Whether the assigned clocks of a node are bad, by the entries so far.
fn is_bad(before: usize, node: &Node<'_>, lists: &Lists) -> bool
    requires { before ≤ 4096 }
    ensures { result ≡ (is_too_long (seen_lists lists.now) || lacks_clocks node.now || nat_lt most_entries (before + entries (seen_lists lists.now))) }
{
    is_too_long(lists) || lacks_clocks(node) || are_too_many(before, lists)
}

/// What the specifiers of the node of a place say, where it isn't passed over.
pub(crate) fn look(
    alloc: Global,
    chart: &Named<'_>,
    binding: &Option<Binding>,
    before: usize,
    at: usize,
) -> Result<Option<Links>, DtsFault>
    requires within { at < length chart.now }
    requires bound { option_map seen_binding binding.now ≡ binding_at chart.now at }
    requires before { before ≡ total (entries_at chart.now) at }
    requires few { before ≤ 4096 }
    ensures links { IfOk result (λ links. option_map seen_links links ≡ links_at chart.now at) }
    ensures few { IfOk result (λ links. option_map_or (λ l. before + entries (seen_lists l.lists)) links 0 ≤ 4096) }
    ensures none { OnOk result (second_fault chart.now at ≡ None) }
    ensures err { IfErr result (λ e. Tells e (second_fault chart.now at)) }
{
    if chart.is_passed(at) {
        return Ok(None);
    }
    let node = chart.node(at);
    let Some(links) = links_of(alloc, chart, binding, at, &node)? else {
        return Err(DtsFault::BadSpecifier(node.line()));
    };
    if is_bad(before, &node, &links.lists) {
        return Err(DtsFault::BadAssigned(node.line()));
    }
    Ok(Some(links))
}
