//! The first look at the nodes: the bindings of the providers and the names of their clocks.

ghost use Rattle.std.specs.Prelude.{◌≡◌, ◌<◌, ◌+◌, ◌++◌, ◌&&◌, [], Some, None, Ok, not, false, map, length, IfOk, IfErr, OnOk, string_bytes};
ghost use Rattle.std.specs.Bool.{OnTrue};
ghost use Rattle.std.specs.List.{list_all};
ghost use Rattle.std.specs.Option.{option_map, option_map_or};
ghost use Rattle.bundle_text.specs.Firsts.{KeepsBelow};
ghost use Rattle.bundle_text.specs.Names.{is_clock_name};
ghost use Rattle.dts_bindings.specs.Binding.{seen_binding, binding_of};
ghost use Rattle.dts_bindings.specs.Clocks.{seen_clock};
ghost use Rattle.dts_bindings.specs.Properties.{is_provider};
ghost use Rattle.dts_clocks.specs.Clocks.{own_binding, binding_at, bindings_of, seen_bindings};
ghost use Rattle.dts_clocks.specs.Faults.{Tells, Finds};
ghost use Rattle.dts_clocks.specs.FirstPass.{names_in, names_before, has_twin, wants_one, own_fault, binding_fault, provider_fault, node_fault, first_fault};
ghost use Rattle.dts_clocks.specs.References.{are_there, behind_identifier, leaves_over};

use crate::chart::Chart;
use crate::fault::DtsFault;
use crate::reference::Reference;
use crate::taken::TakenNames;
use bundle_text::is_clock_name;
use clk_io::NoMemory;
use dts_bindings::{
    Binding, BindingFault, BoundClock, Node, Wants, binding, is_formed, is_provider,
};
use dts_tree::Cell;
use std::alloc::Global;

// Whether the first specifier can be read, and cells are left over.
fn leaves_over(chart: &Chart<'_>, cells: &[Cell]) -> bool
    ensures { result ≡ leaves_over chart.now cells.now }
{
    match cells {
        [] => false,
        [cell, rest @ ..] => match chart.reference(*cell) {
            Reference::Whole(_) => !rest.is_empty(),
            Reference::Begun(_) => leaves_over_identifier(rest),
            Reference::Null => false,
            Reference::Lacking => false,
        },
    }
}

// Whether a number stands first, and cells are left over.
fn leaves_over_identifier(cells: &[Cell]) -> bool
    ensures { result ≡ option_map_or are_there (behind_identifier cells.now) false }
{
    match cells {
        [] => false,
        [Cell::Node(_), ..] => false,
        [Cell::Number(_), rest @ ..] => !rest.is_empty(),
    }
}

// Whether one specifier is wanted.
fn wants_one(wants: Wants) -> bool
    ensures { result ≡ wants_one wants }
{
    match wants {
        Wants::One => true,
        Wants::Nothing => false,
        Wants::Some => false,
    }
}

// Whether the clocks have names that clocks can have.
fn are_named(clocks: &[BoundClock]) -> bool
    ensures { result ≡ list_all (λ c. is_clock_name (string_bytes c.name)) clocks.now }
{
    clocks
        .iter()
        .all(|clock| is_clock_name(clock.name.as_str()))
}

// Takes the clocks' names. False where one of them is taken.
fn take_names(
    alloc: Global,
    taken: &mut TakenNames,
    clocks: &[BoundClock],
) -> Result<bool, NoMemory>
    ensures fresh { IfOk result (λ fresh. fresh ≡ not (has_twin taken.old (map (λ c. c.name) (map seen_clock clocks.now)))) }
    ensures taken { IfOk result (λ fresh. OnTrue fresh
        (taken.new ≡ taken.old ++ map (λ c. c.name) (map seen_clock clocks.now))) }
{
    for clock in clocks {
        if !taken.take(alloc, clock.name.as_str())? {
            return Ok(false);
        }
    }
    Ok(true)
}

// The fault of a node by itself, with the node's line.
fn own_fault(line: u32, fault: BindingFault) -> DtsFault
    ensures { result ≡ own_fault line fault }
{
    match fault {
        BindingFault::UnknownCompatible => DtsFault::UnknownCompatible(line),
        BindingFault::NoCells => DtsFault::NoCells(line),
        BindingFault::MissingProperty => DtsFault::MissingProperty(line),
        BindingFault::NoMemory => DtsFault::NoMemory,
    }
}

// Whether a binding wants one specifier, and more stands there.
fn has_too_many(chart: &Chart<'_>, binding: &Binding) -> bool
    ensures { result ≡ (wants_one binding.now.wants && leaves_over chart.now binding.now.inputs.items) }
{
    wants_one(binding.wants) && leaves_over(chart, &binding.inputs)
}

// Judges a binding, and takes the names of its clocks.
fn judge(
    alloc: Global,
    chart: &Chart<'_>,
    taken: &mut TakenNames,
    line: u32,
    binding: &Binding,
) -> Result<(), DtsFault>
    ensures none { OnOk result (binding_fault chart.now taken.old line (seen_binding binding.now) ≡ None) }
    ensures taken { OnOk result (taken.new ≡ taken.old ++ names_in (seen_binding binding.now)) }
    ensures err { IfErr result (λ e. Tells e (binding_fault chart.now taken.old line (seen_binding binding.now))) }
{
    if has_too_many(chart, binding) {
        return Err(DtsFault::MissingProperty(line));
    }
    if !are_named(&binding.clocks) {
        return Err(DtsFault::BadName(line));
    }
    if !take_names(alloc, taken, &binding.clocks)? {
        return Err(DtsFault::TwiceNamed(line));
    }
    Ok(())
}

// The binding of a provider.
fn provider(
    alloc: Global,
    chart: &Chart<'_>,
    taken: &mut TakenNames,
    node: &Node<'_>,
) -> Result<Binding, DtsFault>
    ensures binding { IfOk result (λ b. binding_of node.now ≡ Ok (seen_binding b)) }
    ensures none { OnOk result (provider_fault chart.now taken.old node.now.line (binding_of node.now) ≡ None) }
    ensures taken { IfOk result (λ b. taken.new ≡ taken.old ++ names_in (seen_binding b)) }
    ensures err { IfErr result (λ e. Tells e (provider_fault chart.now taken.old node.now.line (binding_of node.now))) }
{
    match binding(alloc, node) {
        Ok(binding) => {
            judge(alloc, chart, taken, node.line(), &binding)?;
            Ok(binding)
        }
        Err(fault) => Err(own_fault(node.line(), fault)),
    }
}

// The binding of a node that isn't passed over, where it is a provider.
#[tactic(auto, unfolding(crate::specs::FirstPass::node_fault, crate::specs::Clocks::own_binding))]
fn look_at(
    alloc: Global,
    chart: &Chart<'_>,
    taken: &mut TakenNames,
    node: &Node<'_>,
) -> Result<Option<Binding>, DtsFault>
    ensures binding { IfOk result (λ b. option_map seen_binding b ≡ own_binding node.now) }
    ensures none { OnOk result (node_fault chart.now taken.old node.now ≡ None) }
    ensures taken { IfOk result (λ b. taken.new ≡ taken.old ++ option_map_or (λ k. names_in (seen_binding k)) b []) }
    ensures err { IfErr result (λ e. Tells e (node_fault chart.now taken.old node.now)) }
{
    if is_provider(node) {
        let binding = provider(alloc, chart, taken, node)?;
        return Ok(Some(binding));
    }
    if !is_formed(node) {
        return Err(DtsFault::MissingProperty(node.line()));
    }
    Ok(None)
}

// The binding of the node of a place, where it is a provider and isn't passed over.
fn look(
    alloc: Global,
    chart: &Chart<'_>,
    taken: &mut TakenNames,
    at: usize,
) -> Result<Option<Binding>, DtsFault>
    requires within { at < length chart.now }
    requires taken { taken.old ≡ names_before chart.now at }
    ensures binding { IfOk result (λ b. option_map seen_binding b ≡ binding_at chart.now at) }
    ensures none { OnOk result (first_fault chart.now at ≡ None) }
    ensures taken { OnOk result (taken.new ≡ names_before chart.now (at + 1)) }
    ensures err { IfErr result (λ e. Tells e (first_fault chart.now at)) }
{
    if chart.is_passed(at) {
        return Ok(None);
    }
    look_at(alloc, chart, taken, &chart.node(at))
}

/// The bindings of the providers that aren't passed over, by their nodes.
pub(crate) fn read_bindings(
    alloc: Global,
    chart: &Chart<'_>,
) -> Result<Vec<Option<Binding>>, DtsFault>
    ensures bindings { IfOk result (λ found. seen_bindings found.items ≡ bindings_of chart.now) }
    ensures none { OnOk result (KeepsBelow (first_fault chart.now) (length chart.now)) }
    ensures err { IfErr result (λ e. Finds (first_fault chart.now) (length chart.now) e) }
{
    let mut taken = TakenNames::new(alloc);
    let mut found = Vec::new(alloc);
    for at in 0..chart.len() {
        let binding = look(alloc, chart, &mut taken, at)?;
        found.push(binding)?;
    }
    Ok(found)
}
