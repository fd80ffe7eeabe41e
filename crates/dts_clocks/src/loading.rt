//! From the nodes and what they say to what is loaded.

ghost use Rattle.std.specs.Prelude.{◌≡◌, ◌<◌, ◌≤◌, ◌+◌, ◌++◌, ◌∷◌, [], Some, None, map, length, false, string_bytes, IfOk, IfErr, OnOk};
ghost use Rattle.std.specs.Option.{option_map, option_map_or, option_to_list};
ghost use Rattle.bundle_text.specs.Firsts.{KeepsBelow};
ghost use Rattle.clk_base.specs.Description.{has_name};
ghost use Rattle.dts_bindings.specs.Binding.{seen_binding};
ghost use Rattle.dts_bindings.specs.Clocks.{seen_clock};
ghost use Rattle.dts_clocks.specs.Assigned.{seen_lists, seen_assigned, assigned_of, entries};
ghost use Rattle.dts_clocks.specs.Clocks.{binding_at, bindings_of, seen_bindings};
ghost use Rattle.dts_clocks.specs.Faults.{Tells, Finds};
ghost use Rattle.dts_clocks.specs.FirstPass.{names_in, has_twin, first_fault};
ghost use Rattle.dts_clocks.specs.Joined.{total};
ghost use Rattle.dts_clocks.specs.Loaded.{seen_loaded, def_with, defs_with, lines_with, loaded_before, loaded_of};
ghost use Rattle.dts_clocks.specs.SecondPass.{entries_at, second_fault};

use crate::assigned::{Lists, assigned_of};
use crate::fault::DtsFault;
use crate::loaded::{Assigned, Consumer, Loaded};
use crate::second_pass::{Links, look};
use crate::specifiers::Named;
use clk_base::{AddFault, ClkFlags, ClockDef, ClockId, ClockName, Desc, Parents};
use clk_io::{NoMemory, push_some};
use dts_bindings::{Binding, BoundClock, Node};
use std::alloc::Global;

/// The greatest number of a clock; the first one is 0.
const MOST_CLOCKS: usize = 4_294_967_294;

// A clock more, with a name that no clock has.
fn push_clock(
    alloc: Global,
    desc: &mut Desc,
    flags: ClkFlags,
    parents: &[ClockId],
    clock: &BoundClock,
) -> Result<(), NoMemory>
    requires { has_name desc.old (string_bytes clock.now.name) ≡ false }
    ensures { OnOk result (desc.new ≡ desc.old ++ def_with flags parents.now (seen_clock clock.now) ∷ []) }
{
    if desc.len() > MOST_CLOCKS {
        return Err(NoMemory);
    }
    let name = String::from_str(alloc, clock.name.as_str())?;
    let parents = Vec::from_slice(alloc, parents)?;
    let def = ClockDef {
        name: ClockName::new(name),
        kind: clock.kind,
        flags,
        parents: Parents::new(parents),
    };
    match desc.add(def) {
        Ok(_) => Ok(()),
        Err(AddFault::TwiceNamed) => unreachable!(),
        Err(AddFault::NoMemory) => Err(NoMemory),
    }
}

// The clocks of a binding more. None of them has the name of a clock before.
fn push_clocks(
    alloc: Global,
    desc: &mut Desc,
    flags: ClkFlags,
    parents: &[ClockId],
    clocks: &[BoundClock],
) -> Result<(), NoMemory>
    requires { has_twin (map (λ d. d.name) desc.old) (map (λ c. c.name) (map seen_clock clocks.now)) ≡ false }
    ensures { OnOk result (desc.new ≡ desc.old ++ map (def_with flags parents.now) (map seen_clock clocks.now)) }
{
    for clock in clocks {
        push_clock(alloc, desc, flags, parents, clock)?;
    }
    Ok(())
}

// The line of each of these clocks more.
fn push_lines(lines: &mut Vec<u32>, line: u32, clocks: &[BoundClock]) -> Result<(), NoMemory>
    ensures { OnOk result (lines.new.items ≡ lines.old.items ++ map (λ c. line) (map seen_clock clocks.now)) }
{
    for _clock in clocks {
        lines.push(line)?;
    }
    Ok(())
}

// The clocks of a node and their lines more.
fn push_bound(
    alloc: Global,
    desc: &mut Desc,
    lines: &mut Vec<u32>,
    line: u32,
    binding: &Option<Binding>,
    parents: &[ClockId],
) -> Result<(), NoMemory>
    requires { option_map_or (λ b. has_twin (map (λ d. d.name) desc.old) (names_in b)) (option_map seen_binding binding.now) false ≡ false }
    ensures defs { OnOk result (desc.new ≡ desc.old ++ option_map_or (defs_with parents.now) (option_map seen_binding binding.now) []) }
    ensures lines { OnOk result (lines.new.items ≡ lines.old.items ++ option_map_or (lines_with line) (option_map seen_binding binding.now) []) }
{
    let Some(binding) = binding else {
        return Ok(());
    };
    push_clocks(alloc, desc, binding.flags, parents, &binding.clocks)?;
    push_lines(lines, line, &binding.clocks)?;
    Ok(())
}

// What a node says more.
fn add(
    alloc: Global,
    loaded: &mut Loaded,
    node: &Node<'_>,
    binding: &Option<Binding>,
    links: Links,
) -> Result<(), NoMemory>
    requires { option_map_or (λ b. has_twin (map (λ d. d.name) loaded.old.desc) (names_in b)) (option_map seen_binding binding.now) false ≡ false }
    ensures defs { OnOk result (loaded.new.desc ≡ loaded.old.desc ++ option_map_or (defs_with links.parents.items) (option_map seen_binding binding.now) []) }
    ensures lines { OnOk result (loaded.new.lines.items ≡ loaded.old.lines.items ++ option_map_or (lines_with node.now.line) (option_map seen_binding binding.now) []) }
    ensures consumers { OnOk result (loaded.new.consumers.items ≡ loaded.old.consumers.items ++ option_to_list links.consumer) }
    ensures assigned { OnOk result (map seen_assigned loaded.new.assigned.items
        ≡ map seen_assigned loaded.old.assigned.items ++ option_to_list (assigned_of node.now (seen_lists links.lists))) }
{
    let Links {
        parents,
        consumer,
        lists,
    } = links;
    push_bound(
        alloc,
        &mut loaded.desc,
        &mut loaded.lines,
        node.line(),
        binding,
        &parents,
    )?;
    let assigned = assigned_of(alloc, node, &lists)?;
    push_some(&mut loaded.assigned, assigned)?;
    push_some(&mut loaded.consumers, consumer)?;
    Ok(())
}

// The entries so far, with those of a node.
fn entries_with(before: usize, lists: &Lists) -> usize
    requires { before + entries (seen_lists lists.now) ≤ 4096 }
    ensures { result ≡ before + entries (seen_lists lists.now) }
{
    before + lists.parents.len() + lists.rates.len()
}

// What the node of a place says more. Gives the entries up to it.
fn add_at(
    alloc: Global,
    chart: &Named<'_>,
    binding: &Option<Binding>,
    before: usize,
    at: usize,
    loaded: &mut Loaded,
) -> Result<usize, DtsFault>
    requires within { at < length chart.now }
    requires bound { option_map seen_binding binding.now ≡ binding_at chart.now at }
    requires before { before ≡ total (entries_at chart.now) at }
    requires few { before ≤ 4096 }
    requires first { first_fault chart.now at ≡ None }
    requires second { KeepsBelow (second_fault chart.now) at }
    requires so_far { seen_loaded loaded.old ≡ loaded_before chart.now at }
    ensures loaded { OnOk result (seen_loaded loaded.new ≡ loaded_before chart.now (at + 1)) }
    ensures entries { IfOk result (λ n. n ≡ total (entries_at chart.now) (at + 1)) }
    ensures few { IfOk result (λ n. n ≤ 4096) }
    ensures none { OnOk result (second_fault chart.now at ≡ None) }
    ensures err { IfErr result (λ e. Tells e (second_fault chart.now at)) }
{
    let Some(links) = look(alloc, chart, binding, before, at)? else {
        return Ok(before);
    };
    let entries = entries_with(before, &links.lists);
    add(alloc, loaded, &chart.node(at), binding, links)?;
    Ok(entries)
}

/// What the nodes say.
pub(crate) fn load(
    alloc: Global,
    chart: &Named<'_>,
    bindings: &[Option<Binding>],
) -> Result<Loaded, DtsFault>
    requires bound { seen_bindings bindings.now ≡ bindings_of chart.now }
    requires first { KeepsBelow (first_fault chart.now) (length chart.now) }
    ensures loaded { IfOk result (λ l. seen_loaded l ≡ loaded_of chart.now) }
    ensures none { OnOk result (KeepsBelow (second_fault chart.now) (length chart.now)) }
    ensures err { IfErr result (λ e. Finds (second_fault chart.now) (length chart.now) e) }
{
    let mut loaded = Loaded {
        desc: Desc::new(alloc),
        lines: Vec::new(alloc),
        consumers: Vec::new(alloc),
        assigned: Vec::new(alloc),
    };
    let mut entries = 0;
    for at in 0..chart.len() {
        entries = add_at(alloc, chart, &bindings[at], entries, at, &mut loaded)?;
    }
    Ok(loaded)
}
