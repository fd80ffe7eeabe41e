//! Which clock a specifier names.

ghost use Rattle.std.specs.Prelude.{◌≡◌, ◌<◌, ◌++◌, Some, None, map, length, IfOk, OnOk, if◌then◌else◌};
ghost use Rattle.std.specs.HashMap.{get};
ghost use Rattle.std.specs.List.{position};
ghost use Rattle.std.specs.Option.{option_or, option_map};
ghost use Rattle.clk_base.specs.declared.clock.ClockId.{ClockId};
ghost use Rattle.dts_clocks.specs.declared.reference.Specifier.{Specifier};
ghost use Rattle.dts_clocks.specs.Clocks.{bindings_of, seen_bindings, clock_id, clock_of, clocks_of};
ghost use Rattle.dts_clocks.specs.Heads.{same_specifier, head_by, head_of, heads_by, names_head};

use crate::chart::Chart;
use crate::reference::Specifier;
use clk_base::ClockId;
use clk_io::NoMemory;
use dts_bindings::{Binding, BoundClock};
use std::alloc::Global;
use std::collections::HashMap;

/// What tells a clock from others: its provider's node and its identifier there.
#[derive(Clone, Copy, Debug, PartialEq, Eq)]
pub(crate) struct Head {
    pub(crate) node: usize,
    pub(crate) identifier: u32,
}

// The heads of these clocks of a node, behind those so far.
fn push_heads(heads: &mut Vec<Head>, node: usize, clocks: &[BoundClock]) -> Result<(), NoMemory>
    ensures { OnOk result (heads.new.items ≡ heads.old.items ++ map (head_by node) clocks.now) }
{
    for clock in clocks {
        heads.push(Head {
            node,
            identifier: clock.identifier,
        })?;
    }
    Ok(())
}

// The heads of the clocks of a node's binding, if it has one, behind those so far.
fn push_bound(heads: &mut Vec<Head>, node: usize, binding: &Option<Binding>) -> Result<(), NoMemory>
    ensures { OnOk result (heads.new.items ≡ heads.old.items ++ heads_by node binding.now) }
{
    match binding {
        Some(binding) => push_heads(heads, node, &binding.clocks),
        None => Ok(()),
    }
}

// The heads of all clocks.
fn heads(
    alloc: Global,
    chart: &Chart<'_>,
    bindings: &[Option<Binding>],
) -> Result<Vec<Head>, NoMemory>
    requires { seen_bindings bindings.now ≡ bindings_of chart.now }
    ensures { IfOk result (λ heads. heads.items ≡ map head_of (clocks_of chart.now)) }
{
    let mut heads = Vec::new(alloc);
    for at in 0..chart.len() {
        push_bound(&mut heads, at, &bindings[at])?;
    }
    Ok(heads)
}

// Notes what a specifier names, where no earlier clock is named by it.
fn note(
    numbers: &mut HashMap<Specifier, ClockId>,
    specifier: Specifier,
    clock: ClockId,
) -> Result<(), NoMemory>
    ensures { OnOk result ((s : Specifier) → get same_specifier numbers.new s
        ≡ option_or (get same_specifier numbers.old s) (if same_specifier specifier s then Some clock else None)) }
{
    if numbers.contains_key(&specifier) {
        return Ok(());
    }
    numbers.insert(specifier, clock)?;
    Ok(())
}

// Notes the two specifiers that may name a clock.
fn note_clock(
    numbers: &mut HashMap<Specifier, ClockId>,
    head: Head,
    clock: ClockId,
) -> Result<(), NoMemory>
    ensures { OnOk result ((s : Specifier) → get same_specifier numbers.new s
        ≡ option_or (get same_specifier numbers.old s) (if names_head s head then Some clock else None)) }
{
    let whole = Specifier {
        node: head.node,
        identifier: None,
    };
    let identified = Specifier {
        node: head.node,
        identifier: Some(head.identifier),
    };
    note(numbers, whole, clock)?;
    note(numbers, identified, clock)
}

// The clock of each specifier that names one.
fn numbers(alloc: Global, heads: &[Head]) -> Result<HashMap<Specifier, ClockId>, NoMemory>
    ensures { IfOk result (λ numbers. (s : Specifier) → get same_specifier numbers s ≡ option_map clock_id (position (names_head s) heads.now)) }
{
    let mut numbers = HashMap::new(alloc);
    for at in 0..heads.len() {
        let Ok(place) = u32::try_from(at) else {
            return Err(NoMemory);
        };
        note_clock(&mut numbers, heads[at], ClockId(place))?;
    }
    Ok(numbers)
}

/// The clock of each specifier that names one, by the bindings of the nodes.
pub(crate) fn specifier_numbers(
    alloc: Global,
    chart: &Chart<'_>,
    bindings: &[Option<Binding>],
) -> Result<HashMap<Specifier, ClockId>, NoMemory>
    requires { seen_bindings bindings.now ≡ bindings_of chart.now }
    ensures { IfOk result (λ numbers. (s : Specifier) → get same_specifier numbers s ≡ clock_of chart.now s) }
{
    let heads = heads(alloc, chart, bindings)?;
    let numbers = numbers(alloc, &heads)?;
    Ok(numbers)
}
