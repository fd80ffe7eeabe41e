//! The clocks of a provider.

ghost use Rattle.std.specs.Prelude.{◌≡◌, ◌==◌, map, IfOk};
ghost use Rattle.std.specs.List.{before_first, range_with_len, zip};
ghost use Rattle.std.specs.Option.{option_map};
ghost use Rattle.dts_bindings.specs.Clocks.{seen_clock, seen_clocks, names_in, only_name, own_name, one_clock, as_many, identifiers, gate_at, gates, clocks_in};
ghost use Rattle.dts_tree.specs.Tree.{seen_value};

use crate::bound::BoundClock;
use crate::formed::{are_plain, has_backslash};
use crate::kinds::{divider_kind, factor_kind, fixed_kind, gate_kind, mux_kind, number, pll_kind};
use crate::node::Node;
use crate::properties::values;
use crate::reading::{kept_texts, numbers};
use crate::table::Row;
use clk_base::Kind;
use clk_io::NoMemory;
use dts_tree::DtsValue;
use std::alloc::Global;

// What stands before the first `@`.
fn before_address(name: &str) -> &str
    ensures { result.now ≡ before_first (λ b. b == 64) name.now }
{
    match name.split_once('@') {
        Some((before, _)) => before,
        None => name,
    }
}

// The names that values are: strings without a backslash, one at least.
#[tactic(auto, unfolding(crate::specs::Clocks::names_in))]
fn names<'a>(alloc: Global, values: &'a [DtsValue]) -> Result<Option<Vec<&'a str>>, NoMemory>
    ensures { IfOk result (λ found. option_map (λ v. map (λ t. t.now) v.items) found ≡ names_in (map seen_value values.now)) }
{
    if values.is_empty() || !are_plain(values) {
        return Ok(None);
    }
    Ok(Some(kept_texts(alloc, values)?))
}

// The name that values are: one string without a backslash.
fn only_name(values: &[DtsValue]) -> Option<&str>
    ensures { option_map (λ t. t.now) result ≡ only_name (map seen_value values.now) }
{
    match values {
        [DtsValue::Text(text)] => {
            if has_backslash(text.as_str()) {
                None
            } else {
                Some(text.as_str())
            }
        }
        _ => None,
    }
}

// The name of a provider's one clock: the one that it states, else its own before the `@`.
#[tactic(auto, unfolding(crate::specs::Clocks::own_name))]
fn own_name<'a>(node: &Node<'a>) -> Option<&'a str>
    ensures { option_map (λ t. t.now) result ≡ own_name node.now }
{
    match node.property("clock-output-names") {
        Some(stated) => only_name(&stated.values),
        None => Some(before_address(node.name())),
    }
}

// A clock of this name.
fn clock(alloc: Global, name: &str, identifier: u32, kind: Kind) -> Result<BoundClock, NoMemory>
    ensures { IfOk result (λ clock. seen_clock clock ≡ record { name = name.now; identifier = identifier; kind = kind }) }
{
    let name = String::from_str(alloc, name)?;
    Ok(BoundClock {
        name,
        identifier,
        kind,
    })
}

// A provider's one clock.
#[tactic(auto, unfolding(crate::specs::Clocks::one_clock))]
fn one_clock(
    alloc: Global,
    kind: Option<Kind>,
    node: &Node<'_>,
) -> Result<Option<Vec<BoundClock>>, NoMemory>
    ensures { IfOk result (λ found. option_map seen_clocks found ≡ one_clock kind node.now) }
{
    let Some(kind) = kind else {
        return Ok(None);
    };
    let Some(name) = own_name(node) else {
        return Ok(None);
    };
    let mut clocks = Vec::new(alloc);
    clocks.push(clock(alloc, name, 0, kind)?)?;
    Ok(Some(clocks))
}

// The identifiers 0, 1 and on.
fn counted(alloc: Global, count: usize) -> Result<Vec<u32>, NoMemory>
    ensures { IfOk result (λ found. found.items ≡ range_with_len 0 count) }
{
    let Ok(count) = u32::try_from(count) else {
        return Err(NoMemory);
    };
    Ok((0..count).collect(alloc)?)
}

// The identifiers that are stated, where they are so many.
#[tactic(auto, unfolding(crate::specs::Clocks::as_many))]
fn stated(alloc: Global, count: usize, values: &[DtsValue]) -> Result<Option<Vec<u32>>, NoMemory>
    ensures { IfOk result (λ found. option_map (λ v. v.items) found ≡ as_many count (map seen_value values.now)) }
{
    let Some(found) = numbers(alloc, values)? else {
        return Ok(None);
    };
    if found.len() != count {
        return Ok(None);
    }
    Ok(Some(found))
}

// The identifiers of so many gates: those that are stated, else 0, 1 and on.
#[tactic(auto, unfolding(crate::specs::Clocks::identifiers))]
fn identifiers(alloc: Global, count: usize, node: &Node<'_>) -> Result<Option<Vec<u32>>, NoMemory>
    ensures { IfOk result (λ found. option_map (λ v. v.items) found ≡ identifiers count node.now) }
{
    match node.property("clock-indices") {
        Some(indices) => stated(alloc, count, &indices.values),
        None => Ok(Some(counted(alloc, count)?)),
    }
}

// The gate of this name whose identifier is its bit.
fn gate(alloc: Global, word: u32, name: &str, bit: u32) -> Result<BoundClock, NoMemory>
    ensures { IfOk result (λ clock. seen_clock clock ≡ gate_at word (name.now, bit)) }
{
    let kind = Kind::Gate {
        word,
        bit,
        set_to_disable: false,
    };
    clock(alloc, name, bit, kind)
}

// A gate for each name, as far as there are identifiers.
fn gates_of(
    alloc: Global,
    word: u32,
    names: &[&str],
    bits: &[u32],
) -> Result<Vec<BoundClock>, NoMemory>
    ensures { IfOk result (λ found. map seen_clock found.items ≡ map (gate_at word) (zip (map (λ t. t.now) names.now) bits.now)) }
{
    let mut found = Vec::new(alloc);
    for (place, name) in names.iter().enumerate() {
        let Some(bit) = bits.get(place) else {
            return Ok(found);
        };
        found.push(gate(alloc, word, name, *bit)?)?;
    }
    Ok(found)
}

// The clocks of a `bank,gates-clock`.
#[tactic(auto, unfolding(crate::specs::Clocks::gates))]
fn gates(alloc: Global, node: &Node<'_>) -> Result<Option<Vec<BoundClock>>, NoMemory>
    ensures { IfOk result (λ found. option_map seen_clocks found ≡ gates node.now) }
{
    let Some(word) = number(node, "bank,reg") else {
        return Ok(None);
    };
    let Some(names) = names(alloc, values(node, "clock-output-names"))? else {
        return Ok(None);
    };
    let Some(bits) = identifiers(alloc, names.len(), node)? else {
        return Ok(None);
    };
    Ok(Some(gates_of(alloc, word, &names, &bits)?))
}

/// The clocks of a node of this row.
#[tactic(auto, unfolding(crate::specs::Clocks::clocks_in))]
pub(crate) fn clocks(
    alloc: Global,
    row: Row,
    node: &Node<'_>,
) -> Result<Option<Vec<BoundClock>>, NoMemory>
    ensures { IfOk result (λ found. option_map seen_clocks found ≡ clocks_in row node.now) }
{
    match row {
        Row::Fixed => one_clock(alloc, fixed_kind(node), node),
        Row::Factor => one_clock(alloc, factor_kind(node), node),
        Row::Gate => one_clock(alloc, gate_kind(node), node),
        Row::Gates => gates(alloc, node),
        Row::Mux => one_clock(alloc, mux_kind(node), node),
        Row::Divider => one_clock(alloc, divider_kind(node), node),
        Row::Pll => one_clock(alloc, pll_kind(node), node),
    }
}
