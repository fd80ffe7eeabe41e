//! What a provider's node says of its clocks, read.

ghost use Rattle.std.specs.Prelude.{◌≡◌, map, IfOk};
ghost use Rattle.std.specs.List.{list_all};
ghost use Rattle.std.specs.Option.{option_map};
ghost use Rattle.dts_bindings.specs.Binding.{seen_binding, inputs_in, row_flags, is_clean, filled, binding_as, binding_of, Binds};
ghost use Rattle.dts_tree.specs.Tree.{seen_value};

use crate::bound::Binding;
use crate::clocks::clocks;
use crate::fault::BindingFault;
use crate::formed::{has_backslash, is_sound};
use crate::kinds::flags;
use crate::node::Node;
use crate::properties::values;
use crate::reading::cells;
use crate::table::{Row, row_of};
use bitflags::Flags;
use clk_base::ClkFlags;
use clk_io::NoMemory;
use dts_tree::{Cell, DtsValue};
use std::alloc::Global;

// The cells of `clocks`, one at least; a fixed clock reads none.
#[tactic(auto, unfolding(crate::specs::Binding::inputs_in))]
fn inputs(alloc: Global, row: Row, node: &Node<'_>) -> Result<Option<Vec<Cell>>, NoMemory>
    ensures { IfOk result (λ found. option_map (λ v. v.items) found ≡ inputs_in row node.now) }
{
    if row == Row::Fixed {
        return Ok(Some(Vec::new(alloc)));
    }
    let Some(found) = cells(alloc, values(node, "clocks"))? else {
        return Ok(None);
    };
    if found.is_empty() {
        return Ok(None);
    }
    Ok(Some(found))
}

// The flags of a row's clocks; a fixed clock has none.
#[tactic(auto, unfolding(crate::specs::Binding::row_flags))]
fn row_flags(row: Row, node: &Node<'_>) -> Option<ClkFlags>
    ensures { result ≡ row_flags row node.now }
{
    match row {
        Row::Fixed => Some(ClkFlags::empty()),
        _ => flags(node),
    }
}

// A value that is no string with a backslash.
fn is_clean(value: &DtsValue) -> bool
    ensures { result ≡ is_clean (seen_value value.now) }
{
    match value {
        DtsValue::Text(text) => !has_backslash(text.as_str()),
        _ => true,
    }
}

// No string of the values has a backslash.
fn are_clean(values: &[DtsValue]) -> bool
    ensures { result ≡ list_all is_clean (map seen_value values.now) }
{
    values.iter().all(|value| is_clean(value))
}

// What the properties of a row say, where all of them are as they have to be.
#[tactic(auto, unfolding(crate::specs::Binding::filled))]
fn filled(alloc: Global, row: Row, node: &Node<'_>) -> Result<Option<Binding>, NoMemory>
    ensures { IfOk result (λ found. option_map seen_binding found ≡ filled row node.now) }
{
    if !(is_sound(node) && are_clean(values(node, "compatible"))) {
        return Ok(None);
    }
    let Some(inputs) = inputs(alloc, row, node)? else {
        return Ok(None);
    };
    let Some(clocks) = clocks(alloc, row, node)? else {
        return Ok(None);
    };
    let Some(flags) = row_flags(row, node) else {
        return Ok(None);
    };
    Ok(Some(Binding {
        cells: row.cells(),
        wants: row.wants(),
        inputs,
        clocks,
        flags,
    }))
}

// What a node of this row says.
#[tactic(auto, unfolding(crate::specs::Binding::binding_as))]
fn binding_as(alloc: Global, row: Row, node: &Node<'_>) -> Result<Binding, BindingFault>
    ensures { Binds result (binding_as row node.now) }
{
    if !row.has_its_cells(node) {
        return Err(BindingFault::NoCells);
    }
    match filled(alloc, row, node)? {
        Some(binding) => Ok(binding),
        None => Err(BindingFault::MissingProperty),
    }
}

/// What a provider's node says of its clocks by itself.
#[tactic(auto, unfolding(crate::specs::Binding::binding_of))]
pub fn binding(alloc: Global, node: &Node<'_>) -> Result<Binding, BindingFault>
    ensures { Binds result (binding_of node.now) }
{
    match row_of(node) {
        Some(row) => binding_as(alloc, row, node),
        None => Err(BindingFault::UnknownCompatible),
    }
}
