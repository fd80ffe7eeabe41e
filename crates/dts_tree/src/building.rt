//! From tables to the tree.

ghost use Rattle.std.specs.Prelude.{◌≡◌, All, IsUtf8, map, slice_range, slice_get, string_bytes, IfOk, IfErr, OnOk, List, [], ◌++◌, ℕ};
ghost use Rattle.std.specs.List.{filter_map};
ghost use Rattle.std.specs.Option.{option_map, option_to_list};
ghost use Rattle.dts_tree.specs.declared.rows.NodeRow.{NodeRow};
ghost use Rattle.dts_tree.specs.declared.rows.PropertyRow.{PropertyRow};
ghost use Rattle.dts_tree.specs.Held.{Holds, HoldsNode, HoldsProperty, HoldsValue, IsNumber};
ghost use Rattle.dts_tree.specs.State.{state_of};
ghost use Rattle.dts_tree.specs.Tree.{SeenProperty, seen_value, seen_property, seen_node, cell_in, byte_in, value_in, property_in, node_in, nodes_in, tree_of, add_at};

use crate::fault::TreeFault;
use crate::reader::{Reader, text_of};
use crate::rows::{Item, NodeRow, PropertyRow, ValueRow};
use crate::tree::{Cell, DtsNode, DtsProperty, DtsValue};
use clk_io::push_some;
use std::alloc::Global;

// The elements from `from` to before `to`, as far as there are any.
fn part<T>(rows: &[T], from: usize, to: usize) -> &[T]
    ensures { result.now ≡ slice_range rows.now from to }
{
    let from = from.min(rows.len());
    let to = to.min(rows.len()).max(from);
    &rows[from..to]
}

// A text of its own.
fn owned(alloc: Global, bytes: &[u8]) -> Result<String, TreeFault>
    requires { IsUtf8 bytes.now }
    ensures text { IfOk result (λ text. string_bytes text ≡ bytes.now) }
    ensures err { IfErr result (λ e. e ≡ TreeFault.NoMemory) }
{
    match str::from_utf8(bytes) {
        Ok(text) => Ok(String::from_str(alloc, text)?),
        Err(_) => unreachable!(),
    }
}

// The node that a reference means.
fn target(targets: &[usize], place: usize) -> Option<u32>
    requires { All IsNumber targets.now }
    ensures { result ≡ slice_get targets.now place }
{
    match targets.get(place) {
        Some(node) => Some(*node as u32),
        None => None,
    }
}

// The byte that an item is.
fn byte(item: Item) -> Option<u8>
    ensures { result ≡ byte_in item }
{
    match item {
        Item::Byte(byte) => Some(byte),
        _ => None,
    }
}

// What a cell holds.
fn cell(targets: &[usize], item: Item) -> Option<Cell>
    requires { All IsNumber targets.now }
    ensures { result ≡ cell_in targets.now item }
{
    match item {
        Item::Number(numeral) => Some(Cell::Number(numeral.value)),
        Item::Reference(place) => match target(targets, place) {
            Some(node) => Some(Cell::Node(node)),
            None => None,
        },
        Item::Byte(_) => None,
    }
}

// The cells of these items.
fn cells(alloc: Global, targets: &[usize], items: &[Item]) -> Result<Vec<Cell>, TreeFault>
    requires { All IsNumber targets.now }
    ensures cells { IfOk result (λ cells. cells.items ≡ filter_map (cell_in targets.now) items.now) }
    ensures err { IfErr result (λ e. e ≡ TreeFault.NoMemory) }
{
    let mut found = Vec::new(alloc);
    for item in items {
        push_some(&mut found, cell(targets, *item))?;
    }
    Ok(found)
}

// The bytes of these items.
fn bytes(alloc: Global, items: &[Item]) -> Result<Vec<u8>, TreeFault>
    ensures bytes { IfOk result (λ bytes. bytes.items ≡ filter_map byte_in items.now) }
    ensures err { IfErr result (λ e. e ≡ TreeFault.NoMemory) }
{
    let mut found = Vec::new(alloc);
    for item in items {
        push_some(&mut found, byte(*item))?;
    }
    Ok(found)
}

// A value of a property.
#[tactic(auto, unfolding(crate::specs::Tree::value_in))]
fn value(
    alloc: Global,
    text: &str,
    items: &[Item],
    targets: &[usize],
    row: ValueRow,
) -> Result<Option<DtsValue>, TreeFault>
    requires numbers { All IsNumber targets.now }
    requires held { HoldsValue text.now row }
    ensures value { IfOk result (λ value. option_map seen_value value ≡ value_in text.now items.now targets.now row) }
    ensures err { IfErr result (λ e. e ≡ TreeFault.NoMemory) }
{
    match row {
        ValueRow::Text(token) => {
            let inside = part(
                text.as_bytes(),
                token.from.saturating_add(1),
                token.to.saturating_sub(1),
            );
            Ok(Some(DtsValue::Text(owned(alloc, inside)?)))
        }
        ValueRow::Cells(found) => Ok(Some(DtsValue::Cells(cells(
            alloc,
            targets,
            part(items, found.from, found.to),
        )?))),
        ValueRow::Bytes(found) => Ok(Some(DtsValue::Bytes(bytes(
            alloc,
            part(items, found.from, found.to),
        )?))),
        ValueRow::Node(place) => match target(targets, place) {
            Some(node) => Ok(Some(DtsValue::Node(node))),
            None => Ok(None),
        },
    }
}

// The values of these rows.
fn values(
    alloc: Global,
    text: &str,
    items: &[Item],
    targets: &[usize],
    rows: &[ValueRow],
) -> Result<Vec<DtsValue>, TreeFault>
    requires numbers { All IsNumber targets.now }
    requires held { All (HoldsValue text.now) rows.now }
    ensures values { IfOk result (λ values. map seen_value values.items ≡ filter_map (value_in text.now items.now targets.now) rows.now) }
    ensures err { IfErr result (λ e. e ≡ TreeFault.NoMemory) }
{
    let mut found = Vec::new(alloc);
    for row in rows {
        let value = value(alloc, text, items, targets, *row)?;
        push_some(&mut found, value)?;
    }
    Ok(found)
}

// A property with its values.
#[tactic(auto, unfolding(crate::specs::Tree::property_in))]
fn property(
    alloc: Global,
    text: &str,
    reader: &Reader<'_>,
    targets: &[usize],
    row: PropertyRow,
) -> Result<DtsProperty, TreeFault>
    requires numbers { All IsNumber targets.now }
    requires values { All (HoldsValue text.now) reader.now.values.items }
    requires held { HoldsProperty text.now row }
    ensures property { IfOk result (λ property. seen_property property ≡ property_in text.now (state_of reader.now).tables targets.now row) }
    ensures err { IfErr result (λ e. e ≡ TreeFault.NoMemory) }
{
    let rows = part(&reader.values, row.from, row.to);
    let values = values(alloc, text, &reader.items, targets, rows)?;
    let name = owned(alloc, text_of(text, row.name))?;
    Ok(DtsProperty {
        name,
        line: row.name.line,
        values,
    })
}

// A node without its properties.
fn bare_node(alloc: Global, text: &str, row: NodeRow) -> Result<DtsNode, TreeFault>
    requires { HoldsNode text.now row }
    ensures node { IfOk result (λ node. (shows : PropertyRow → SeenProperty) (k : ℕ) → seen_node node ≡ node_in text.now shows [] k row) }
    ensures err { IfErr result (λ e. e ≡ TreeFault.NoMemory) }
{
    let properties = Vec::new(alloc);
    match row.parent {
        Some(parent) => Ok(DtsNode {
            name: owned(alloc, text_of(text, row.name))?,
            line: row.name.line,
            parent: Some(parent as u32),
            properties,
        }),
        None => Ok(DtsNode {
            name: String::new(alloc),
            line: row.name.line,
            parent: None,
            properties,
        }),
    }
}

// The nodes without their properties.
fn bare_nodes(alloc: Global, text: &str, rows: &[NodeRow]) -> Result<Vec<DtsNode>, TreeFault>
    requires { All (HoldsNode text.now) rows.now }
    ensures nodes { IfOk result (λ nodes. (shows : PropertyRow → SeenProperty) → map seen_node nodes.items ≡ nodes_in text.now shows [] 0 rows.now) }
    ensures err { IfErr result (λ e. e ≡ TreeFault.NoMemory) }
{
    let mut nodes = Vec::new(alloc);
    for row in rows {
        let node = bare_node(alloc, text, *row)?;
        nodes.push(node)?;
    }
    Ok(nodes)
}

// A property more at the node of this place.
fn add(nodes: &mut Vec<DtsNode>, place: usize, property: DtsProperty) -> Result<(), TreeFault>
    ensures added { OnOk result (map seen_node nodes.new.items ≡ add_at place (seen_property property) (map seen_node nodes.old.items)) }
    ensures err { IfErr result (λ e. e ≡ TreeFault.NoMemory) }
{
    if place < nodes.len() {
        nodes[place].properties.push(property)?;
    }
    Ok(())
}

// These properties, each at its node.
fn fill(
    alloc: Global,
    text: &str,
    reader: &Reader<'_>,
    targets: &[usize],
    rows: &[PropertyRow],
    nodes: &mut Vec<DtsNode>,
) -> Result<(), TreeFault>
    requires numbers { All IsNumber targets.now }
    requires values { All (HoldsValue text.now) reader.now.values.items }
    requires held { All (HoldsProperty text.now) rows.now }
    ensures filled { OnOk result ((bare : List NodeRow) → let shows = property_in text.now (state_of reader.now).tables targets.now in
        map seen_node nodes.old.items ≡ nodes_in text.now shows [] 0 bare → map seen_node nodes.new.items ≡ nodes_in text.now shows rows.now 0 bare) }
    ensures err { IfErr result (λ e. e ≡ TreeFault.NoMemory) }
{
    for row in rows {
        let property = property(alloc, text, reader, targets, *row)?;
        add(nodes, row.node, property)?;
    }
    Ok(())
}

/// The nodes with their properties.
#[tactic(auto, unfolding(crate::specs::Tree::tree_of))]
pub(crate) fn nodes(
    alloc: Global,
    text: &str,
    reader: &Reader<'_>,
    targets: &[usize],
) -> Result<Vec<DtsNode>, TreeFault>
    requires numbers { All IsNumber targets.now }
    requires held { Holds text.now (state_of reader.now).tables }
    ensures nodes { IfOk result (λ nodes. map seen_node nodes.items ≡ tree_of text.now (state_of reader.now).tables targets.now) }
    ensures err { IfErr result (λ e. e ≡ TreeFault.NoMemory) }
{
    let rows = reader.nodes.as_slice();
    let properties = reader.properties.as_slice();
    let mut nodes = bare_nodes(alloc, text, rows)?;
    fill(alloc, text, reader, targets, properties, &mut nodes)?;
    Ok(nodes)
}
