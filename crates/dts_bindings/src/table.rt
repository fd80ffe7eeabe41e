//! The table of bindings: its rows, and which of them a node has.

ghost use Rattle.std.specs.Prelude.{◌≡◌, map, slice_get};
ghost use Rattle.std.specs.List.{filter_map};
ghost use Rattle.dts_bindings.specs.Table.{row_named, row_in, row_of, cells_behind, states_cells, wants_of};
ghost use Rattle.dts_tree.specs.Tree.{seen_value};

use crate::bound::Wants;
use crate::node::Node;
use crate::nodes::clock_cells;
use crate::properties::values;
use dts_tree::DtsValue;

/// A row of the table, named after the clocks that it binds.
#[derive(Clone, Copy, Debug, PartialEq, Eq)]
pub(crate) enum Row {
    Fixed,
    Factor,
    Gate,
    Gates,
    Mux,
    Divider,
    Pll,
}

// The row that a string names.
#[tactic(auto, unfolding(crate::specs::Table::row_named))]
fn row_named(text: &str) -> Option<Row>
    ensures { result ≡ row_named text.now }
{
    if text == "fixed-clock" {
        Some(Row::Fixed)
    } else if text == "fixed-factor-clock" {
        Some(Row::Factor)
    } else if text == "bank,gate-clock" {
        Some(Row::Gate)
    } else if text == "bank,gates-clock" {
        Some(Row::Gates)
    } else if text == "bank,mux-clock" {
        Some(Row::Mux)
    } else if text == "bank,divider-clock" {
        Some(Row::Divider)
    } else if text == "bank,pll-clock" {
        Some(Row::Pll)
    } else {
        None
    }
}

// The row that a value names.
fn row_in(value: &DtsValue) -> Option<Row>
    ensures { result ≡ row_in (seen_value value.now) }
{
    match value {
        DtsValue::Text(text) => row_named(text.as_str()),
        _ => None,
    }
}

// The row that the first value which names one does.
fn first_row(values: &[DtsValue]) -> Option<Row>
    ensures { result ≡ slice_get (filter_map row_in (map seen_value values.now)) 0 }
{
    for value in values {
        if let Some(row) = row_in(value) {
            return Some(row);
        }
    }
    None
}

/// The row of a node: the first string of its `compatible` that names one decides.
#[tactic(auto, unfolding(crate::specs::Table::row_of))]
pub(crate) fn row_of(node: &Node<'_>) -> Option<Row>
    ensures { result ≡ row_of node.now }
{
    first_row(values(node, "compatible"))
}

impl Row {
    ghost use Rattle.dts_bindings.specs.Table.{cells_behind, states_cells, wants_of};

    /// How many cells stand behind the node in a specifier.
    pub(crate) fn cells(self) -> u32
        ensures { result ≡ cells_behind self }
    {
        match self {
            Row::Gates => 1,
            _ => 0,
        }
    }

    /// Whether a node states these cells.
    #[tactic(auto, unfolding(crate::specs::Table::states_cells))]
    pub(crate) fn has_its_cells(self, node: &Node<'_>) -> bool
        ensures { result ≡ states_cells self node.now }
    {
        match clock_cells(node) {
            Some(stated) => stated == self.cells(),
            None => false,
        }
    }

    /// How many specifiers are wanted in `clocks`.
    pub(crate) fn wants(self) -> Wants
        ensures { result ≡ wants_of self }
    {
        match self {
            Row::Fixed => Wants::Nothing,
            Row::Mux => Wants::Some,
            _ => Wants::One,
        }
    }
}
