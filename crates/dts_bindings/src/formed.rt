//! What is asked of the properties that any node may have, and of those of a consumer.

ghost use Rattle.std.specs.Prelude.{◌≡◌, map};
ghost use Rattle.std.specs.List.{list_all};
ghost use Rattle.dts_bindings.specs.Formed.{is_numbers, has_good_phandle, has_good_assigned, is_sound, has_good_clocks, is_formed};
ghost use Rattle.dts_bindings.specs.Properties.{has_backslash, is_plain};
ghost use Rattle.dts_tree.specs.Tree.{seen_value};

use crate::node::Node;
use crate::nodes::is_consumer;
use crate::properties::values;
use crate::reading::{are_cells, are_numbers, one_number};
use dts_tree::DtsValue;

/// Whether a backslash stands in a text.
#[tactic(auto, unfolding(crate::specs::Properties::has_backslash))]
pub(crate) fn has_backslash(text: &str) -> bool
    ensures { result ≡ has_backslash text.now }
{
    text.as_bytes().iter().any(|byte| *byte == b'\\')
}

// A string without a backslash.
fn is_plain(value: &DtsValue) -> bool
    ensures { result ≡ is_plain (seen_value value.now) }
{
    match value {
        DtsValue::Text(text) => !has_backslash(text.as_str()),
        _ => false,
    }
}

/// Whether every value is a string without a backslash.
pub(crate) fn are_plain(values: &[DtsValue]) -> bool
    ensures { result ≡ list_all is_plain (map seen_value values.now) }
{
    values.iter().all(|value| is_plain(value))
}

// A value of number cells.
fn is_numbers(value: &DtsValue) -> bool
    ensures { result ≡ is_numbers (seen_value value.now) }
{
    match value {
        DtsValue::Cells(cells) => are_numbers(cells),
        _ => false,
    }
}

// Whether every value is number cells.
fn are_all_numbers(values: &[DtsValue]) -> bool
    ensures { result ≡ list_all is_numbers (map seen_value values.now) }
{
    values.iter().all(|value| is_numbers(value))
}

// Whether a `phandle`, where there is one, is one number cell.
#[tactic(auto, unfolding(crate::specs::Formed::has_good_phandle))]
fn has_good_phandle(node: &Node<'_>) -> bool
    ensures { result ≡ has_good_phandle node.now }
{
    match node.property("phandle") {
        Some(phandle) => one_number(&phandle.values).is_some(),
        None => true,
    }
}

// Whether clocks and parents that are assigned are cells, and rates number cells.
#[tactic(auto, unfolding(crate::specs::Formed::has_good_assigned))]
fn has_good_assigned(node: &Node<'_>) -> bool
    ensures { result ≡ has_good_assigned node.now }
{
    are_cells(values(node, "assigned-clocks"))
        && are_cells(values(node, "assigned-clock-parents"))
        && are_all_numbers(values(node, "assigned-clock-rates"))
}

/// Whether the properties that any node may have are formed.
#[tactic(auto, unfolding(crate::specs::Formed::is_sound))]
pub(crate) fn is_sound(node: &Node<'_>) -> bool
    ensures { result ≡ is_sound node.now }
{
    has_good_phandle(node) && has_good_assigned(node)
}

// Whether a consumer's clocks are cells, and their names strings without a backslash.
#[tactic(auto, unfolding(crate::specs::Formed::has_good_clocks))]
fn has_good_clocks(node: &Node<'_>) -> bool
    ensures { result ≡ has_good_clocks node.now }
{
    are_cells(values(node, "clocks")) && are_plain(values(node, "clock-names"))
}

/// Whether a `phandle`, where there is one, is one number cell, assigned clocks and parents are cells,
/// assigned rates are number cells, and, where the node is a consumer, its clocks are cells and their
/// names strings without a backslash. Of a provider's own properties it asks nothing.
#[tactic(auto, unfolding(crate::specs::Formed::is_formed))]
pub fn is_formed(node: &Node<'_>) -> bool
    ensures { result ≡ is_formed node.now }
{
    is_sound(node) && (!is_consumer(node) || has_good_clocks(node))
}
