//! What a node is to the clocks.

ghost use Rattle.std.specs.Prelude.{◌≡◌, map};
ghost use Rattle.dts_bindings.specs.Properties.{says_okay, is_okay, is_provider, is_consumer, phandle_of, clock_cells_of};
ghost use Rattle.dts_tree.specs.Tree.{seen_value};

use crate::node::Node;
use crate::properties::{has_property, values};
use crate::reading::one_number;
use dts_tree::DtsValue;

// The values are the one string `okay` or `ok`.
fn says_okay(values: &[DtsValue]) -> bool
    ensures { result ≡ says_okay (map seen_value values.now) }
{
    match values {
        [DtsValue::Text(text)] => text.as_str() == "okay" || text.as_str() == "ok",
        _ => false,
    }
}

/// A node whose own `status` doesn't pass it over.
#[tactic(auto, unfolding(crate::specs::Properties::is_okay))]
pub fn is_okay(node: &Node<'_>) -> bool
    ensures { result ≡ is_okay node.now }
{
    match node.property("status") {
        Some(status) => says_okay(&status.values),
        None => true,
    }
}

/// A node that provides clocks.
#[tactic(auto, unfolding(crate::specs::Properties::is_provider))]
pub fn is_provider(node: &Node<'_>) -> bool
    ensures { result ≡ is_provider node.now }
{
    has_property(node, "#clock-cells")
}

/// A node that uses clocks and provides none.
#[tactic(auto, unfolding(crate::specs::Properties::is_consumer))]
pub fn is_consumer(node: &Node<'_>) -> bool
    ensures { result ≡ is_consumer node.now }
{
    has_property(node, "clocks") && !is_provider(node)
}

/// The number by which cells name the node.
#[tactic(auto, unfolding(crate::specs::Properties::phandle_of))]
pub fn phandle(node: &Node<'_>) -> Option<u32>
    ensures { result ≡ phandle_of node.now }
{
    one_number(values(node, "phandle"))
}

/// How many cells stand behind the node in a specifier.
#[tactic(auto, unfolding(crate::specs::Properties::clock_cells_of))]
pub fn clock_cells(node: &Node<'_>) -> Option<u32>
    ensures { result ≡ clock_cells_of node.now }
{
    one_number(values(node, "#clock-cells"))
}
