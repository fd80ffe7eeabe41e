//! What the properties of a node are, by their names.

ghost use Rattle.std.specs.Prelude.{◌≡◌, map};
ghost use Rattle.dts_bindings.specs.Properties.{has_property, values_of};
ghost use Rattle.dts_tree.specs.Tree.{seen_value};

use crate::node::Node;
use dts_tree::DtsValue;

/// Whether the node has a property of this name.
#[tactic(auto, unfolding(crate::specs::Properties::has_property))]
pub fn has_property(node: &Node<'_>, name: &str) -> bool
    ensures { result ≡ has_property name.now node.now }
{
    node.property(name).is_some()
}

/// The values of the property of this name; none where it is missing.
#[tactic(auto, unfolding(crate::specs::Properties::values_of))]
pub fn values<'a>(node: &Node<'a>, name: &str) -> &'a [DtsValue]
    ensures { map seen_value result.now ≡ values_of name.now node.now }
{
    match node.property(name) {
        Some(property) => property.values.as_slice(),
        None => &[],
    }
}
