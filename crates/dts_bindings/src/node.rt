//! A node of a tree, as a version of bundles knows it.

ghost use Rattle.std.specs.Prelude.{◌≡◌};
ghost use Rattle.std.specs.Option.{option_map};
ghost use Rattle.dts_bindings.specs.Properties.{property_named};
ghost use Rattle.dts_bindings.specs.Versions.{knows, known};
ghost use Rattle.dts_tree.specs.Tree.{seen_property, seen_node};

use dts_tree::{DtsNode, DtsProperty};
use std::marker::Model;

/// A node, seen by contracts without the properties that its version doesn't know.
#[derive(Drop)]
pub struct Node<'a> {
    node: &'a DtsNode,
    version: u32,
}

impl<'a> Model for Node<'a> {
    ghost use Rattle.dts_bindings.specs.Versions.{known};
    ghost use Rattle.dts_tree.specs.Tree.{SeenNode, seen_node};

    ghost Value = { SeenNode };

    ghost view = { λ n. known n.version (seen_node n.node.now) };
}

// Whether a version knows the properties of this name.
#[tactic(auto, unfolding(crate::specs::Versions::knows))]
fn knows(version: u32, name: &str) -> bool
    ensures { result ≡ knows version name.now }
{
    version == 2 || !(name == "bank,ops-parent-enable" || name == "bank,set-rate-ungate")
}

impl<'a> Node<'a> {
    /// A node of a bundle of this version, 1 or 2.
    pub fn new(node: &'a DtsNode, version: u32) -> Node<'a>
        ensures { result ≡ known version (seen_node node.now) }
    {
        Node { node, version }
    }

    /// Its name, with its unit address.
    #[tactic(auto, unfolding(crate::specs::Versions::known))]
    pub fn name(&self) -> &'a str
        ensures { result.now ≡ self.now.name }
    {
        self.node.name.as_str()
    }

    /// The line on which its name stands.
    #[tactic(auto, unfolding(crate::specs::Versions::known))]
    pub fn line(&self) -> u32
        ensures { result ≡ self.now.line }
    {
        self.node.line
    }

    /// The number of the node that it stands in.
    #[tactic(auto, unfolding(crate::specs::Versions::known))]
    pub fn parent(&self) -> Option<u32>
        ensures { result ≡ self.now.parent }
    {
        self.node.parent
    }

    /// The property of this name. There is none if the version doesn't know it.
    pub fn property(&self, name: &str) -> Option<&'a DtsProperty>
        ensures { option_map (λ p. seen_property p.now) result ≡ property_named name.now self.now }
    {
        if !knows(self.version, name) {
            return None;
        }
        self.node
            .properties
            .iter()
            .find(|property| property.name.as_str() == name)
    }
}
