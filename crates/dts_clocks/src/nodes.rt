//! The nodes of a tree, by their places.

ghost use Rattle.std.specs.Prelude.{◌≡◌, ◌<◌, Some, map, length, slice_get};
ghost use Rattle.dts_bindings.specs.Versions.{all_known};
ghost use Rattle.dts_tree.specs.Tree.{seen_node};

use dts_bindings::Node;
use dts_tree::DtsNode;
use std::marker::Model;

/// The nodes of a tree, in the order of the source. A contract sees what they show, without the
/// properties that their version doesn't know.
#[derive(Drop)]
pub(crate) struct Nodes<'a> {
    all: &'a [DtsNode],
    version: u32,
}

impl<'a> Model for Nodes<'a> {
    ghost use Rattle.std.specs.Prelude.{List, map};
    ghost use Rattle.dts_bindings.specs.Versions.{all_known};
    ghost use Rattle.dts_tree.specs.Tree.{SeenNode, seen_node};

    ghost Value = { List SeenNode };

    ghost view = { λ nodes. all_known nodes.version (map seen_node nodes.all.now) };
}

impl<'a> Nodes<'a> {
    /// All of these nodes, in a bundle of this version.
    pub(crate) fn new(all: &'a [DtsNode], version: u32) -> Nodes<'a>
        ensures { result ≡ all_known version (map seen_node all.now) }
    {
        Nodes { all, version }
    }

    /// How many nodes there are.
    pub(crate) fn len(&self) -> usize
        ensures { result ≡ length self.now }
    {
        self.all.len()
    }

    /// The node of a place.
    pub(crate) fn node(&self, at: usize) -> Node<'a>
        requires { at < length self.now }
        ensures { slice_get self.now at ≡ Some result }
    {
        let all = self.all;
        Node::new(&all[at], self.version)
    }
}
