//! The nodes above a node.

ghost use Rattle.std.specs.Prelude.{◌≡◌, ◌<◌, ◌++◌, ◌∷◌, length, IfOk, string_bytes};
ghost use Rattle.dts_clocks.specs.Above.{parent_of, is_passed, path_of};
ghost use Rattle.dts_clocks.specs.Joined.{listed};

use crate::nodes::Nodes;
use clk_io::NoMemory;
use dts_bindings::is_okay;
use std::alloc::Global;

/// The parent of a node; it stands before the node.
#[tactic(auto, unfolding(crate::specs::Above::parent_of))]
pub(crate) fn parent_of(nodes: &Nodes<'_>, at: usize) -> Option<usize>
    requires { at < length nodes.now }
    ensures { result ≡ parent_of nodes.now at }
{
    match nodes.node(at).parent() {
        Some(parent) => {
            if (parent as usize) < at {
                Some(parent as usize)
            } else {
                None
            }
        }
        None => None,
    }
}

// Whether a node is passed over, by what is known of the nodes before it.
fn is_passed(nodes: &Nodes<'_>, passed: &[bool], at: usize) -> bool
    requires within { at < length nodes.now }
    requires known { passed.now ≡ listed (is_passed nodes.now) at }
    ensures { result ≡ is_passed nodes.now at }
{
    if !is_okay(&nodes.node(at)) {
        return true;
    }
    match parent_of(nodes, at) {
        Some(parent) => passed[parent],
        None => false,
    }
}

/// Which nodes are passed over.
pub(crate) fn passed_nodes(alloc: Global, nodes: &Nodes<'_>) -> Result<Vec<bool>, NoMemory>
    ensures { IfOk result (λ passed. passed.items ≡ listed (is_passed nodes.now) (length nodes.now)) }
{
    let mut passed = Vec::new(alloc);
    for at in 0..nodes.len() {
        let is_passed = is_passed(nodes, &passed, at);
        passed.push(is_passed)?;
    }
    Ok(passed)
}

// A slash and the name, in front of a path.
fn below(alloc: Global, name: &str, path: &str) -> Result<String, NoMemory>
    ensures { IfOk result (λ longer. string_bytes longer ≡ 47 ∷ name.now ++ path.now) }
{
    let mut longer = String::new(alloc);
    longer.push_str("/")?;
    longer.push_str(name)?;
    longer.push_str(path)?;
    Ok(longer)
}

/// The path of a node: the names from below the root to the node, each behind a slash; for the root
/// a slash.
pub(crate) fn path_of(alloc: Global, nodes: &Nodes<'_>, at: usize) -> Result<String, NoMemory>
    requires { at < length nodes.now }
    ensures { IfOk result (λ path. string_bytes path ≡ path_of nodes.now at) }
{
    let mut path = String::new(alloc);
    let mut place = at;
    while let Some(parent) = parent_of(nodes, place) {
        path = below(alloc, nodes.node(place).name(), path.as_str())?;
        place = parent;
    }
    if path.is_empty() {
        let slash = String::from_str(alloc, "/")?;
        return Ok(slash);
    }
    Ok(path)
}
