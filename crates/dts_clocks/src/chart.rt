//! What is asked again and again of the nodes of a tree.

ghost use Rattle.std.specs.Prelude.{◌≡◌, ◌<◌, ◌==◌, ℕ, Some, None, map, length, IfOk, OnOk, nat_eq, slice_get, string_bytes, if◌then◌else◌, false};
ghost use Rattle.std.specs.HashMap.{get};
ghost use Rattle.std.specs.Option.{option_or, option_map_or, unwrap_or};
ghost use Rattle.dts_bindings.specs.Versions.{all_known};
ghost use Rattle.dts_tree.specs.Tree.{seen_node};
ghost use Rattle.dts_clocks.specs.Above.{is_passed, path_of};
ghost use Rattle.dts_clocks.specs.Joined.{listed};
ghost use Rattle.dts_clocks.specs.References.{node_of_phandle, source_by, source_at, reference};

use crate::above::{passed_nodes, path_of};
use crate::nodes::Nodes;
use crate::reference::Reference;
use clk_io::NoMemory;
use dts_bindings::{Node, clock_cells, is_provider, phandle};
use dts_tree::{Cell, DtsNode};
use std::alloc::Global;
use std::collections::HashMap;
use std::marker::Model;

/// The nodes of a tree, with tables of which are passed over, which have a phandle, and which are
/// providers that a specifier may refer to. A contract sees the nodes.
#[derive(Drop)]
pub(crate) struct Chart<'a> {
    nodes: Nodes<'a>,
    passed: Vec<bool>,
    phandles: HashMap<u32, usize>,
    sources: Vec<Reference>,
}

impl<'a> Model for Chart<'a> {
    ghost use Rattle.std.specs.Prelude.{List, nat_eq};
    ghost use Rattle.std.specs.HashMap.{get};
    ghost use Rattle.dts_tree.specs.Tree.{SeenNode};
    ghost use Rattle.dts_clocks.specs.Charts.{Charts};

    ghost Value = { List SeenNode };

    ghost view = { λ chart. chart.nodes };

    ghost invariant = { λ chart. Charts chart.nodes chart.passed.items (λ v. get nat_eq chart.phandles v) chart.sources.items };
}

// Notes the node of a phandle, where it has one and no earlier node has it.
fn note(places: &mut HashMap<u32, usize>, phandle: Option<u32>, at: usize) -> Result<(), NoMemory>
    ensures { OnOk result ((v : ℕ) → get nat_eq places.new v
        ≡ option_or (get nat_eq places.old v) (if option_map_or (λ p. p == v) phandle false then Some at else None)) }
{
    let Some(phandle) = phandle else {
        return Ok(());
    };
    if places.contains_key(&phandle) {
        return Ok(());
    }
    places.insert(phandle, at)?;
    Ok(())
}

// The node of each phandle.
fn nodes_by_phandle(alloc: Global, nodes: &Nodes<'_>) -> Result<HashMap<u32, usize>, NoMemory>
    ensures { IfOk result (λ places. (v : ℕ) → get nat_eq places v ≡ node_of_phandle nodes.now v) }
{
    let mut places = HashMap::new(alloc);
    for at in 0..nodes.len() {
        note(&mut places, phandle(&nodes.node(at)), at)?;
    }
    Ok(places)
}

// A provider by the number of cells behind a reference to it.
fn source_by(node: usize, cells: Option<u32>) -> Reference
    ensures { result ≡ source_by node cells }
{
    match cells {
        Some(0) => Reference::Whole(node),
        Some(1) => Reference::Begun(node),
        _ => Reference::Lacking,
    }
}

// A node as a provider that a specifier may refer to.
fn source_at(nodes: &Nodes<'_>, passed: &[bool], at: usize) -> Reference
    requires within { at < length nodes.now }
    requires known { passed.now ≡ listed (is_passed nodes.now) (length nodes.now) }
    ensures { result ≡ source_at nodes.now at }
{
    let node = nodes.node(at);
    if !is_provider(&node) {
        return Reference::Lacking;
    }
    if passed[at] {
        return Reference::Lacking;
    }
    source_by(at, clock_cells(&node))
}

// The element of a place, or no provider behind the end.
fn source_in(sources: &[Reference], at: usize) -> Reference
    ensures { result ≡ unwrap_or (slice_get sources.now at) Reference.Lacking }
{
    match sources.get(at) {
        Some(source) => *source,
        None => Reference::Lacking,
    }
}

// Each node as a provider that a specifier may refer to.
fn sources(alloc: Global, nodes: &Nodes<'_>, passed: &[bool]) -> Result<Vec<Reference>, NoMemory>
    requires { passed.now ≡ listed (is_passed nodes.now) (length nodes.now) }
    ensures { IfOk result (λ sources. sources.items ≡ listed (source_at nodes.now) (length nodes.now)) }
{
    let mut sources = Vec::new(alloc);
    for at in 0..nodes.len() {
        let source = source_at(nodes, passed, at);
        sources.push(source)?;
    }
    Ok(sources)
}

impl<'a> Chart<'a> {
    /// The chart of these nodes, in a bundle of this version.
    pub(crate) fn new(
        alloc: Global,
        nodes: &'a [DtsNode],
        version: u32,
    ) -> Result<Chart<'a>, NoMemory>
        ensures { IfOk result (λ chart. chart ≡ all_known version (map seen_node nodes.now)) }
    {
        let nodes = Nodes::new(nodes, version);
        let passed = passed_nodes(alloc, &nodes)?;
        let phandles = nodes_by_phandle(alloc, &nodes)?;
        let sources = sources(alloc, &nodes, &passed)?;
        Ok(Chart {
            nodes,
            passed,
            phandles,
            sources,
        })
    }

    /// How many nodes there are.
    pub(crate) fn len(&self) -> usize
        ensures { result ≡ length self.now }
    {
        self.nodes.len()
    }

    /// The node of a place.
    pub(crate) fn node(&self, at: usize) -> Node<'a>
        requires { at < length self.now }
        ensures { slice_get self.now at ≡ Some result }
    {
        self.nodes.node(at)
    }

    /// The path of a node.
    pub(crate) fn path_of(&self, alloc: Global, at: usize) -> Result<String, NoMemory>
        requires { at < length self.now }
        ensures { IfOk result (λ path. string_bytes path ≡ path_of self.now at) }
    {
        path_of(alloc, &self.nodes, at)
    }

    /// Whether a node is passed over.
    pub(crate) fn is_passed(&self, at: usize) -> bool
        requires { at < length self.now }
        ensures { result ≡ is_passed self.now at }
    {
        self.passed[at]
    }

    // A node as a provider that a specifier may refer to.
    fn source(&self, at: usize) -> Reference
        ensures { result ≡ source_at self.now at }
    {
        source_in(&self.sources, at)
    }

    /// What a cell refers to.
    #[tactic(auto, unfolding(crate::specs::References::reference))]
    pub(crate) fn reference(&self, cell: Cell) -> Reference
        ensures { result ≡ reference self.now cell }
    {
        match cell {
            Cell::Number(0) => Reference::Null,
            Cell::Number(phandle) => match self.phandles.get(&phandle) {
                Some(node) => self.source(*node),
                None => Reference::Lacking,
            },
            Cell::Node(node) => self.source(node as usize),
        }
    }
}
