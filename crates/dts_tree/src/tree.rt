//! The tree of a device tree source.

/// The nodes of a source in its order: a node's number is its place, and the root is the first.
#[derive(Debug, Drop)]
pub struct DtsTree {
    pub nodes: Vec<DtsNode>,
}

/// A node. Its name includes its unit address with the `@`; the root's name is empty. The line is
/// the one on which the name stands, for the root its `/`.
#[derive(Debug, Drop)]
pub struct DtsNode {
    pub name: String,
    pub line: u32,
    pub parent: Option<u32>,
    pub properties: Vec<DtsProperty>,
}

/// A property, with the line on which its name stands.
#[derive(Debug, Drop)]
pub struct DtsProperty {
    pub name: String,
    pub line: u32,
    pub values: Vec<DtsValue>,
}

/// A value of a property.
#[derive(Debug, Drop)]
pub enum DtsValue {
    /// The characters between the quotes, as they stand in the source.
    Text(String),
    Cells(Vec<Cell>),
    Bytes(Vec<u8>),
    /// The node that a reference means.
    Node(u32),
}

/// A cell.
#[derive(Clone, Copy, Debug, PartialEq, Eq)]
pub enum Cell {
    Number(u32),
    /// The node that a reference means.
    Node(u32),
}
