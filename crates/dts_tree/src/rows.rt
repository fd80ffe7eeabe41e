//! The rows of the flat tables that the reader fills. Names, labels and strings are tokens.

use dts_tokens::Token;

/// A node and the place of its parent; the root has none.
#[derive(Clone, Copy, Debug, PartialEq, Eq)]
pub(crate) struct NodeRow {
    pub name: Token,
    pub parent: Option<usize>,
}

/// A property of a node, with its values: the rows from `from` to before `to`.
#[derive(Clone, Copy, Debug, PartialEq, Eq)]
pub(crate) struct PropertyRow {
    pub node: usize,
    pub name: Token,
    pub from: usize,
    pub to: usize,
}

/// The items from `from` to before `to`.
#[derive(Clone, Copy, Debug, PartialEq, Eq)]
pub(crate) struct Part {
    pub from: usize,
    pub to: usize,
}

/// A value of a property.
#[derive(Clone, Copy, Debug, PartialEq, Eq)]
pub(crate) enum ValueRow {
    Text(Token),
    Cells(Part),
    Bytes(Part),
    /// The reference of this place.
    Node(usize),
}

/// A number and its token.
#[derive(Clone, Copy, Debug, PartialEq, Eq)]
pub(crate) struct Numeral {
    pub value: u32,
    pub word: Token,
}

/// What stands in cells or in bytes.
#[derive(Clone, Copy, Debug, PartialEq, Eq)]
pub(crate) enum Item {
    Number(Numeral),
    /// The reference of this place.
    Reference(usize),
    Byte(u8),
}

/// A label of a node.
#[derive(Clone, Copy, Debug, PartialEq, Eq)]
pub(crate) struct LabelRow {
    pub name: Token,
    pub node: usize,
}

/// A property whose values are being read, and where its values and its items begin.
#[derive(Clone, Copy, Debug, PartialEq, Eq)]
pub(crate) struct Begun {
    pub name: Token,
    pub values: usize,
    pub items: usize,
}

/// What may follow.
#[derive(Clone, Copy, Debug, PartialEq, Eq)]
pub(crate) enum Phase {
    /// Nothing was read.
    Start,
    /// Behind `/dts-v1/`.
    Versioned,
    /// Behind the `;` of a line before the root.
    Top,
    /// Behind `/memreserve/`.
    Reserving,
    /// Behind its first number.
    ReservedFrom,
    /// Behind its second number.
    ReservedTo,
    /// Behind the root's `/`, which is this token.
    Rooted(Token),
    /// In a node, behind one of its braces or a `;`.
    Ready,
    /// Behind a label.
    Labelled,
    /// Behind the name of a node or a property.
    Named(Token),
    /// Behind the `=` of a property, or a comma between its values.
    Wanting(Begun),
    /// In cells, which begin at this item.
    InCells(Begun, usize),
    /// In bytes, which begin at this item.
    InBytes(Begun, usize),
    /// Behind a value.
    Valued(Begun),
    /// Behind a closing brace.
    Closed,
    /// Behind the root's `;`.
    Done,
}
