//! What the first cell of a specifier refers to, and specifiers.

use clk_base::ClockId;

/// What the first cell of a specifier refers to. A provider is the place of its node.
#[derive(Clone, Copy, Debug, PartialEq, Eq)]
pub(crate) enum Reference {
    /// Nothing: the cell is 0.
    Null,
    /// A provider whose specifiers have no further cell.
    Whole(usize),
    /// A provider whose specifiers have one further cell: the clock's identifier.
    Begun(usize),
    /// No provider.
    Lacking,
}

/// A provider's node, and the identifier of its clock where the specifier has one.
#[derive(Clone, Copy, Debug, PartialEq, Eq, Hash)]
pub(crate) struct Specifier {
    pub(crate) node: usize,
    pub(crate) identifier: Option<u32>,
}

/// The clock that a specifier names, none where it is a null, and the place behind its cells.
#[derive(Clone, Copy, Debug, PartialEq, Eq)]
pub(crate) struct Front {
    pub(crate) clock: Option<ClockId>,
    pub(crate) behind: usize,
}
