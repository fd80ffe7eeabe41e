//! What a provider's node says of its clocks.

use clk_base::{ClkFlags, Kind};
use dts_tree::Cell;

/// How many specifiers a provider's `clocks` have to hold.
#[derive(Clone, Copy, Debug, PartialEq, Eq)]
pub enum Wants {
    /// None: the property isn't read.
    Nothing,
    /// One alone.
    One,
    /// One or more.
    Some,
}

/// A clock of a provider.
#[derive(Debug, Drop)]
pub struct BoundClock {
    /// Its name, which isn't judged here.
    pub name: String,
    /// The cell that means it in a specifier; 0 where specifiers have no cell.
    pub identifier: u32,
    pub kind: Kind,
}

/// What a provider's node says of its clocks.
#[derive(Debug, Drop)]
pub struct Binding {
    /// How many cells stand behind the node in a specifier.
    pub cells: u32,
    /// How many specifiers `inputs` have to be.
    pub wants: Wants,
    /// The cells of `clocks`, joined over its values.
    pub inputs: Vec<Cell>,
    /// The clocks in the order of their names.
    pub clocks: Vec<BoundClock>,
    /// The flags of each of them.
    pub flags: ClkFlags,
}
