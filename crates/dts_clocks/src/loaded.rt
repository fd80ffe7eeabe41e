//! What is read of a tree.

use clk_base::{ClockId, Desc};

/// What a tree says of clocks.
#[derive(Debug, Drop)]
pub struct Loaded {
    pub desc: Desc,
    /// The line of each clock's node.
    pub lines: Vec<u32>,
    /// The consumers in the order of their nodes.
    pub consumers: Vec<Consumer>,
    /// One for each node with assigned clocks, in the order of the nodes.
    pub assigned: Vec<Assigned>,
}

/// A node that names clocks and is no provider.
#[derive(Debug, Drop)]
pub struct Consumer {
    /// The names from below the root to the node, each behind a slash; for the root a slash.
    pub path: String,
    pub names: Vec<ConsumerName>,
}

/// A name of a consumer, and the clock that it means, if any.
#[derive(Debug, Drop)]
pub struct ConsumerName {
    pub name: String,
    pub clock: Option<ClockId>,
}

/// What a node with assigned clocks asks for, with the node's line.
#[derive(Debug, Drop)]
pub struct Assigned {
    pub line: u32,
    /// The parents, and behind them the rates. Skipped entries are left out.
    pub steps: Vec<AssignedStep>,
}

/// A new parent of a clock, or a new rate in Hz.
#[derive(Clone, Copy, Debug, PartialEq, Eq)]
pub enum AssignedStep {
    Parent { clock: ClockId, parent: ClockId },
    Rate { clock: ClockId, rate: u32 },
}
