//! What the section of the clocks says.

use clk_base::Desc;
use dts_clocks::{Assigned, Consumer};

/// The clocks of a bundle, with their lines, counted from 1.
#[derive(Debug, Drop)]
pub struct ClocksPart {
    pub desc: Desc,
    /// The line of each clock, or of its node.
    pub lines: Vec<u32>,
    /// The nodes that name clocks and are no providers.
    pub consumers: Vec<Consumer>,
    /// What each node that assigns clocks asks for, with its line.
    pub assigned: Vec<Assigned>,
}
