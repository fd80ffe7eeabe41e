//! The clocks of a section.

use clk_base::Desc;

/// The clocks that lines spell, and the line of each, counted from 1.
#[derive(Debug, Drop)]
pub struct ClockList {
    pub desc: Desc,
    pub lines: Vec<u32>,
}
