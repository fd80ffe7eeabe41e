//! What a core tells of a clock.

/// A row of the table of clocks: what keeps a registered clock running, and how it runs.
#[derive(Clone, Copy, Debug, PartialEq, Eq)]
pub struct Row {
    /// The enables of its handles, with one for each active child.
    pub enable: u32,
    /// The prepares of its handles, with one for each prepared child.
    pub prepare: u32,
    /// The exclusive holds of its handles, with one for each guarded child.
    pub protect: u32,
    /// The rate in Hz.
    pub rate: u64,
    /// Whether the gate is open, or the PLL powered. A clock of another kind has none.
    pub on: Option<bool>,
}
