//! The rows of a state.

use clk_base::ClockId;

/// What a state has of a clock.
#[derive(Clone, Copy, Debug, PartialEq, Eq)]
pub struct ClockRow {
    pub registered: bool,
    /// The parent that a registered clock is attached to, if any.
    pub link: Option<ClockId>,
    /// The last requested rate in Hz.
    pub last_request: u64,
}

/// What a state has of a live handle.
#[derive(Clone, Copy, Debug, PartialEq, Eq)]
pub struct HandleRow {
    pub driver: u32,
    pub clock: ClockId,
    pub prepares: u32,
    pub enables: u32,
    pub exclusives: u32,
    /// The least rate in Hz that the handle allows.
    pub min: u64,
    /// The greatest rate in Hz that the handle allows.
    pub max: u64,
}
