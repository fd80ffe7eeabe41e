//! How a change begins.

use clk_base::{Micro, Sleeping};

/// A call that goes on, as its beginning has planned it.
#[derive(Drop)]
pub struct Start {
    pub driver: u32,
    pub call: Sleeping,
    /// The steps that it is to make, the end among them.
    pub script: Vec<Micro>,
    /// The least and the greatest rate in Hz that the handle allowed before, where the call sets them.
    pub range: Option<(u64, u64)>,
    /// How many notices at the head of the script a timeout calls off.
    pub extra: usize,
    /// Whether a notice of the script is a veto.
    pub vetoed: bool,
}
