//! A step that a core has made.

use clk_base::{Micro, Reply};

/// A step that was made.
#[derive(Clone, Copy)]
pub enum Made {
    /// This step, with what a poll was answered. The call goes on.
    GoesOn(Micro, Option<bool>),
    /// The end of the call, with its reply.
    Ends(Reply),
}
