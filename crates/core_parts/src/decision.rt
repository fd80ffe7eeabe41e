//! How a call that changes a rate or a parent begins.

use clk_base::Errno;

/// How a call that changes a rate or a parent begins. Nothing is changed yet.
#[derive(Clone, Copy, Debug, PartialEq, Eq)]
pub enum Verdict {
    /// It is refused.
    Refused(Errno),
    /// It is answered by Ok at once.
    AtOnce,
    /// It goes on, with the plan and the script of the draft.
    Change,
}
