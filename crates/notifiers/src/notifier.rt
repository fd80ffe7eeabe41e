//! A notifier of a clock.

use clk_base::Policy;

/// Someone who is told of the changes of a clock's rate.
#[derive(Clone, Copy, Debug, PartialEq, Eq)]
pub struct Notifier {
    /// No other notifier of the clock has it.
    pub id: u32,
    /// Higher priorities are told first.
    pub priority: i32,
    pub policy: Policy,
}
