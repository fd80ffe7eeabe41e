//! The arithmetic of the kinds of clock: the rate that a kind makes of its parent's rate, and which
//! divisor or multiplier a wanted rate takes. Rates are in Hz.
//!
//! No function goes over divisors or multipliers, of which a divider or a PLL may have 65,536, but
//! those of a divider's table, which has at most 64 rows. The definitions in `specs/` go over all of
//! them, and say which one is chosen.
#![tactic(auto)]

mod closest;
mod div_style;
mod dividers;
mod division;
mod factors;
mod plls;
mod table_row;
mod tables;

pub use closest::div_round_closest;
pub use div_style::DivStyle;
pub use dividers::{div_rate, div_round, div_setting};
pub use division::{quotient, quotient_up};
pub use factors::factor_rate;
pub use plls::{pll_rate, pll_round, pll_setting};
pub use table_row::TableRow;
pub use tables::{table_rate, table_round, table_setting};
