//! Settings.

ghost use Rattle.std.specs.Prelude.{◌≡◌, ◌^◌, ◌<◌, IfSome};
ghost use Rattle.clk_base.specs.Description.{kind_of};
ghost use Rattle.clk_base.specs.Fields.{field_of};
ghost use Rattle.reg_bank.specs.Registers.{Registers};
ghost use Rattle.clk_model.specs.Chain as chain;
ghost use Rattle.rate_planner.specs.Settings.{field_for, put_field};

use crate::kind::kind_in;
use clk_base::{ClockId, Kind, ValidDesc};
use clk_tree::style_of;
use kind_math::{div_setting, pll_setting};

/// The number that a divider or a PLL gets in its field for a planned rate over the rate of its
/// parent; none for a clock of another kind. Takes no memory.
pub fn setting(desc: &ValidDesc, c: ClockId, parent: u64, rate: u64) -> Option<u32>
    ensures field { result ≡ field_for (kind_of desc.now.defs c.0) parent rate }
    ensures fits { IfSome result (λ value. IfSome (field_of (kind_of desc.now.defs c.0)) (λ f. value < 2 ^ f.width)) }
    ensures puts { (regs : Registers)
        → put_field (kind_of desc.now.defs c.0) result regs ≡ chain.setting (kind_of desc.now.defs c.0) parent rate regs }
{
    match kind_in(desc, c) {
        Kind::Divider {
            width,
            one_based,
            power_of_two,
            ..
        } => Some(div_setting(parent, rate, width, style_of(one_based, power_of_two))),
        Kind::Pll { least, most, m, .. } => Some(pll_setting(parent, rate, least, most, m)),
        Kind::FixedRate { .. } | Kind::Factor { .. } | Kind::Gate { .. } | Kind::Mux { .. } => None,
    }
}
