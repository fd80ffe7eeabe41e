//! What kind of clock one is.

ghost use Rattle.std.specs.Prelude.{◌≡◌, ◌<◌, length};
ghost use Rattle.clk_base.specs.Description.{kind_of};
ghost use Rattle.clk_base.specs.Flags.{is_critical};
ghost use Rattle.clk_model.specs.Kinds.{is_pll};

use bitflags::Flags;
use clk_base::{ClkFlags, ClockId, Kind};
use clk_tree::Tree;

/// Whether a clock is prepared and enabled from its registration on.
pub fn is_critical(tree: &Tree, clock: ClockId) -> bool
    requires { clock.0 < length tree.now.defs }
    ensures { result ≡ is_critical tree.now.defs clock.0 }
{
    Flags::contains(&tree.def(clock).flags, ClkFlags::CRITICAL)
}

/// Whether a clock is a PLL.
pub(crate) fn is_pll(tree: &Tree, clock: ClockId) -> bool
    requires { clock.0 < length tree.now.defs }
    ensures { result ≡ is_pll (kind_of tree.now.defs clock.0) }
{
    matches!(tree.def(clock).kind, Kind::Pll { .. })
}
