//! What a clock's kind and flags say.

ghost use Rattle.std.specs.Prelude.{◌≡◌, ℕ, IfSome};
ghost use Rattle.clk_base.specs.Description.{kind_of};
ghost use Rattle.clk_base.specs.Flags as flags;
ghost use Rattle.clk_base.specs.Valid.{IsValid};
ghost use Rattle.clk_model.specs.Kinds.{can_round};
ghost use Rattle.clk_tree.specs.Readable.{CanRead};
ghost use Rattle.rate_planner.specs.Given.{CanScale};
ghost use Rattle.rate_planner.specs.Outcomes.{set_rate};

use bitflags::Flags;
use clk_base::{ClkFlags, ClockId, Kind, ValidDesc};
use clk_tree::{Tree, rate_by, style_of};
use kind_math::{div_rate, div_setting, pll_rate, pll_setting};
use reg_bank::Bank;

/// The kind of a clock of a description. A place outside of it counts as a fixed clock of 0 Hz.
pub(crate) fn kind_in(desc: &ValidDesc, clock: ClockId) -> Kind
    ensures kind { result ≡ kind_of desc.now.defs clock.0 }
    ensures scales { CanScale result }
    ensures reads { (words : ℕ) → IsValid words desc.now.defs → CanRead words result }
{
    if (clock.0 as usize) < desc.len() {
        desc.def(clock).kind
    } else {
        Kind::FixedRate { rate: 0 }
    }
}

/// The kind of a clock.
pub(crate) fn kind_of(tree: &Tree, clock: ClockId) -> Kind
    ensures kind { result ≡ kind_of tree.now.defs clock.0 }
    ensures scales { CanScale result }
    ensures reads { (words : ℕ) → IsValid words tree.now.defs → CanRead words result }
{
    kind_in(tree.desc(), clock)
}

/// Whether a request for a rate may change something of a clock of this kind.
pub(crate) fn can_round(kind: Kind) -> bool
    ensures { result ≡ can_round kind }
{
    match kind {
        Kind::FixedRate { .. } | Kind::Gate { .. } => false,
        Kind::Mux { read_only, .. } => !read_only,
        Kind::Factor { .. } | Kind::Divider { .. } | Kind::Pll { .. } => true,
    }
}

/// Whether a request for a rate is passed on to the parent.
pub(crate) fn sets_rate_parent(tree: &Tree, clock: ClockId) -> bool
    ensures { result ≡ flags.sets_rate_parent tree.now.defs clock.0 }
{
    (clock.0 as usize) < tree.len()
        && Flags::contains(&tree.def(clock).flags, ClkFlags::SET_RATE_PARENT)
}

/// Whether a prepared clock keeps its parent.
pub(crate) fn sets_parent_gate(tree: &Tree, clock: ClockId) -> bool
    ensures { result ≡ flags.sets_parent_gate tree.now.defs clock.0 }
{
    (clock.0 as usize) < tree.len()
        && Flags::contains(&tree.def(clock).flags, ClkFlags::SET_PARENT_GATE)
}

/// Whether a request for a rate doesn't move the clock to another parent.
pub(crate) fn keeps_parent(tree: &Tree, clock: ClockId) -> bool
    ensures { result ≡ flags.keeps_parent tree.now.defs clock.0 }
{
    (clock.0 as usize) < tree.len()
        && Flags::contains(&tree.def(clock).flags, ClkFlags::NO_REPARENT)
}

/// The rate in Hz of a clock of this kind over its parent's rate, once it is set to a planned rate.
pub(crate) fn set_rate<B: Bank>(kind: Kind, bank: &B, parent: u64, planned: u64) -> u64
    requires reads { CanRead (B.size bank.now) kind }
    requires scales { CanScale kind }
    ensures { IfSome (B.contents bank.now) (λ regs. result ≡ set_rate kind regs parent planned) }
{
    match kind {
        Kind::Divider {
            width,
            one_based,
            power_of_two,
            ..
        } => {
            let style = style_of(one_based, power_of_two);
            div_rate(parent, div_setting(parent, planned, width, style), style)
        }
        Kind::Pll { least, most, m, .. } => {
            pll_rate(parent, pll_setting(parent, planned, least, most, m), m)
        }
        Kind::FixedRate { .. } => rate_by(&kind, bank, parent),
        Kind::Factor { .. } => rate_by(&kind, bank, parent),
        Kind::Gate { .. } => rate_by(&kind, bank, parent),
        Kind::Mux { .. } => rate_by(&kind, bank, parent),
    }
}
