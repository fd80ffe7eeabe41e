//! What a clock's kind says, and the rate that it makes of its parent's rate.

ghost use Rattle.std.specs.Prelude.{◌≡◌, IfSome};
ghost use Rattle.clk_base.specs.Description.{kind_of};
ghost use Rattle.clk_base.specs.Valid.{IsValid};
ghost use Rattle.clk_model.specs.Kinds.{is_fixed};
ghost use Rattle.clk_model.specs.Rate.{style_of, rate_over};
ghost use Rattle.clk_tree.specs.Readable.{CanRead};

use clk_base::{ClockId, Kind, ValidDesc};
use kind_math::{DivStyle, div_rate, factor_rate, pll_rate};
use reg_bank::{Bank, read_field};

/// The kind of a clock. A place outside of the description counts as a fixed clock of 0 Hz.
pub(crate) fn kind_of(desc: &ValidDesc, clock: ClockId) -> Kind
    ensures { result ≡ kind_of desc.now.defs clock.0 }
{
    if (clock.0 as usize) < desc.len() {
        desc.def(clock).kind
    } else {
        Kind::FixedRate { rate: 0 }
    }
}

/// Whether a clock has a fixed rate.
pub(crate) fn is_fixed(desc: &ValidDesc, clock: ClockId) -> bool
    ensures { result ≡ is_fixed (kind_of desc.now.defs clock.0) }
{
    matches!(kind_of(desc, clock), Kind::FixedRate { .. })
}

/// How the field of a divider gives its divisor.
pub fn style_of(one_based: bool, power_of_two: bool) -> DivStyle
    ensures { result ≡ style_of one_based power_of_two }
{
    if power_of_two {
        DivStyle::PowerOfTwo
    } else if one_based {
        DivStyle::OneBased
    } else {
        DivStyle::Plain
    }
}

/// The rate in Hz of a clock of this kind over its parent's rate, by the registers.
pub fn rate_by<B: Bank>(kind: &Kind, bank: &B, parent: u64) -> u64
    requires { CanRead (B.size bank.now) kind.now }
    ensures { IfSome (B.contents bank.now) (λ regs. result ≡ rate_over kind.now regs parent) }
{
    match *kind {
        Kind::FixedRate { rate } => rate,
        Kind::Factor { mult, div } => factor_rate(parent, mult, div),
        Kind::Gate { .. } | Kind::Mux { .. } => parent,
        Kind::Divider {
            word,
            shift,
            width,
            one_based,
            power_of_two,
        } => {
            let field = read_field(bank, word as usize, shift, width);
            div_rate(parent, field, style_of(one_based, power_of_two))
        }
        Kind::Pll {
            word,
            shift,
            width,
            m,
            ..
        } => pll_rate(parent, read_field(bank, word as usize, shift, width), m),
    }
}

/// The rate in Hz of a clock over this rate of its parent, by the registers. A place outside of the
/// description counts as a fixed clock of 0 Hz.
#[inline(always)]
pub(crate) fn rate_over<B: Bank>(desc: &ValidDesc, clock: ClockId, bank: &B, parent: u64) -> u64
    requires { IsValid (B.size bank.now) desc.now.defs }
    ensures { IfSome (B.contents bank.now) (λ regs. result ≡ rate_over (kind_of desc.now.defs clock.0) regs parent) }
{
    if (clock.0 as usize) < desc.len() {
        rate_by(&desc.def(clock).kind, bank, parent)
    } else {
        0
    }
}
