//! The parameters of each kind, as words write them.

ghost use Rattle.std.specs.Prelude.{◌≡◌};
ghost use Rattle.bundle_text.specs.Words.{texts};
ghost use Rattle.clock_lines.specs.Kinds.{fixed_kind, factor_kind, gate_kind, mux_kind, divider_kind, pll_kind};

use crate::field::{Field, field_said, number};
use crate::flag_words::stands;
use bundle_text::{number_within, small_number_within};
use clk_base::Kind;

/// A root with a rate in Hz.
#[tactic(auto, unfolding(crate::specs::Kinds::fixed_kind))]
pub(crate) fn fixed_kind(rate: &str) -> Option<Kind>
    ensures { result ≡ fixed_kind rate.now }
{
    let rate = number_within(0, u64::MAX, rate)?;
    Some(Kind::FixedRate { rate })
}

/// The parent's rate times a multiplier over a divisor.
#[tactic(auto, unfolding(crate::specs::Kinds::factor_kind))]
pub(crate) fn factor_kind(mult: &str, div: &str) -> Option<Kind>
    ensures { result ≡ factor_kind mult.now div.now }
{
    let mult = small_number_within(1, u32::MAX, mult)?;
    let div = small_number_within(1, u32::MAX, div)?;
    Some(Kind::Factor { mult, div })
}

/// A gate bit, which `set-to-disable` turns round.
#[tactic(auto, unfolding(crate::specs::Kinds::gate_kind))]
pub(crate) fn gate_kind(word: &str, bit: &str, flags: &[&str]) -> Option<Kind>
    ensures { result ≡ gate_kind word.now bit.now (texts flags.now) }
{
    let word = number(word)?;
    let bit = number(bit)?;
    let set_to_disable = stands("set-to-disable", flags);
    Some(Kind::Gate {
        word,
        bit,
        set_to_disable,
    })
}

/// A field that chooses the parent, which `read-only` keeps from being written.
#[tactic(auto, unfolding(crate::specs::Kinds::mux_kind))]
pub(crate) fn mux_kind(word: &str, shift: &str, width: &str, flags: &[&str]) -> Option<Kind>
    ensures { result ≡ mux_kind word.now shift.now width.now (texts flags.now) }
{
    let Field { word, shift, width } = field_said(word, shift, width)?;
    let read_only = stands("read-only", flags);
    Some(Kind::Mux {
        word,
        shift,
        width,
        read_only,
    })
}

/// A field that divides.
#[tactic(auto, unfolding(crate::specs::Kinds::divider_kind))]
pub(crate) fn divider_kind(word: &str, shift: &str, width: &str, flags: &[&str]) -> Option<Kind>
    ensures { result ≡ divider_kind word.now shift.now width.now (texts flags.now) }
{
    let Field { word, shift, width } = field_said(word, shift, width)?;
    let one_based = stands("one-based", flags);
    let power_of_two = stands("power-of-two", flags);
    Some(Kind::Divider {
        word,
        shift,
        width,
        one_based,
        power_of_two,
    })
}

/// A field that multiplies, between a least and a most and over M, behind a power bit.
#[tactic(auto, unfolding(crate::specs::Kinds::pll_kind))]
pub(crate) fn pll_kind(
    field: Option<Field>,
    pword: &str,
    pbit: &str,
    nmin: &str,
    nmax: &str,
    m: &str,
) -> Option<Kind>
    ensures { result ≡ pll_kind field pword.now pbit.now nmin.now nmax.now m.now }
{
    let Field { word, shift, width } = field?;
    let power_word = number(pword)?;
    let power_bit = number(pbit)?;
    let least = number(nmin)?;
    let most = number(nmax)?;
    let m = number(m)?;
    Some(Kind::Pll {
        word,
        shift,
        width,
        power_word,
        power_bit,
        least,
        most,
        m,
    })
}
