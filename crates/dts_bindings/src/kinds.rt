//! The kinds of clocks, row by row of the table.

ghost use Rattle.std.specs.Prelude.{◌≡◌};
ghost use Rattle.std.specs.Option.{option_map};
ghost use Rattle.dts_bindings.specs.Kinds.{number, pair, mark, fixed_kind, factor_kind, gate_kind, mux_kind, divider_kind, pll_kind, flag, flags_in};

use crate::node::Node;
use crate::properties::values;
use crate::reading::{one_number, two_numbers};
use bitflags::Flags;
use clk_base::{ClkFlags, Kind};

/// The number of a property that is one number cell.
#[tactic(auto, unfolding(crate::specs::Kinds::number))]
pub(crate) fn number(node: &Node<'_>, name: &str) -> Option<u32>
    ensures { result ≡ number name.now node.now }
{
    one_number(values(node, name))
}

// The numbers of a property that is two number cells.
#[tactic(auto, unfolding(crate::specs::Kinds::pair))]
fn pair(node: &Node<'_>, name: &str) -> Option<(u32, u32)>
    ensures { result ≡ pair name.now node.now }
{
    two_numbers(values(node, name))
}

// Whether a mark is there; None where it has a value.
#[tactic(auto, unfolding(crate::specs::Kinds::mark))]
fn mark(node: &Node<'_>, name: &str) -> Option<bool>
    ensures { result ≡ mark name.now node.now }
{
    match node.property(name) {
        Some(property) => {
            if property.values.is_empty() {
                Some(true)
            } else {
                None
            }
        }
        None => Some(false),
    }
}

/// A `fixed-clock`.
#[tactic(auto, unfolding(crate::specs::Kinds::fixed_kind))]
pub(crate) fn fixed_kind(node: &Node<'_>) -> Option<Kind>
    ensures { result ≡ fixed_kind node.now }
{
    let rate = number(node, "clock-frequency")?;
    Some(Kind::FixedRate {
        rate: u64::from(rate),
    })
}

/// A `fixed-factor-clock`.
#[tactic(auto, unfolding(crate::specs::Kinds::factor_kind))]
pub(crate) fn factor_kind(node: &Node<'_>) -> Option<Kind>
    ensures { result ≡ factor_kind node.now }
{
    let mult = number(node, "clock-mult")?;
    let div = number(node, "clock-div")?;
    Some(Kind::Factor { mult, div })
}

/// A `bank,gate-clock`.
#[tactic(auto, unfolding(crate::specs::Kinds::gate_kind))]
pub(crate) fn gate_kind(node: &Node<'_>) -> Option<Kind>
    ensures { result ≡ gate_kind node.now }
{
    let word = number(node, "bank,reg")?;
    let bit = number(node, "bank,bit")?;
    let set_to_disable = mark(node, "bank,set-to-disable")?;
    Some(Kind::Gate {
        word,
        bit,
        set_to_disable,
    })
}

/// A `bank,mux-clock`.
#[tactic(auto, unfolding(crate::specs::Kinds::mux_kind))]
pub(crate) fn mux_kind(node: &Node<'_>) -> Option<Kind>
    ensures { result ≡ mux_kind node.now }
{
    let word = number(node, "bank,reg")?;
    let shift = number(node, "bank,shift")?;
    let width = number(node, "bank,width")?;
    let read_only = mark(node, "bank,read-only")?;
    Some(Kind::Mux {
        word,
        shift,
        width,
        read_only,
    })
}

/// A `bank,divider-clock`.
#[tactic(auto, unfolding(crate::specs::Kinds::divider_kind))]
pub(crate) fn divider_kind(node: &Node<'_>) -> Option<Kind>
    ensures { result ≡ divider_kind node.now }
{
    let word = number(node, "bank,reg")?;
    let shift = number(node, "bank,shift")?;
    let width = number(node, "bank,width")?;
    let one_based = mark(node, "bank,one-based")?;
    let power_of_two = mark(node, "bank,power-of-two")?;
    Some(Kind::Divider {
        word,
        shift,
        width,
        one_based,
        power_of_two,
    })
}

/// A `bank,pll-clock`.
#[tactic(auto, unfolding(crate::specs::Kinds::pll_kind))]
pub(crate) fn pll_kind(node: &Node<'_>) -> Option<Kind>
    ensures { result ≡ pll_kind node.now }
{
    let word = number(node, "bank,reg")?;
    let shift = number(node, "bank,shift")?;
    let width = number(node, "bank,width")?;
    let (power_word, power_bit) = pair(node, "bank,power")?;
    let (least, most) = pair(node, "bank,n-range")?;
    let m = number(node, "bank,m")?;
    Some(Kind::Pll {
        word,
        shift,
        width,
        power_word,
        power_bit,
        least,
        most,
        m,
    })
}

// A flag, where its mark is there.
#[tactic(auto, unfolding(crate::specs::Kinds::flag))]
fn flag(node: &Node<'_>, name: &str, meant: ClkFlags) -> Option<ClkFlags>
    ensures { option_map (λ f. f.0) result ≡ flag name.now meant.0 node.now }
{
    if mark(node, name)? {
        Some(meant)
    } else {
        Some(ClkFlags::empty())
    }
}

/// The flags of a node.
#[tactic(auto, unfolding(crate::specs::Kinds::flags_in))]
pub(crate) fn flags(node: &Node<'_>) -> Option<ClkFlags>
    ensures { result ≡ flags_in node.now }
{
    let mut flags = flag(node, "bank,set-rate-gate", ClkFlags::SET_RATE_GATE)?;
    flags.insert(flag(node, "bank,set-parent-gate", ClkFlags::SET_PARENT_GATE)?);
    flags.insert(flag(node, "bank,set-rate-parent", ClkFlags::SET_RATE_PARENT)?);
    flags.insert(flag(node, "bank,ignore-unused", ClkFlags::IGNORE_UNUSED)?);
    flags.insert(flag(node, "bank,no-reparent", ClkFlags::NO_REPARENT)?);
    flags.insert(flag(node, "bank,critical", ClkFlags::CRITICAL)?);
    flags.insert(flag(node, "bank,ops-parent-enable", ClkFlags::OPS_PARENT_ENABLE)?);
    flags.insert(flag(node, "bank,set-rate-ungate", ClkFlags::SET_RATE_UNGATE)?);
    Some(flags)
}
