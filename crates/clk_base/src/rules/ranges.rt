//! The rule on the ranges of parameters.

ghost use Rattle.std.specs.Prelude.{◌≡◌, ℕ, ◌<◌, ◌^◌, length};
ghost use Rattle.clk_base.specs.Description.{FindsFirst};
ghost use Rattle.clk_base.specs.Valid.{keeps_ranges, has_ranges, is_width};

use crate::clock::{ClockDef, ClockId, Kind};

const MOST_MUX_BITS: u32 = 6;

const MOST_POWER_OF_TWO_BITS: u32 = 5;

const MOST_BITS: u32 = 16;

/// The first clock with a parameter out of its range.
pub(super) fn first_out_of_range(defs: &[ClockDef]) -> Option<ClockId>
    requires { length defs.now < 2 ^ 32 }
    ensures { (words : ℕ) → FindsFirst defs.now (keeps_ranges words defs.now) result }
{
    for (i, def) in defs.iter().enumerate() {
        if !has_ranges(def.kind, def.parents.as_slice().len()) {
            return Some(ClockId(i as u32));
        }
    }
    None
}

// Whether the parameters of a kind with so many possible parents are in their ranges.
fn has_ranges(kind: Kind, parents: usize) -> bool
    ensures { result ≡ has_ranges kind parents }
{
    match kind {
        Kind::FixedRate { .. } | Kind::Gate { .. } => true,
        Kind::Factor { mult, div } => mult > 0 && div > 0,
        Kind::Mux { width, .. } => {
            is_width(MOST_MUX_BITS, width) && parents as u64 <= 1u64 << width
        }
        Kind::Divider {
            width,
            one_based,
            power_of_two: true,
            ..
        } => is_width(MOST_POWER_OF_TWO_BITS, width) && !one_based,
        Kind::Divider { width, .. } => is_width(MOST_BITS, width),
        Kind::Pll {
            width,
            least,
            most,
            m,
            ..
        } => {
            is_width(MOST_BITS, width)
                && m > 0
                && least > 0
                && least <= most
                && u64::from(most) < 1u64 << width
        }
    }
}

// Whether the width of a field is not 0 and at most so many bits.
fn is_width(most: u32, width: u32) -> bool
    ensures { result ≡ is_width most width }
{
    width > 0 && width <= most
}
