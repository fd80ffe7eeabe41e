//! Rounding to the closest rate.

ghost use Rattle.std.specs.Prelude.{◌≡◌, ◌-◌, max};
ghost use Rattle.kind_math.specs.Closest as closest;
ghost use Rattle.kind_math.specs.Dividers as choice;
ghost use Rattle.kind_math.specs.Dividers.{first_field};

use crate::div_style::DivStyle;
use crate::dividers::{div_rate, div_round, least_field};

/// The one of two rates that is nearer to the wanted one, and the lower one if they are equally near.
pub(crate) fn nearer(wanted: u64, rate: u64, other: u64) -> u64
    ensures { result ≡ closest.nearer wanted rate other }
{
    let apart = rate.abs_diff(wanted);
    let other_apart = other.abs_diff(wanted);
    if apart < other_apart {
        rate
    } else if other_apart < apart {
        other
    } else {
        rate.min(other)
    }
}

// The valid field before this one, or the first one.
fn field_before(field: u32, style: DivStyle) -> u32
    ensures { result ≡ max (first_field style) (field - 1) }
{
    match style {
        DivStyle::Plain | DivStyle::PowerOfTwo => field.saturating_sub(1),
        DivStyle::OneBased => field.max(2) - 1,
    }
}

/// The divisor that a divider takes for a wanted rate over this parent's rate if it rounds to the
/// closest: the least one whose rate is nearest to it, and of two rates that are equally near the
/// lower one.
pub fn div_round_closest(parent: u64, rate: u64, width: u32, style: DivStyle) -> u64
    requires { choice.IsDividerWidth style width }
    ensures { result ≡ choice.div_round_closest parent rate width style }
{
    let wanted = rate.max(1);
    let field = least_field(parent.div_ceil(wanted), width, style);
    // No valid field gives a rate between the rates of these two.
    let low = div_rate(parent, field, style);
    let high = div_rate(parent, field_before(field, style), style);
    div_round(parent, nearer(wanted, low, high), width, style)
}
