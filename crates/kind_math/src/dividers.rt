ghost use Rattle.std.specs.Prelude.{◌≡◌, ◌+◌, ◌^◌, ◌<◌, ◌≤◌, ℕ, nat_le};
ghost use Rattle.std.specs.List.{Contains};
ghost use Rattle.kind_math.specs.Rates as rates;
ghost use Rattle.kind_math.specs.Dividers as choice;

use crate::div_style::DivStyle;
use crate::division::quotient_up;

/// The rate of a divider with this number in its field: its parent's rate divided, rounded up.
pub fn div_rate(parent: u64, field: u32, style: DivStyle) -> u64
    ensures { result ≡ rates.div_rate parent field style }
{
    match style {
        DivStyle::Plain => quotient_up(parent, u64::from(field) + 1),
        DivStyle::OneBased => {
            if field == 0 {
                parent
            } else {
                quotient_up(parent, u64::from(field))
            }
        }
        DivStyle::PowerOfTwo => {
            if field < 64 {
                quotient_up(parent, 1u64 << field)
            } else {
                parent.min(1)
            }
        }
    }
}

// The greatest number that a field of this width holds.
fn last_field(width: u32) -> u32
    requires { width ≤ 16 }
    ensures { result + 1 ≡ 2 ^ width }
{
    (1u32 << width) - 1
}

// The exponent of the least power of two that is at least this number.
fn exponent(wanted: u64) -> u32
    ensures reaches { wanted ≤ 2 ^ result }
    ensures least { (k : ℕ) → wanted ≤ 2 ^ k → result ≤ k }
{
    if wanted <= 1 {
        0
    } else {
        (wanted - 1).ilog2() + 1
    }
}

/// The least valid field that divides by at least this number, or the greatest valid one.
pub(crate) fn least_field(wanted: u64, width: u32, style: DivStyle) -> u32
    requires { choice.IsDividerWidth style width }
    ensures small { result < 2 ^ width }
    ensures chosen { result ≡ choice.least_or_greatest (λ field. nat_le wanted (rates.divisor style field)) (choice.valid_fields style width) }
{
    let last = last_field(width);
    let wanted_field = match style {
        DivStyle::Plain => wanted.saturating_sub(1),
        DivStyle::OneBased => wanted.max(1),
        DivStyle::PowerOfTwo => u64::from(exponent(wanted)),
    };
    wanted_field.min(u64::from(last)) as u32
}

/// The divisor that a divider takes for a wanted rate over this parent's rate.
pub fn div_round(parent: u64, rate: u64, width: u32, style: DivStyle) -> u64
    requires { choice.IsDividerWidth style width }
    ensures { result ≡ choice.div_round parent rate width style }
{
    let field = least_field(parent.div_ceil(rate.max(1)), width, style);
    match style {
        DivStyle::Plain => u64::from(field) + 1,
        DivStyle::OneBased => u64::from(field),
        DivStyle::PowerOfTwo => 1u64 << field,
    }
}

/// The field with which a divider is set to a planned rate over this parent's rate.
pub fn div_setting(parent: u64, rate: u64, width: u32, style: DivStyle) -> u32
    requires { choice.IsDividerWidth style width }
    ensures value { result ≡ choice.div_setting parent rate width style }

    // A rate that some valid field gives is given back.
    ensures gives_back { (field : ℕ) → Contains (choice.valid_fields style width) field → rate ≡ rates.div_rate parent field style → rates.div_rate parent result style ≡ rate }
{
    let wanted = if rate > 0 {
        parent.div_ceil(rate)
    } else if parent == 0 {
        0
    } else {
        u64::MAX
    };
    least_field(wanted, width, style)
}
