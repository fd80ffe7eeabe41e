//! The divisors of a divider, one by one.

ghost use Rattle.std.specs.Prelude.{◌≡◌, ◌==◌, ◌*◌, ◌^◌, ◌<◌, ◌≤◌, IfSome, filter, find, nat_le};
ghost use Rattle.kind_math.specs.Rates.{divisor};
ghost use Rattle.kind_math.specs.Choices.{greatest_of};
ghost use Rattle.kind_math.specs.Dividers.{IsDividerWidth, valid_divisors};
ghost use Rattle.clk_model.specs.Round.{most_rate};
ghost use Rattle.rate_planner.specs.Divisors.{first_field};

use kind_math::{DivStyle, div_round};

/// The least field that divides.
pub(crate) fn first_field(style: DivStyle) -> u32
    ensures { result ≡ first_field style }
{
    match style {
        DivStyle::Plain | DivStyle::PowerOfTwo => 0,
        DivStyle::OneBased => 1,
    }
}

/// The first number that a field of this width can't hold.
pub(crate) fn end_of_fields(width: u32) -> u32
    requires { width ≤ 16 }
    ensures { result ≡ 2 ^ width }
{
    1u32 << width
}

/// What a field of this width divides by.
pub(crate) fn divisor_of(field: u32, width: u32, style: DivStyle) -> u64
    requires right { IsDividerWidth style width }
    requires first { first_field style ≤ field }
    requires fits { field < 2 ^ width }
    ensures value { result ≡ divisor style field }
    ensures divides { 0 < result }
{
    match style {
        DivStyle::Plain => u64::from(field) + 1,
        DivStyle::OneBased => u64::from(field),
        DivStyle::PowerOfTwo => 1u64 << field,
    }
}

/// The greatest divisor of a divider.
pub(crate) fn greatest_divisor(width: u32, style: DivStyle) -> u64
    requires right { IsDividerWidth style width }
    ensures greatest { result ≡ greatest_of (valid_divisors style width) }
    ensures divides { 0 < result }
{
    divisor_of(end_of_fields(width) - 1, width, style)
}

/// The divisor for which a parent's rate is just the product with a wanted rate.
pub(crate) fn exact_fit(x: u64, parent: u64, width: u32, style: DivStyle) -> Option<u64>
    requires some { 1 ≤ x }
    requires right { IsDividerWidth style width }
    ensures fit { result ≡ find (λ i. x * i == parent) (filter (λ i. nat_le (x * i) most_rate) (valid_divisors style width)) }
    ensures divides { IfSome result (λ i. 0 < i) }
{
    let divisor = div_round(parent, x, width, style);
    match x.checked_mul(divisor) {
        Some(product) => {
            if product == parent {
                Some(divisor)
            } else {
                None
            }
        }
        None => None,
    }
}
