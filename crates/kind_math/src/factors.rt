ghost use Rattle.std.specs.Prelude.{◌≡◌, ◌*◌, ◌/◌, ◌<◌};
ghost use Rattle.kind_math.specs.Rates as rates;

use crate::division::quotient;

/// The rate, or the greatest 64-bit number where it is above it.
pub(crate) fn capped(rate: u128) -> u64
    ensures { result ≡ rates.capped rate }
{
    rate.min(u128::from(u64::MAX)) as u64
}

// A product that isn't above the greatest 64-bit number, divided.
fn within(product: u64, div: u32) -> u64
    requires { 0 < div }
    ensures { result ≡ rates.capped (product / div) }
{
    quotient(product, u64::from(div))
}

/// A rate multiplied and divided, with the fraction dropped. Only where the product has more than 64
/// bits it is divided as one of 128.
pub(crate) fn scaled(rate: u64, mult: u32, div: u32) -> u64
    requires { 0 < div }
    ensures { result ≡ rates.capped (rate * mult / div) }
{
    match rate.checked_mul(u64::from(mult)) {
        Some(product) => within(product, div),
        None => capped(u128::from(rate) * u128::from(mult) / u128::from(div)),
    }
}

/// The rate of a factor clock: its parent's rate times `mult`, divided by `div`.
#[tactic(auto, unfolding(crate::specs::Rates::factor_rate))]
pub fn factor_rate(parent: u64, mult: u32, div: u32) -> u64
    requires { 0 < div }
    ensures { result ≡ rates.factor_rate parent mult div }
{
    scaled(parent, mult, div)
}
