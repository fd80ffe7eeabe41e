ghost use Rattle.std.specs.Prelude.{◌≡◌, ◌<◌, ◌≤◌, ℕ};
ghost use Rattle.kind_math.specs.Rates as rates;
ghost use Rattle.kind_math.specs.Plls as choice;

use crate::factors::scaled;

/// The rate of a PLL: its parent's rate times `n`, divided by `m`.
#[tactic(auto, unfolding(crate::specs::Rates::pll_rate))]
pub fn pll_rate(parent: u64, n: u32, m: u32) -> u64
    requires { 0 < m }
    ensures { result ≡ rates.pll_rate parent n m }
{
    scaled(parent, n, m)
}

/// The multiplier from `least` to `most` that a PLL takes for a wanted rate over this parent's rate.
pub fn pll_round(parent: u64, rate: u64, least: u32, most: u32, m: u32) -> u32
    requires range { least ≤ most }
    requires divides { 0 < m }
    ensures { result ≡ choice.pll_multiplier parent rate least most m }
{
    if parent == 0 || rate == u64::MAX {
        return most;
    }
    let last = ((u128::from(rate) + 1) * u128::from(m) - 1) / u128::from(parent);
    last.clamp(u128::from(least), u128::from(most)) as u32
}

/// The multiplier with which a PLL is set to a planned rate over this parent's rate.
pub fn pll_setting(parent: u64, rate: u64, least: u32, most: u32, m: u32) -> u32
    requires range { least ≤ most }
    requires divides { 0 < m }
    ensures value { result ≡ choice.pll_multiplier parent rate least most m }

    // A rate that some multiplier of the range gives is given back.
    ensures gives_back { (n : ℕ) → least ≤ n → n ≤ most → rate ≡ rates.pll_rate parent n m → rates.pll_rate parent result m ≡ rate }
{
    pll_round(parent, rate, least, most, m)
}
