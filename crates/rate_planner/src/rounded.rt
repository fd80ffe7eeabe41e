//! Roundings, and the better of two.

ghost use Rattle.std.specs.Prelude.{◌≡◌, List, Some};
ghost use Rattle.std.specs.Option.{option_map};
ghost use Rattle.clk_model.specs.declared.row.ClockRow.{ClockRow};
ghost use Rattle.clk_model.specs.Round as round;
ghost use Rattle.rate_planner.specs.Given.{after_try};
ghost use Rattle.rate_planner.specs.Rounded.{rounded_of, NamesRegistered};

use clk_base::ClockId;

/// A rounded rate, with the parent that gives it and that parent's rate.
#[derive(Clone, Copy, Debug, PartialEq, Eq)]
pub struct Rounded {
    /// The rate that the clock would get, in Hz.
    pub rate: u64,
    /// The parent that it would have.
    pub parent: Option<ClockId>,
    /// The rate in Hz that this parent would have; 0 if there is none.
    pub parent_rate: u64,
}

/// What a parent gives as it is.
pub(crate) fn given(parent: ClockId, rate: u64) -> Rounded
    ensures parent { result.parent ≡ Some parent }
    ensures rounding { rounded_of result ≡ round.through (λ r. r) parent.0 rate }
{
    Rounded {
        rate,
        parent: Some(parent),
        parent_rate: rate,
    }
}

/// The same with another rate of the clock itself.
pub(crate) fn with_rate(given: Rounded, rate: u64) -> Rounded
    ensures { result ≡ record given { rate = rate } }
{
    Rounded { rate, ..given }
}

/// The better of two for a request: the later one if it isn't above the request and is greater
/// than the one so far.
pub(crate) fn better(x: u64, best: Option<Rounded>, tried: Option<Rounded>) -> Option<Rounded>
    ensures choice { option_map rounded_of result ≡ after_try x (option_map rounded_of best) (option_map rounded_of tried) }
    ensures names { (clocks : List ClockRow)
        → NamesRegistered clocks best → NamesRegistered clocks tried → NamesRegistered clocks result }
{
    let Some(tried) = tried else { return best };
    let most = match best {
        Some(best) => best.rate,
        None => 0,
    };
    if tried.rate <= x && most < tried.rate {
        Some(tried)
    } else {
        best
    }
}
