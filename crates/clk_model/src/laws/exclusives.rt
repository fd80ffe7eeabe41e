//! Laws of exclusive holds.

ghost use Rattle.clk_model.specs.Laws.Exclusive.{RatesStayExclusive};

/// While a handle has an exclusive hold that no call sets aside, the rate of its clock stays:
/// behind each entry of the others, between calls and in the middle of them, registrations,
/// timeouts and the sweep included.
pub fn rate_stays_while_exclusive()
    ensures law { RatesStayExclusive }
{}
