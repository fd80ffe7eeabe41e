//! Quotients. Most divisors of clocks are powers of two, for which a shift does.

ghost use Rattle.std.specs.Prelude.{◌≡◌, ◌/◌, ◌<◌};
ghost use Rattle.std.specs.Int.{div_ceil};

/// A number divided, with the fraction dropped.
pub fn quotient(number: u64, divisor: u64) -> u64
    requires { 0 < divisor }
    ensures { result ≡ number / divisor }
{
    let exponent = divisor.ilog2();
    if divisor == 1u64 << exponent {
        number >> exponent
    } else {
        number / divisor
    }
}

/// A number divided, rounded up.
pub fn quotient_up(number: u64, divisor: u64) -> u64
    requires { 0 < divisor }
    ensures { result ≡ div_ceil number divisor }
{
    let whole = quotient(number, divisor);
    if whole * divisor < number {
        whole + 1
    } else {
        whole
    }
}
