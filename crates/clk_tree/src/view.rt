//! What planning asks of the clocks beside their links and rates.

ghost use Rattle.std.specs.Prelude.{◌≡◌, ℕ, ◌<◌};
ghost use Rattle.clk_model.specs.Round as round;

use clk_base::ClockId;

/// The boundaries of each clock, whether it is guarded and whether it is prepared.
///
/// A view means a `View` of `clk_model`'s `Round`, and its calls tell just that.
pub trait View {
    // How many clocks the view is of.
    ghost size: { Self → ℕ };

    // What the view says of them.
    ghost means: { Self → round.View };

    /// The least and the greatest rate in Hz that the clock may have.
    fn bounds(&self, c: ClockId) -> (u64, u64)
        requires { c.0 < size self.now }
        ensures low { result.0 ≡ (means self.now).low c.0 }
        ensures high { result.1 ≡ (means self.now).high c.0 };

    /// Whether the clock's rate is protected by an exclusive holder.
    fn guarded(&self, c: ClockId) -> bool
        requires { c.0 < size self.now }
        ensures { result ≡ (means self.now).guarded c.0 };

    /// Whether the clock is prepared.
    fn prepared(&self, c: ClockId) -> bool
        requires { c.0 < size self.now }
        ensures { result ≡ (means self.now).prepared c.0 };
}
