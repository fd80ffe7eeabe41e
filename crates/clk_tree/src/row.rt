//! The row of a clock, with its registration and its link.

ghost use Rattle.std.specs.Prelude.{◌≡◌, ◌<◌};
ghost use Rattle.std.specs.Option.{option_map};
ghost use Rattle.clk_model.specs.State.{row_of, registered, link_in, unregistered_row};

use clk_base::ClockId;
use clk_model::ClockRow;

/// The row of a clock that was never registered.
pub(crate) fn unregistered() -> ClockRow
    ensures { result ≡ unregistered_row }
{
    ClockRow {
        registered: false,
        link: None,
        last_request: 0,
    }
}

/// The row of a clock.
pub(crate) fn row_of(clocks: &[ClockRow], clock: ClockId) -> ClockRow
    ensures { result ≡ row_of clocks.now clock.0 }
{
    match clocks.get(clock.0 as usize) {
        Some(row) => *row,
        None => unregistered(),
    }
}

/// Whether a clock is registered.
pub(crate) fn is_registered(clocks: &[ClockRow], clock: ClockId) -> bool
    ensures { result ≡ registered clocks.now clock.0 }
{
    row_of(clocks, clock).registered
}

/// The parent that a clock is attached to.
pub(crate) fn link_of(clocks: &[ClockRow], clock: ClockId) -> Option<ClockId>
    ensures { option_map (λ p. p.0) result ≡ link_in clocks.now clock.0 }
{
    row_of(clocks, clock).link
}
