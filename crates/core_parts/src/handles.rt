//! What a handle holds.

ghost use Rattle.std.specs.Prelude.{◌≡◌};
ghost use Rattle.clk_model.specs.Begin.{keeps_prepare, holds_something};

use clk_model::HandleRow;

/// Whether a handle has no prepare to give up, or only one while it is enabled.
pub fn keeps_prepare(row: HandleRow) -> bool
    ensures { result ≡ keeps_prepare row }
{
    row.prepares == 0 || (row.prepares == 1 && row.enables > 0)
}

/// Whether a handle holds a prepare, an enable or a rate.
pub fn holds_something(row: HandleRow) -> bool
    ensures { result ≡ holds_something row }
{
    row.prepares > 0 || row.enables > 0 || row.exclusives > 0
}
