//! Elements of lists at their places.

ghost use Rattle.std.specs.Prelude.{◌≡◌, ◌<◌, Some, length, slice_get};

use crate::changes::Changed;
use clk_base::Micro;
use notifiers::Notifier;

/// The changed clock at a place.
pub(crate) fn changed_at(changed: &[Changed], place: usize) -> Changed
    requires { place < length changed.now }
    ensures { slice_get changed.now place ≡ Some result }
{
    changed[place]
}

/// The notifier at a place.
pub(crate) fn notifier_at(chain: &[Notifier], place: usize) -> Notifier
    requires { place < length chain.now }
    ensures { slice_get chain.now place ≡ Some result }
{
    chain[place]
}

/// The step of a script at a place.
pub(crate) fn micro_at(steps: &[Micro], place: usize) -> Micro
    requires { place < length steps.now }
    ensures { slice_get steps.now place ≡ Some result }
{
    steps[place]
}
