//! The calls that change a rate or a parent, by what they ask for.

ghost use Rattle.std.specs.Prelude.{◌≡◌, is_some, IfSome};
ghost use Rattle.clk_model.specs.Laws.PlansRead.{plans};
ghost use Rattle.clk_machine.specs.ChangeCalls.{call_of};

use clk_base::{ClockId, Handle, Sleeping};

/// What a call asks for that changes a rate or a parent.
#[derive(Clone, Copy)]
pub(crate) enum Wanted {
    /// This rate in Hz.
    Rate(u64),
    /// This rate in Hz, which the handle holds from then on.
    HeldRate(u64),
    /// A rate between these in Hz, which are the range of the handle from then on.
    Range(u64, u64),
    /// This parent.
    Parent(ClockId),
}

/// A call that changes a rate or a parent of the clock of a handle.
#[derive(Clone, Copy)]
pub(crate) struct ChangeCall {
    pub(crate) handle: Handle,
    pub(crate) wanted: Wanted,
}

impl ChangeCall {
    /// The call as a driver makes it.
    pub(crate) fn call(self) -> Sleeping
        ensures { result ≡ call_of self }
    {
        let handle = self.handle;
        match self.wanted {
            Wanted::Rate(rate) => Sleeping::SetRate(handle, rate),
            Wanted::HeldRate(rate) => Sleeping::SetRateExclusive(handle, rate),
            Wanted::Range(least, most) => Sleeping::SetRange(handle, least, most),
            Wanted::Parent(parent) => Sleeping::SetParent(handle, parent),
        }
    }
}

/// A call that a driver makes, if it changes a rate or a parent.
pub(crate) fn change_of(what: Sleeping) -> Option<ChangeCall>
    ensures is { IfSome result (λ change. call_of change ≡ what) }
    ensures plans { is_some result ≡ plans what }
{
    let (handle, wanted) = match what {
        Sleeping::SetRate(handle, rate) => (handle, Wanted::Rate(rate)),
        Sleeping::SetRateExclusive(handle, rate) => (handle, Wanted::HeldRate(rate)),
        Sleeping::SetRange(handle, least, most) => (handle, Wanted::Range(least, most)),
        Sleeping::SetParent(handle, parent) => (handle, Wanted::Parent(parent)),
        _ => return None,
    };
    Some(ChangeCall { handle, wanted })
}
