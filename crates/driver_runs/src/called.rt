//! The call that a command makes.

ghost use Rattle.std.specs.Prelude.{◌≡◌};
ghost use Rattle.std.specs.Option.{option_map};
ghost use Rattle.clk_model.specs.Follows.{call_of, call_on};
ghost use Rattle.driver_runs.specs.Called.{event_of};

use clk_base::{Act, Handle, Sleeping};

/// A call of a driver: one that may sleep, or one of the enable tier on a handle.
#[derive(Drop)]
pub enum Called {
    Sleeping(Sleeping),
    Enable(Handle),
    Disable(Handle),
    Running(Handle),
}

// The call on a handle that an act makes.
fn call_on(handle: Handle, act: Act) -> Option<Called>
    ensures { option_map event_of result ≡ call_on handle act }
{
    let what = match act {
        Act::Put => Sleeping::Put(handle),
        Act::Prepare => Sleeping::Prepare(handle),
        Act::Unprepare => Sleeping::Unprepare(handle),
        Act::Enable => return Some(Called::Enable(handle)),
        Act::Disable => return Some(Called::Disable(handle)),
        Act::Running => return Some(Called::Running(handle)),
        Act::GetRate => Sleeping::GetRate(handle),
        Act::RoundRate(rate) => Sleeping::RoundRate(handle, rate),
        Act::SetRate(rate) => Sleeping::SetRate(handle, rate),
        Act::SetRateExclusive(rate) => Sleeping::SetRateExclusive(handle, rate),
        Act::SetRange(least, most) => Sleeping::SetRange(handle, least, most),
        Act::SetParent(parent) => Sleeping::SetParent(handle, parent),
        Act::GetParent => Sleeping::GetParent(handle),
        Act::ExclusiveGet => Sleeping::ExclusiveGet(handle),
        Act::ExclusivePut => Sleeping::ExclusivePut(handle),
        Act::NotifierAdd(id, priority, policy) => {
            Sleeping::NotifierAdd(handle, id, priority, policy)
        }
        Act::NotifierRemove(id) => Sleeping::NotifierRemove(handle, id),
        Act::Get(_) | Act::Probe(_) | Act::Sweep => return None,
    };
    Some(Called::Sleeping(what))
}

/// The call that a command makes, where its variable holds this handle or none. A command that lacks
/// what it needs is skipped.
pub fn call_of(held: Option<Handle>, act: Act) -> Option<Called>
    // As an event it is the command's call; none of a command that lacks what it needs.
    ensures { option_map event_of result ≡ call_of held act }
{
    match act {
        Act::Probe(clock) => Some(Called::Sleeping(Sleeping::Probe(clock))),
        Act::Sweep => Some(Called::Sleeping(Sleeping::Sweep)),
        Act::Get(found) => match held {
            None => Some(Called::Sleeping(Sleeping::Get(found))),
            Some(_) => None,
        },
        _ => call_on(held?, act),
    }
}
