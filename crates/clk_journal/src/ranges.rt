//! The sizes that types give the numbers of an entry. These functions do nothing: what they say, the
//! types say of each value that there is.

ghost use Rattle.std.specs.List.{AllByRecursion};
ghost use Rattle.clk_journal.specs.Told.{IsPolicy, IsSmall};
ghost use Rattle.clk_journal.specs.Sized.{IsSized, IsSizedCall, IsSizedEvent, IsSizedStep, IsSizedTurn};

use clk_base::{Entry, Event, Handle, Micro, Policy, Reply, Sleeping, Turn};

// A handle's number has 32 bits.
fn handle_is_sized(handle: Handle)
    ensures { IsSmall handle.number }
{
    let _number = handle.number;
}

// A policy's rate has 64 bits.
fn policy_is_sized(policy: Policy)
    ensures { IsPolicy policy }
{
    match policy {
        Policy::Accept | Policy::VetoAll => {}
        Policy::VetoAbove(_rate) | Policy::VetoBelow(_rate) => {}
    }
}

// The numbers of a call are of their sizes.
fn call_is_sized(what: Sleeping)
    ensures { IsSizedCall what }
{
    match what {
        Sleeping::Put(handle)
        | Sleeping::Prepare(handle)
        | Sleeping::Unprepare(handle)
        | Sleeping::GetRate(handle)
        | Sleeping::GetParent(handle)
        | Sleeping::ExclusiveGet(handle)
        | Sleeping::ExclusivePut(handle)
        | Sleeping::SetParent(handle, _) => handle_is_sized(handle),
        Sleeping::RoundRate(handle, _rate)
        | Sleeping::SetRate(handle, _rate)
        | Sleeping::SetRateExclusive(handle, _rate) => handle_is_sized(handle),
        Sleeping::SetRange(handle, _least, _most) => handle_is_sized(handle),
        Sleeping::NotifierAdd(handle, _id, _priority, policy) => {
            handle_is_sized(handle);
            policy_is_sized(policy);
        }
        Sleeping::NotifierRemove(handle, _id) => handle_is_sized(handle),
        Sleeping::Get(_) | Sleeping::Probe(_) | Sleeping::Sweep => {}
    }
}

// The numbers of a step are of their sizes.
fn step_is_sized(step: Micro)
    ensures { IsSizedStep step }
{
    match step {
        Micro::Notify {
            kind: _kind,
            clock: _clock,
            id: _id,
            old: _old,
            new: _new,
        } => {}
        Micro::WriteMux(_clock, _place) => {}
        _ => {}
    }
}

// The numbers of an event are of their sizes.
fn event_is_sized(event: Event)
    ensures { IsSizedEvent event }
{
    match event {
        Event::Enable(_number) | Event::Disable(_number) | Event::Running(_number) => {}
        Event::Begin(what) => call_is_sized(what),
        Event::Step(step, _) => step_is_sized(step),
    }
}

// The numbers of a turn are of their sizes.
fn turn_is_sized(turn: Turn)
    ensures { IsSizedTurn turn }
{
    match turn {
        Turn::Done(Reply::Handle(handle)) => handle_is_sized(handle),
        Turn::Done(Reply::Rate(_rate)) => {}
        _ => {}
    }
}

// The numbers of an entry are of their sizes.
fn entry_is_sized(entry: &Entry)
    ensures { IsSized entry.now }
{
    event_is_sized(entry.event);
    turn_is_sized(entry.turn);
}

/// Each number of these entries is of the size that its type gives it.
pub fn entries_are_sized(entries: &[Entry])
    ensures { AllByRecursion IsSized entries.now }
{
    for entry in entries {
        entry_is_sized(entry);
    }
}
