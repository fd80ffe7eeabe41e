//! What the steps made have put in front of a script, as a place and a count.

ghost use Rattle.std.specs.Prelude.{◌≡◌, ℕ, ◌+◌, ◌<◌, ◌^◌, List, length};
ghost use Rattle.std.specs.Option.{option_map_or};
ghost use Rattle.clk_flight.specs.Fronts.{abort_of, is_empty, falls, aborts_behind, posts, front_behind, HasSteps, IsCounted};
ghost use Rattle.clk_flight.specs.Moves.{front_fallen};

use clk_base::{ClockId, Micro, Notice};

/// What stands in front of a script.
#[derive(Clone, Copy)]
pub(crate) enum Front {
    /// Nothing: the script's own step comes next.
    Empty,
    /// The poll of a PLL, which may still ask so often, and behind it the raise that comes again.
    Poll {
        pll: ClockId,
        polls: u32,
        again: Option<ClockId>,
    },
    /// A raise that comes again.
    Raise(ClockId),
    /// A lower that comes again.
    Lower(ClockId),
    /// The falls of the raised PLLs, and then so many of the script's notices, from a place on, as
    /// notices that the change is called off.
    Falls {
        told: usize,
        left: usize,
    },
    /// So many of the notices that a clock's rate has changed, from a place of its chain on.
    Posts {
        clock: ClockId,
        told: usize,
        left: usize,
        old: u64,
        new: u64,
    },
}

/// A notice as one that the change is called off, if it is one.
pub(crate) fn abort_of(step: Micro) -> Option<Micro>
    ensures { result ≡ abort_of step }
{
    match step {
        Micro::Notify {
            clock,
            id,
            old,
            new,
            ..
        } => Some(Micro::Notify {
            kind: Notice::Abort,
            clock,
            id,
            old,
            new,
        }),
        _ => None,
    }
}

/// The falls of so many raised PLLs and so many notices behind them, if there are any.
pub(crate) fn falls(raised: usize, told: usize, left: usize) -> Front
    ensures front { (ys : List ℕ) → raised ≡ length ys → result ≡ falls ys told left }
{
    if raised == 0 && left == 0 {
        return Front::Empty;
    }
    Front::Falls { told, left }
}

/// So many notices that a clock's rate has changed, if there are any.
pub(crate) fn posts(clock: ClockId, told: usize, left: usize, old: u64, new: u64) -> Front
    ensures front { result ≡ posts clock told left old new }
{
    if left == 0 {
        return Front::Empty;
    }
    Front::Posts {
        clock,
        told,
        left,
        old,
        new,
    }
}

/// The raise that comes again, if one does.
pub(crate) fn raise_again(again: Option<ClockId>) -> Front
    ensures { result ≡ option_map_or Front.Raise again Front.Empty }
{
    match again {
        Some(x) => Front::Raise(x),
        None => Front::Empty,
    }
}

// The falls of so many raised PLLs, or behind them the notices without the first.
fn aborts_behind(raised: usize, told: usize, left: usize) -> Front
    requires steps { 0 < left + raised }
    requires fits { told + left < 2 ^ 64 }
    ensures front { (ys : List ℕ) → raised ≡ length ys → result ≡ aborts_behind ys told left }
{
    if raised > 0 {
        return Front::Falls { told, left };
    }
    falls(0, told + 1, left - 1)
}

/// What stands in front behind the first step of it, where that is no fall.
pub(crate) fn behind(front: Front, raised: usize) -> Front
    requires steps { HasSteps raised front }
    requires counted { IsCounted front }
    ensures { (ys : List ℕ) → raised ≡ length ys → result ≡ front_behind ys front }
{
    match front {
        Front::Empty | Front::Raise(_) | Front::Lower(_) => Front::Empty,
        Front::Poll { again, .. } => raise_again(again),
        Front::Falls { told, left } => aborts_behind(raised, told, left),
        Front::Posts {
            clock,
            told,
            left,
            old,
            new,
        } => posts(clock, told + 1, left - 1, old, new),
    }
}

/// What stands in front behind the fall of a PLL, where so many are still raised.
pub(crate) fn fallen(front: Front, raised: usize) -> Front
    ensures { (ys : List ℕ) → raised ≡ length ys → result ≡ front_fallen ys front }
{
    match front {
        Front::Falls { told, left } => falls(raised, told, left),
        other => other,
    }
}

/// Whether the script's own step comes next.
pub(crate) fn is_empty(front: Front) -> bool
    ensures { result ≡ is_empty front }
{
    matches!(front, Front::Empty)
}
