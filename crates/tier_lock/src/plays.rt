//! What each step on the lock's word tells, and how the knowledge of seats is cut and joined.
ghost use Rattle.std.specs.Prelude.{ℕ, Option, None};
ghost use Rattle.tier_lock.specs.Entries.{reading};
ghost use Rattle.tier_lock.specs.Turns.{loose, spent, newcomer};
ghost use Rattle.tier_lock.specs.Steps.{Wins, Gives, GivesBack, Looks, Settles, with_less, without_baton, with_baton, with_ended};

use crate::kept::Kept;
use crate::view::View;
use atomic_table::{Join, Play, Split};
use std::marker::{Brand, PhantomData};

/// Names the fixed part of a lock: what a step tells can't read the table's key.
pub trait Fixes<F> {
    ghost fixed: { Option F };
}

impl<F> Fixes<F> for Brand {
    ghost fixed = { None };
}

/// Takes the turn, where nobody has it.
pub struct Win<T: Kept, N: Fixes<T::Fixed>> {
    of: PhantomData<(T, N)>,
}

impl<T: Kept, N: Fixes<T::Fixed>> Play<Option<T>, View<T::Entry, T::Fixed>> for Win<T, N> {
    ghost then = { Wins (reading T.entries T.fixed T.by T.prep T.cost T.most) N.fixed };
}

/// Ends a turn with one entry.
pub struct Give<T: Kept> {
    of: PhantomData<T>,
}

impl<T: Kept> Play<Option<T>, View<T::Entry, T::Fixed>> for Give<T> {
    ghost then = { Gives (reading T.entries T.fixed T.by T.prep T.cost T.most) };
}

/// Ends a turn without an entry.
pub struct GiveBack<T: Kept> {
    of: PhantomData<T>,
}

impl<T: Kept> Play<Option<T>, View<T::Entry, T::Fixed>> for GiveBack<T> {
    ghost then = { GivesBack (reading T.entries T.fixed T.by T.prep T.cost T.most) };
}

/// The first load of a new pass.
pub struct Look<T: Kept> {
    of: PhantomData<T>,
}

impl<T: Kept> Play<Option<T>, View<T::Entry, T::Fixed>> for Look<T> {
    ghost then = { Looks (reading T.entries T.fixed T.by T.prep T.cost T.most) };
}

/// The load behind a lend.
pub struct Settle<T: Kept> {
    of: PhantomData<T>,
}

impl<T: Kept> Play<Option<T>, View<T::Entry, T::Fixed>> for Settle<T> {
    ghost then = { Settles (reading T.entries T.fixed T.by T.prep T.cost T.most) };
}

/// Names the room that a split moves.
pub trait Amount {
    ghost amount: { ℕ };
}

impl Amount for Brand {
    ghost amount = { 0 };
}

/// Cuts a new pass off number 0.
pub struct Part<N: Amount> {
    of: PhantomData<N>,
}

impl<E, F, N: Amount> Split<View<E, F>> for Part<N> {
    ghost left = { with_less N.amount };

    ghost right = { newcomer N.amount };
}

/// Cuts the baton off a pass.
pub struct HandBack;

impl<E, F> Split<View<E, F>> for HandBack {
    ghost left = { without_baton };

    ghost right = { loose };
}

/// Joins the baton to a pass.
pub struct Lend;

impl<E, F> Join<View<E, F>> for Lend {
    ghost both = { with_baton };

    ghost spent = { spent };
}

/// Joins a pass that has ended to the baton.
pub struct End;

impl<E, F> Join<View<E, F>> for End {
    ghost both = { with_ended };

    ghost spent = { spent };
}
