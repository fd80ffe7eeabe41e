//! What each step of the call makes of the change in flight itself.

ghost use Rattle.std.specs.Prelude.{◌≡◌, true, false, ◌+◌, ◌<◌, ◌≤◌, ◌^◌, length, ◌&&◌, ℕ, Some, None, List, IsTrue, nat_lt, if◌then◌else◌};
ghost use Rattle.clk_base.specs.declared.call.Micro.{Micro};
ghost use Rattle.clk_base.specs.declared.call.Micro.TheVariants as micro;
ghost use Rattle.clk_base.specs.declared.clock.ClockId.{ClockId};
ghost use Rattle.clk_model.specs.State.{NotifierRow};
ghost use Rattle.clk_model.specs.Notices.{notifiers_of};
ghost use Rattle.clk_flight.specs.Fronts.{script_behind, is_empty};
ghost use Rattle.clk_flight.specs.Flights.{own_step, seeks_plls, comes_next};
ghost use Rattle.clk_flight.specs.LeftOver.{left_over};
ghost use Rattle.clk_flight.specs.Moves.{gone_on, found_none, raised_in, lowered_once, is_last_no, front_polled, polled_in, fallen, let_go_of, visited, landed};
ghost use Rattle.clk_flight.specs.Steps.{GoesOn, FindsNone, Raises, LowersOne, Polls, Drops, LetsGo, Visits, LeavesLess, LeavesLessAt, is_taken, is_fall};

use super::Flight;
use crate::front::{Front, behind, fallen, falls, is_empty, posts, raise_again};
use crate::script::Script;
use clk_base::ClockId;

/// How often a poll may ask.
const MOST_POLLS: u32 = 32;

// The script behind the next step, where that is its own.
fn take_own(front: Front, script: &mut Script)
    ensures left { script.new.left ≡ script_behind front script.old.left }
    ensures whole { script.new.whole ≡ script.old.whole }
{
    if is_empty(front) {
        script.take();
    }
}

// Whether a raise or lower comes again that has come so often, where a line has so many PLLs.
fn comes_again(more: bool, again: u32, plls: u32) -> bool
    ensures { result ≡ (more && nat_lt (again + 1) plls) }
{
    more && again < plls && again + 1 < plls
}

// How often it has come again then.
fn once_more(comes: bool, again: u32) -> u32
    requires { IsTrue comes → again + 1 < 2 ^ 32 }
    ensures { result ≡ (if comes then again + 1 else 0) }
{
    if comes { again + 1 } else { 0 }
}

// The poll of a PLL, and behind it the raise that comes again.
fn first_poll(x: ClockId, pll: ClockId, comes: bool) -> Front
    ensures { result ≡ Front.Poll pll 32 (if comes then Some x else None) }
{
    let again = if comes { Some(x) } else { None };
    Front::Poll {
        pll,
        polls: MOST_POLLS,
        again,
    }
}

// What stands in front behind a lower.
fn lowered(x: ClockId, comes: bool, rest: Front) -> Front
    ensures { result ≡ (if comes then Front.Lower x else rest) }
{
    if comes { Front::Lower(x) } else { rest }
}

// Whether this is the last poll that a PLL may have, and its answer is no.
fn is_last_no(front: Front, yes: bool) -> bool
    ensures { result ≡ is_last_no front yes }
{
    match front {
        Front::Poll { polls, .. } => !yes && polls <= 1,
        _ => false,
    }
}

// What stands in front behind the answer of a poll that isn't the last one.
fn polled(front: Front, yes: bool) -> Front
    requires { is_last_no front yes ≡ false }
    ensures { result ≡ front_polled front yes }
{
    match front {
        Front::Poll { pll, polls, again } => {
            if yes {
                raise_again(again)
            } else {
                Front::Poll {
                    pll,
                    polls: polls - 1,
                    again,
                }
            }
        }
        other => other,
    }
}

impl Flight {
    /// A step is made that leaves the change as it is: any but a raise, a poll, a fall, a lower, a
    /// visit and the end.
    pub fn go_on(&mut self)
        ensures flight { self.new ≡ gone_on self.old }
        ensures change { GoesOn self.old self.new }
        ensures less { LeavesLessAt is_taken self.old self.new }
    {
        if is_empty(self.front) {
            self.script.take();
        } else {
            self.front = behind(self.front, self.raised.len());
        }
    }

    /// A raise or a lower has found no PLL.
    pub fn find_none(&mut self)
        requires next { seeks_plls (own_step self.old) ≡ true }
        ensures flight { self.new ≡ found_none self.old }
        ensures change { FindsNone self.old self.new }
        ensures less { LeavesLess self.old self.new }
    {
        take_own(self.front, &mut self.script);
        self.front = behind(self.front, self.raised.len());
        self.again = 0;
    }

    /// The raise of a clock's PLLs has powered one, and perhaps there are more.
    pub fn raise(&mut self, x: ClockId, pll: ClockId, more: bool)
        requires next { own_step self.old ≡ Some (micro.Raise x) }
        ensures flight { self.new ≡ raised_in self.old x pll more }
        ensures change { Raises x pll more self.old self.new }
        ensures less { LeavesLess self.old self.new }
    {
        if self.again >= self.plls {
            self.find_none();
            return;
        }
        let comes = comes_again(more, self.again, self.plls);
        take_own(self.front, &mut self.script);
        self.raised.push(pll);
        self.front = first_poll(x, pll, comes);
        self.again = once_more(comes, self.again);
    }

    /// The lower of a clock's PLLs has switched one off, and perhaps there are more.
    pub fn lower(&mut self, x: ClockId, more: bool)
        requires next { own_step self.old ≡ Some (micro.Lower x) }
        ensures flight { self.new ≡ lowered_once self.old x more }
        ensures change { LowersOne x more self.old self.new }
        ensures less { LeavesLess self.old self.new }
    {
        let comes = comes_again(more, self.again, self.plls);
        take_own(self.front, &mut self.script);
        let rest = behind(self.front, self.raised.len());
        self.front = lowered(x, comes, rest);
        self.again = once_more(comes, self.again);
    }

    /// The poll in front is answered.
    pub fn poll(&mut self, yes: bool)
        ensures flight { self.new ≡ polled_in self.old yes }
        ensures change { Polls yes self.old self.new }
        ensures less { (y : ClockId) → own_step self.old ≡ Some (micro.Poll y) → LeavesLess self.old self.new }
    {
        if is_last_no(self.front, yes) {
            self.front = falls(self.raised.len(), 0, self.extra);
            self.missed = self.script.cut(self.call);
            self.again = 0;
            self.extra = 0;
            self.timed_out = true;
            return;
        }
        take_own(self.front, &mut self.script);
        self.front = polled(self.front, yes);
    }

    /// The PLL that was raised last has fallen.
    pub fn fall(&mut self)
        ensures flight { self.new ≡ fallen self.old }
        ensures change { Drops self.old self.new }
        ensures less { LeavesLessAt is_fall self.old self.new }
    {
        take_own(self.front, &mut self.script);
        self.raised.pop();
        self.front = fallen(self.front, self.raised.len());
    }

    /// A PLL is held by a prepare from now on, or is prepared, and counts as raised no more.
    pub fn let_go(&mut self, pll: ClockId)
        ensures flight { self.new ≡ let_go_of self.old pll }
        ensures change { LetsGo pll self.old self.new }
        ensures less { (notifiers : List NotifierRow) → left_over notifiers self.new ≤ left_over notifiers self.old }
    {
        self.raised.let_go(pll);
        self.front = fallen(self.front, self.raised.len());
    }

    /// A clock is visited. So many of its notifiers are told next: all where its rate has changed
    /// since the beginning, and else none. The rates in Hz are those before the change, and in its
    /// outcome.
    pub fn visit(&mut self, clock: ClockId, told: usize, old: u64, new: u64)
        requires next { own_step self.old ≡ Some (micro.Visit clock) }
        ensures flight { self.new ≡ visited self.old clock told old new }
        ensures change { Visits clock told old new self.old self.new }
        ensures less { (notifiers : List NotifierRow) → told ≤ length (notifiers_of notifiers clock.0) → left_over notifiers self.new < left_over notifiers self.old }
    {
        take_own(self.front, &mut self.script);
        self.front = posts(clock, 0, told, old, new);
    }

    /// The change has ended.
    pub fn end(&mut self)
        ensures flight { self.new ≡ landed self.old }
        ensures quiet { self.new.going ≡ false }
        ensures less { (notifiers : List NotifierRow) (m : Micro) → comes_next notifiers self.old ≡ Some m → left_over notifiers self.new < left_over notifiers self.old }
    {
        self.script.finish();
        self.raised.clear();
        self.front = Front::Empty;
        self.again = 0;
        self.extra = 0;
        self.going = false;
    }
}
