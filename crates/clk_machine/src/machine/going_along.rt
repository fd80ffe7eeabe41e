//! How a machine goes along with what another one did: calls that were answered at once, and the steps of
//! a call in flight. It takes no memory.

ghost use Rattle.std.specs.Prelude.{◌≡◌, ◌⊎◌, ℕ, ◌<◌, ◌≤◌, true, false, None, Option, Some, Bool, IfNone, IfSome, length};
ghost use Rattle.clk_base.specs.declared.call.Micro.{Micro};
ghost use Rattle.clk_base.specs.declared.call.Micro.TheVariants as micro;
ghost use Rattle.clk_base.specs.declared.call.Sleeping.TheVariants as call;
ghost use Rattle.clk_base.specs.declared.event.Event.TheVariants.{Begin, Step};
ghost use Rattle.clk_base.specs.declared.event.Reply.{Reply};
ghost use Rattle.clk_base.specs.declared.event.Reply.TheVariants.{Fine};
ghost use Rattle.clk_base.specs.declared.event.Turn.{Turn};
ghost use Rattle.clk_base.specs.declared.event.Turn.TheVariants.{Done, Going};
ghost use Rattle.clk_model.specs.State.{handle_at};
ghost use Rattle.clk_model.specs.Step.{is_yes};
ghost use Rattle.clk_flight.specs.Flights.{own_step};
ghost use Rattle.clk_machine.specs.Along.{GoesAlong, KeepsShape};
ghost use Rattle.clk_machine.specs.Making.{ComesFirst};
ghost use Rattle.clk_machine.specs.Parts.{own_in, IsWhole};
ghost use Rattle.clk_machine.specs.Stands.{Enters};

use super::Machine;
use clk_base::{ClockId, Handle, Micro};
use clk_model::HandleRow;
use core_parts::{holds_something, keeps_prepare};
use reg_bank::Bank;

// Whether an answer is yes.
fn is_yes(answer: Option<bool>) -> bool
    ensures { result ≡ is_yes answer }
{
    match answer {
        Some(yes) => yes,
        None => false,
    }
}

impl<B: Bank> Machine<B> {
    // ---- steps

    // The poll that comes next is answered so.
    fn poll_as(&mut self, pll: ClockId, yes: bool)
        requires going { self.old.flight.going ≡ true }
        requires next { own_step self.old.flight ≡ Some (micro.Poll pll) }
        requires first { ComesFirst self.old (micro.Poll pll) }
        ensures { Enters self.old self.old.flight.driver (Step (micro.Poll pll) (Some yes)) Going self.new }
    {
        self.flight.poll(yes);
        self.steps += 1;
    }

    // Nothing goes on where the end comes next.
    fn stay(&self)
        requires going { self.now.flight.going ≡ true }
        requires first { ComesFirst self.now micro.End }
        ensures { (d : ℕ) (m : Micro) (a : Option Bool) → GoesAlong self.now d (Step m a) Going self.now }
    {}

    /// Makes the step that comes next of the change in flight, unless that is the end. A poll is answered
    /// so.
    pub(crate) fn step_on(&mut self, answer: Option<bool>)
        requires { self.old.flight.going ≡ true }
        ensures along { (d : ℕ) (m : Micro) → GoesAlong self.old d (Step m answer) Going self.new }
        ensures going { self.new.flight.going ≡ true }
        ensures same { KeepsShape self.old self.new }
    {
        match self.next_step() {
            Some(Micro::Poll(pll)) => {
                let yes = is_yes(answer);
                self.poll_as(pll, yes);
            }
            Some(Micro::End) | None => self.stay(),
            Some(step) => self.make(step),
        }
    }

    /// The change in flight ends, as its end does it if that comes next.
    pub(crate) fn step_out(&mut self)
        requires { self.old.flight.going ≡ true }
        ensures along { (d : ℕ) (m : Micro) (a : Option Bool) (r : Reply) → GoesAlong self.old d (Step m a) (Done r) self.new }
        ensures quiet { self.new.flight.going ≡ false }
        ensures same { KeepsShape self.old self.new }
    {
        match self.next_step() {
            Some(Micro::End) | None => {
                let _reply = self.end();
            }
            Some(_step) => self.halt(),
        }
    }

    // ---- calls that were answered by Ok at once

    // The row of a driver's own handle, if a credit is left.
    pub(super) fn own_paid(&self, driver: u32, handle: Handle) -> Option<HandleRow>
        ensures own { IfSome result (λ row. own_in self.now.table.handles driver handle.number ≡ Some row) }
        ensures live { IfSome result (λ row. handle_at self.now.table.handles handle.number ≡ Some row) }
        ensures credit { IfSome result (λ row. self.now.spent < self.now.credits) }
        ensures none { IfNone result ((own_in self.now.table.handles driver handle.number ≡ None) ⊎ (self.now.credits ≤ self.now.spent)) }
        ensures whole { IsWhole self.now }
    {
        if self.spent >= self.credits {
            return None;
        }
        self.own(driver, handle)
    }

    /// One prepare of a handle more.
    pub(crate) fn prepare_along(&mut self, driver: u32, handle: Handle)
        requires quiet { self.old.flight.going ≡ false }
        ensures along { GoesAlong self.old driver (Begin (call.Prepare handle)) (Done Fine) self.new }
        ensures same { KeepsShape self.old self.new }
        ensures quiet { self.new.flight.going ≡ false }
    {
        let Some(row) = self.own_paid(driver, handle) else {
            return;
        };
        self.add_prepare(handle, row);
    }

    /// One prepare of a handle less.
    pub(crate) fn unprepare_along(&mut self, driver: u32, handle: Handle)
        requires quiet { self.old.flight.going ≡ false }
        ensures along { GoesAlong self.old driver (Begin (call.Unprepare handle)) (Done Fine) self.new }
        ensures same { KeepsShape self.old self.new }
        ensures quiet { self.new.flight.going ≡ false }
    {
        let Some(row) = self.own_paid(driver, handle) else {
            return;
        };
        if keeps_prepare(row) {
            return;
        }
        self.drop_prepare(handle, row);
    }

    /// A handle is taken back.
    pub(crate) fn put_along(&mut self, driver: u32, handle: Handle)
        requires quiet { self.old.flight.going ≡ false }
        ensures along { GoesAlong self.old driver (Begin (call.Put handle)) (Done Fine) self.new }
        ensures same { KeepsShape self.old self.new }
        ensures quiet { self.new.flight.going ≡ false }
    {
        let Some(row) = self.own_paid(driver, handle) else {
            return;
        };
        if holds_something(row) {
            return;
        }
        self.remove_handle(handle, row);
    }

    /// One exclusive hold of a handle more.
    pub(crate) fn exclusive_get_along(&mut self, driver: u32, handle: Handle)
        requires quiet { self.old.flight.going ≡ false }
        ensures along { GoesAlong self.old driver (Begin (call.ExclusiveGet handle)) (Done Fine) self.new }
        ensures rate { (x : ℕ) → GoesAlong self.old driver (Begin (call.SetRateExclusive handle x)) (Done Fine) self.new }
        ensures same { KeepsShape self.old self.new }
        ensures quiet { self.new.flight.going ≡ false }
    {
        let Some(row) = self.own_paid(driver, handle) else {
            return;
        };
        self.add_exclusive(handle, row);
    }

    /// One exclusive hold of a handle less.
    pub(crate) fn exclusive_put_along(&mut self, driver: u32, handle: Handle)
        requires quiet { self.old.flight.going ≡ false }
        ensures along { GoesAlong self.old driver (Begin (call.ExclusivePut handle)) (Done Fine) self.new }
        ensures same { KeepsShape self.old self.new }
        ensures quiet { self.new.flight.going ≡ false }
    {
        let Some(row) = self.own_paid(driver, handle) else {
            return;
        };
        if row.exclusives == 0 {
            return;
        }
        self.drop_exclusive(handle, row);
    }

    /// A handle gets another range in Hz.
    pub(crate) fn range_along(&mut self, driver: u32, handle: Handle, least: u64, most: u64)
        requires quiet { self.old.flight.going ≡ false }
        ensures along { GoesAlong self.old driver (Begin (call.SetRange handle least most)) (Done Fine) self.new }
        ensures same { KeepsShape self.old self.new }
        ensures quiet { self.new.flight.going ≡ false }
    {
        let Some(row) = self.own_paid(driver, handle) else {
            return;
        };
        self.keep_range(handle, row, least, most);
    }

    /// A notifier of the clock of a handle less.
    pub(crate) fn notifier_remove_along(&mut self, driver: u32, handle: Handle, id: u32)
        requires quiet { self.old.flight.going ≡ false }
        ensures along { GoesAlong self.old driver (Begin (call.NotifierRemove handle id)) (Done Fine) self.new }
        ensures same { KeepsShape self.old self.new }
        ensures quiet { self.new.flight.going ≡ false }
    {
        let Some(row) = self.own_paid(driver, handle) else {
            return;
        };
        let _had = self.remove_notifier(row.clock, id);
    }

    /// A clock is registered.
    pub(crate) fn probe_along(&mut self, driver: u32, clock: ClockId)
        requires quiet { self.old.flight.going ≡ false }
        requires place { clock.0 < length self.old.desc.defs }
        ensures along { GoesAlong self.old driver (Begin (call.Probe clock)) (Done Fine) self.new }
        ensures same { KeepsShape self.old self.new }
        ensures quiet { self.new.flight.going ≡ false }
    {
        if self.is_registered(clock) {
            return;
        }
        if self.credits_left() == 0 {
            return;
        }
        if self.is_critical(clock) {
            self.register_critical(clock);
        } else {
            self.register(clock);
        }
    }
}
