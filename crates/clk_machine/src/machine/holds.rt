//! The steps that hold clocks while a clock gets another parent, and let them go.

ghost use Rattle.std.specs.Prelude.{◌≡◌, ◌<◌, true, Some, None, slice_index};
ghost use Rattle.clk_base.specs.declared.call.Micro.TheVariants as micro;
ghost use Rattle.clk_base.specs.declared.event.Event.TheVariants.{Step};
ghost use Rattle.clk_base.specs.declared.event.Turn.TheVariants.{Going};
ghost use Rattle.clk_flight.specs.Flights.{own_step};
ghost use Rattle.clk_machine.specs.Making.{ComesFirst};
ghost use Rattle.clk_machine.specs.Parts.{IsWhole};
ghost use Rattle.clk_machine.specs.Stands.{Enters};

use super::Machine;
use clk_base::{ClockId, depth};
use core_parts::{close_path, let_go_path, open_path};
use reg_bank::Bank;

impl<B: Bank> Machine<B> {
    /// A clock is held prepared, and no PLL above it counts as raised any more.
    pub(super) fn hold_prepare(&mut self, clock: ClockId)
        requires going { self.old.flight.going ≡ true }
        requires next { own_step self.old.flight ≡ Some (micro.HoldPrepare clock) }
        requires first { ComesFirst self.old (micro.HoldPrepare clock) }
        ensures { Enters self.old self.old.flight.driver (Step (micro.HoldPrepare clock) None) Going self.new }
    {
        self.counts.hold(&self.tree, clock);
        self.prepare_holds.add(clock);
        self.flight.go_on();
        let_go_path(depth(), &self.tree, &mut self.flight, clock);
        self.steps += 1;
    }

    /// A clock is held enabled: the gates above it open that nothing kept open, parents first.
    pub(super) fn hold_enable(&mut self, clock: ClockId)
        requires going { self.old.flight.going ≡ true }
        requires next { own_step self.old.flight ≡ Some (micro.HoldEnable clock) }
        requires first { ComesFirst self.old (micro.HoldEnable clock) }
        ensures { Enters self.old self.old.flight.driver (Step (micro.HoldEnable clock) None) Going self.new }
    {
        let begun = self.counts.enable_walk(&self.tree, clock);
        open_path(begun, &self.tree, &mut self.window, clock);
        self.enable_holds.add(clock);
        self.flight.go_on();
        self.steps += 1;
    }

    // How often a clock is held enabled.
    fn held_enabled(&self, clock: ClockId) -> u32
        requires going { self.now.flight.going ≡ true }
        requires next { own_step self.now.flight ≡ Some (micro.DropEnable clock) }
        ensures times { result ≡ slice_index self.now.enable_holds clock.0 }
    {
        self.enable_holds.times(clock)
    }

    // How often a clock is held prepared.
    fn held_prepared(&self, clock: ClockId) -> u32
        requires going { self.now.flight.going ≡ true }
        requires next { own_step self.now.flight ≡ Some (micro.DropPrepare clock) }
        ensures times { result ≡ slice_index self.now.prepare_holds clock.0 }
    {
        self.prepare_holds.times(clock)
    }

    // A clock that isn't held enabled is so no more.
    fn pass_enable(&mut self, clock: ClockId)
        requires going { self.old.flight.going ≡ true }
        requires next { own_step self.old.flight ≡ Some (micro.DropEnable clock) }
        requires first { ComesFirst self.old (micro.DropEnable clock) }
        requires none { slice_index self.old.enable_holds clock.0 ≡ 0 }
        ensures { Enters self.old self.old.flight.driver (Step (micro.DropEnable clock) None) Going self.new }
    {
        self.flight.go_on();
        self.steps += 1;
    }

    // A clock is held enabled once less: the gates above it close that nothing else keeps open, its
    // own first.
    fn end_enable(&mut self, clock: ClockId)
        requires going { self.old.flight.going ≡ true }
        requires next { own_step self.old.flight ≡ Some (micro.DropEnable clock) }
        requires first { ComesFirst self.old (micro.DropEnable clock) }
        requires some { 0 < slice_index self.old.enable_holds clock.0 }
        ensures { Enters self.old self.old.flight.driver (Step (micro.DropEnable clock) None) Going self.new }
    {
        let stopped = self.counts.disable_walk(&self.tree, clock);
        close_path(stopped, &self.tree, &mut self.window, clock);
        self.enable_holds.drop_one(clock);
        self.flight.go_on();
        self.steps += 1;
    }

    /// A clock is held enabled no more, where it is.
    pub(super) fn let_enable_go(&mut self, clock: ClockId)
        requires going { self.old.flight.going ≡ true }
        requires next { own_step self.old.flight ≡ Some (micro.DropEnable clock) }
        requires first { ComesFirst self.old (micro.DropEnable clock) }
        ensures { Enters self.old self.old.flight.driver (Step (micro.DropEnable clock) None) Going self.new }
    {
        if self.held_enabled(clock) == 0 {
            self.pass_enable(clock);
        } else {
            self.end_enable(clock);
        }
    }

    // A clock that isn't held prepared is so no more.
    fn pass_prepare(&mut self, clock: ClockId)
        requires going { self.old.flight.going ≡ true }
        requires next { own_step self.old.flight ≡ Some (micro.DropPrepare clock) }
        requires first { ComesFirst self.old (micro.DropPrepare clock) }
        requires none { slice_index self.old.prepare_holds clock.0 ≡ 0 }
        ensures { Enters self.old self.old.flight.driver (Step (micro.DropPrepare clock) None) Going self.new }
    {
        self.flight.go_on();
        self.steps += 1;
    }

    // A clock is held prepared once less.
    fn end_prepare(&mut self, clock: ClockId)
        requires going { self.old.flight.going ≡ true }
        requires next { own_step self.old.flight ≡ Some (micro.DropPrepare clock) }
        requires first { ComesFirst self.old (micro.DropPrepare clock) }
        requires some { 0 < slice_index self.old.prepare_holds clock.0 }
        ensures { Enters self.old self.old.flight.driver (Step (micro.DropPrepare clock) None) Going self.new }
    {
        self.counts.release(&self.tree, clock);
        self.prepare_holds.drop_one(clock);
        self.flight.go_on();
        self.steps += 1;
    }

    /// A clock is held prepared no more, where it is.
    pub(super) fn let_prepare_go(&mut self, clock: ClockId)
        requires going { self.old.flight.going ≡ true }
        requires next { own_step self.old.flight ≡ Some (micro.DropPrepare clock) }
        requires first { ComesFirst self.old (micro.DropPrepare clock) }
        ensures { Enters self.old self.old.flight.driver (Step (micro.DropPrepare clock) None) Going self.new }
    {
        if self.held_prepared(clock) == 0 {
            self.pass_prepare(clock);
        } else {
            self.end_prepare(clock);
        }
    }
}
