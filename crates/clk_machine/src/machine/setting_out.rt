//! What a call goes on with, made before it begins: the flight of a prepare and of a registration, over the
//! machine as it is. Beginning with it takes no memory.

ghost use Rattle.std.specs.Prelude.{◌≡◌, ◌⊎◌, ◌+◌, ◌<◌, ◌≤◌, true, false, Some, length, OnOk, OnErr};
ghost use Rattle.clk_base.specs.declared.call.Sleeping.TheVariants as call;
ghost use Rattle.clk_machine.specs.Along.{KeepsShape};
ghost use Rattle.clk_model.specs.Begin.{most_credits};
ghost use Rattle.clk_model.specs.State.{handle_at};
ghost use Rattle.counts_core.specs.Counted.{AreCounts};
ghost use Rattle.clk_machine.specs.Parts.{IsWhole};
ghost use Rattle.clk_machine.specs.Starting.{released};
ghost use Rattle.clk_machine.specs.SettingOut.{CanLower, CanSetOut, CanSweep, NeverGoes, SetsOut, set_lower, set_out};

use super::Machine;
use clk_base::{ClockId, Handle, Micro, Sleeping};
use clk_flight::{Flight, Start};
use clk_io::NoMemory;
use clk_model::HandleRow;
use core_parts::{ending, fits, keeps_prepare};
use reg_bank::Bank;
use std::mem::swap;

impl<B: Bank> Machine<B> {
    // Has the flight of a call begin with a script.
    fn fly(
        &self,
        flight: &mut Flight,
        driver: u32,
        what: Sleeping,
        script: Vec<Micro>,
    ) -> Result<(), NoMemory>
        ensures ok { OnOk result (SetsOut self.now driver what script.items flight.new) }
        ensures err { OnErr result (flight.new ≡ flight.old) }
        ensures whole { IsWhole self.now }
    {
        let start = Start {
            driver,
            call: what,
            script,
            range: None,
            extra: 0,
            vetoed: false,
        };
        let _before = flight.begin(start, self.tree.plls())?;
        Ok(())
    }

    /// The flight that a prepare goes on with, if it does.
    pub(crate) fn ready_prepare(
        &self,
        flight: &mut Flight,
        driver: u32,
        handle: Handle,
    ) -> Result<(), NoMemory>
        requires machine { self.now.flight.going ≡ false }
        requires quiet { flight.old.going ≡ false }
        ensures ready { OnOk result (flight.new.going ≡ true → CanSetOut self.now driver (call.Prepare handle) flight.new) }
        ensures never { OnOk result (flight.new.going ≡ false → NeverGoes self.now driver (call.Prepare handle)) }
        ensures err { OnErr result (flight.new ≡ flight.old) }
    {
        let Some(row) = self.own(driver, handle) else {
            return Ok(());
        };
        if !self.is_unprepared(row.clock) {
            return Ok(());
        }
        if !self.can_raise() {
            return Ok(());
        }
        if self.credits_left() == 0 {
            return Ok(());
        }
        let script = ending(self.alloc, Micro::Raise(row.clock))?;
        self.fly(flight, driver, Sleeping::Prepare(handle), script)
    }

    /// The flight that a registration goes on with, if it does.
    pub(crate) fn ready_probe(
        &self,
        flight: &mut Flight,
        driver: u32,
        clock: ClockId,
    ) -> Result<(), NoMemory>
        requires machine { self.now.flight.going ≡ false }
        requires quiet { flight.old.going ≡ false }
        requires place { clock.0 < length self.now.desc.defs }
        ensures ready { OnOk result (flight.new.going ≡ true → CanSetOut self.now driver (call.Probe clock) flight.new) }
        ensures never { OnOk result (flight.new.going ≡ false → NeverGoes self.now driver (call.Probe clock)) }
        ensures err { OnErr result (flight.new ≡ flight.old) }
    {
        if self.is_registered(clock) {
            return Ok(());
        }
        if self.credits_left() == 0 {
            return Ok(());
        }
        let orphans = self.adopted(clock)?;
        if !self.goes_on(clock, orphans.as_slice()) {
            return Ok(());
        }
        let steps = self.probe_steps(clock, orphans.as_slice())?;
        let weight = self.weigh(steps.as_slice());
        if !fits(self.used(), weight) {
            return Ok(());
        }
        self.fly(flight, driver, Sleeping::Probe(clock), steps)
    }

    /// The flight that a sweep goes on with, if it can: with its end alone.
    pub(crate) fn ready_sweep(&self, flight: &mut Flight, driver: u32) -> Result<(), NoMemory>
        requires machine { self.now.flight.going ≡ false }
        requires quiet { flight.old.going ≡ false }
        ensures ready { OnOk result (flight.new.going ≡ true → CanSweep self.now driver flight.new) }
        ensures never { OnOk result (flight.new.going ≡ false → (self.now.credits ≤ self.now.spent)
            ⊎ (most_credits < self.now.credits + self.now.steps + 1)) }
        ensures err { OnErr result (flight.new ≡ flight.old) }
    {
        if self.credits_left() == 0 {
            return Ok(());
        }
        if !fits(self.used(), 1) {
            return Ok(());
        }
        let mut script = self.no_steps();
        script.push(Micro::End)?;
        self.fly(flight, driver, Sleeping::Sweep, script)
    }

    /// The flight that an unprepare goes on with, if it does. The machine stays as it is.
    pub(crate) fn ready_unprepare(
        &mut self,
        flight: &mut Flight,
        driver: u32,
        handle: Handle,
    ) -> Result<(), NoMemory>
        requires machine { self.old.flight.going ≡ false }
        requires quiet { flight.old.going ≡ false }
        ensures ready { OnOk result (flight.new.going ≡ true → CanLower self.old driver handle flight.new) }
        ensures never { OnOk result (flight.new.going ≡ false → NeverGoes self.old driver (call.Unprepare handle)) }
        ensures err { OnErr result (flight.new ≡ flight.old) }
        ensures same { self.new ≡ self.old }
    {
        let Some(row) = self.own(driver, handle) else {
            return Ok(());
        };
        if self.credits_left() == 0 {
            return Ok(());
        }
        if keeps_prepare(row) {
            return Ok(());
        }
        if !self.frees_pll(handle, row) {
            return Ok(());
        }
        if !self.can_lower() {
            return Ok(());
        }
        let script = ending(self.alloc, Micro::Lower(row.clock))?;
        self.fly(flight, driver, Sleeping::Unprepare(handle), script)
    }

    /// A call begins with the flight that was made for it.
    pub(crate) fn set_out(&mut self, flight: &mut Flight)
        requires { IsWhole (set_out self.old flight.old) }
        ensures parts { self.new ≡ set_out self.old flight.old }
        ensures before { flight.new ≡ self.old.flight }
    {
        swap(&mut self.flight, flight);
        self.spent += 1;
    }

    /// An unprepare begins with the flight that was made for it.
    pub(crate) fn set_lower(&mut self, flight: &mut Flight, handle: Handle, row: HandleRow)
        requires live { handle_at self.old.table.handles handle.number ≡ Some row }
        requires some { 0 < row.prepares }
        requires keeps { AreCounts (released self.old.counts row.clock.0) }
        requires whole { IsWhole (set_lower self.old handle.number row flight.old) }
        ensures parts { self.new ≡ set_lower self.old handle.number row flight.old }
        ensures before { flight.new ≡ self.old.flight }
    {
        swap(&mut self.flight, flight);
        self.counts.release(&self.tree, row.clock);
        self.handles
            .set_counts(handle, row.prepares - 1, row.enables, row.exclusives);
        self.spent += 1;
    }
}
