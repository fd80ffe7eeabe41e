//! How a machine goes along with the sweep of another by the steps that it is told: what that closes and
//! holds it leaves as it is, and what comes next in the sweep it isn't told.

ghost use Rattle.std.specs.Prelude.{◌≡◌, ◌<◌, true, false, None, length, nat_lt};
ghost use Rattle.clk_base.specs.declared.call.Micro.TheVariants.{Lower};
ghost use Rattle.clk_model.specs.Prep.{is_sweep};
ghost use Rattle.clk_model.specs.State.{State, registered};
ghost use Rattle.clk_model.specs.Step.{powered};
ghost use Rattle.clk_machine.specs.Along.{KeepsShape, SweepsAlong};
ghost use Rattle.clk_machine.specs.Stands.{Stands};

use super::Machine;
use clk_base::{ClockId, Micro, Sleeping};
use core_parts::set_power;
use reg_bank::Bank;

impl<B: Bank> Machine<B> {
    /// Whether the call that is kept in flight, or was last, is the sweep.
    pub(crate) fn sweeps(&self) -> bool
        ensures { result ≡ is_sweep self.now.flight.call }
    {
        matches!(self.flight.call(), Sleeping::Sweep)
    }

    /// No change is in flight any more, and nothing else changes.
    pub(crate) fn halt(&mut self)
        ensures stands { (s : State) → Stands self.old s → Stands self.new (record s { change = None }) }
        ensures quiet { self.new.flight.going ≡ false }
        ensures same { KeepsShape self.old self.new }
    {
        self.flight.end();
    }

    // A PLL gets its power or loses it, and nothing else changes.
    fn power_along(&mut self, pll: ClockId, on: bool)
        requires { pll.0 < length self.old.desc.defs }
        ensures stands { (s : State) → Stands self.old s → Stands self.new (powered s pll.0 on) }
        ensures flight { self.new.flight ≡ self.old.flight }
        ensures same { KeepsShape self.old self.new }
    {
        set_power(self.tree.def(pll).kind, &mut self.window, on);
    }

    // Whether a clock is one of the description.
    fn has_clock(&self, clock: ClockId) -> bool
        ensures { result ≡ nat_lt clock.0 (length self.now.desc.defs) }
    {
        (clock.0 as usize) < self.tree.len()
    }

    // A PLL gets its power or loses it, unless it is no clock of the description.
    fn switch_along(&mut self, pll: ClockId, on: bool)
        ensures stands { (s : State) → Stands self.old s → Stands self.new (powered s pll.0 on) }
        ensures flight { self.new.flight ≡ self.old.flight }
        ensures same { KeepsShape self.old self.new }
    {
        if self.has_clock(pll) {
            self.power_along(pll, on);
        }
    }

    // The lowest PLL above a clock that is powered without a prepare loses its power, if there is one.
    fn lower_along(&mut self, clock: ClockId)
        requires { registered self.old.tree.clocks clock.0 ≡ true }
        ensures along { SweepsAlong self.old (Lower clock) self.new }
        ensures flight { self.new.flight ≡ self.old.flight }
        ensures same { KeepsShape self.old self.new }
    {
        let found = self.to_lower(clock);
        if let Some(pll) = found.pll {
            self.power_along(pll, false);
        }
    }

    // Goes along with a lower of a sweep, unless its clock isn't registered.
    fn lower_if_there(&mut self, clock: ClockId)
        ensures along { SweepsAlong self.old (Lower clock) self.new }
        ensures flight { self.new.flight ≡ self.old.flight }
        ensures same { KeepsShape self.old self.new }
    {
        if self.is_registered(clock) {
            self.lower_along(clock);
        }
    }

    /// Goes along with a step of a sweep. A PLL that a raise powers gets its power here when it is polled,
    /// since the step that raises doesn't name it; and what the sweep holds is let go before it matters.
    pub(crate) fn sweep_on(&mut self, step: Micro)
        ensures along { SweepsAlong self.old step self.new }
        ensures flight { self.new.flight ≡ self.old.flight }
        ensures same { KeepsShape self.old self.new }
    {
        match step {
            Micro::Poll(pll) => self.switch_along(pll, true),
            Micro::Fall(pll) => self.switch_along(pll, false),
            Micro::Lower(clock) => self.lower_if_there(clock),
            Micro::Unpower(clock) => self.switch_along(clock, false),
            _ => {}
        }
    }
}
