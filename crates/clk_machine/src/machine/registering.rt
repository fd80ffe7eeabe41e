//! Registering clocks.

ghost use Rattle.std.specs.Prelude.{◌≡◌, ◌<◌, ◌==◌, true, false, length};
ghost use Rattle.clk_base.specs.Flags.{is_critical};
ghost use Rattle.clk_base.specs.declared.event.Event.TheVariants.{Begin};
ghost use Rattle.clk_base.specs.declared.event.Reply.TheVariants.{Fine};
ghost use Rattle.clk_base.specs.declared.event.Turn.TheVariants.{Done};
ghost use Rattle.clk_base.specs.declared.call.Sleeping.TheVariants.{Probe};
ghost use Rattle.clk_model.specs.State.{State, registered};
ghost use Rattle.clk_model.specs.Begin.{register};
ghost use Rattle.clk_machine.specs.Parts.{IsWhole};
ghost use Rattle.clk_machine.specs.Probing.{goes_on};
ghost use Rattle.clk_machine.specs.Sound.{IsSound};
ghost use Rattle.clk_machine.specs.Stands.{Stands, Becomes, Enters};

use super::Machine;
use clk_base::ClockId;
use core_parts::{is_critical, open_path, register_clock};
use reg_bank::Bank;

impl<B: Bank> Machine<B> {
    /// Whether a clock is registered.
    pub(crate) fn is_registered(&self, clock: ClockId) -> bool
        ensures { result ≡ registered self.now.tree.clocks clock.0 }
    {
        self.tree.registered(clock)
    }

    // Registers a clock that isn't critical, and spends a credit.
    pub(super) fn register(&mut self, clock: ClockId)
        requires credit { self.old.spent < self.old.credits }
        requires quiet { self.old.flight.going ≡ false }
        requires place { clock.0 < length self.old.desc.defs }
        requires free { registered self.old.tree.clocks clock.0 ≡ false }
        requires plain { is_critical self.old.desc.defs clock.0 ≡ false }
        ensures { Becomes self.old (λ k. clock.0 == k) (λ s. register s clock.0) self.new }
    {
        register_clock(&self.window, &mut self.tree, clock);
        self.counts.moved(&self.tree, clock, None);
        self.spent += 1;
    }

    // The same of a critical clock: it is prepared and enabled from now on.
    pub(super) fn register_critical(&mut self, clock: ClockId)
        requires credit { self.old.spent < self.old.credits }
        requires quiet { self.old.flight.going ≡ false }
        requires place { clock.0 < length self.old.desc.defs }
        requires free { registered self.old.tree.clocks clock.0 ≡ false }
        requires critical { is_critical self.old.desc.defs clock.0 ≡ true }
        ensures { Becomes self.old (λ k. clock.0 == k) (λ s. register s clock.0) self.new }
    {
        register_clock(&self.window, &mut self.tree, clock);
        self.counts.moved(&self.tree, clock, None);
        self.counts.hold(&self.tree, clock);
        let begun = self.counts.enable_walk(&self.tree, clock);
        open_path(begun, &self.tree, &mut self.window, clock);
        self.spent += 1;
    }

    /// Whether a clock is critical.
    pub(super) fn is_critical(&self, clock: ClockId) -> bool
        requires { clock.0 < length self.now.desc.defs }
        ensures critical { result ≡ is_critical self.now.desc.defs clock.0 }
        ensures whole { IsWhole self.now }
    {
        is_critical(&self.tree, clock)
    }

    /// Registers a clock at once, where no orphan is adopted behind it and no PLL has to be raised for it.
    pub(super) fn probe_at_once(&mut self, driver: u32, clock: ClockId)
        requires credit { self.old.spent < self.old.credits }
        requires quiet { self.old.flight.going ≡ false }
        requires place { clock.0 < length self.old.desc.defs }
        requires free { registered self.old.tree.clocks clock.0 ≡ false }
        requires calm { (s : State) → Stands self.old s → IsSound self.old.window.size s → goes_on s clock.0 ≡ false }
        ensures { Enters self.old driver (Begin (Probe clock)) (Done Fine) self.new }
    {
        if self.is_critical(clock) {
            self.register_critical(clock);
        } else {
            self.register(clock);
        }
    }
}
