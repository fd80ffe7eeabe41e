//! The rows of the table of clocks.

ghost use Rattle.std.specs.Prelude.{◌≡◌, ◌<◌, length, is_some};
ghost use Rattle.clk_base.specs.Description.{kind_of};
ghost use Rattle.clk_model.specs.State.{State, registered};
ghost use Rattle.clk_model.specs.Counts.{enable_count, prepare_count, protect_count};
ghost use Rattle.clk_model.specs.Summary.{is_on};
ghost use Rattle.clk_machine.specs.Row.{IsRowOf};
ghost use Rattle.clk_machine.specs.Stands.{Stands};

use super::Machine;
use crate::row::Row;
use clk_base::ClockId;
use core_parts::switch_state;
use reg_bank::Bank;

impl<B: Bank> Machine<B> {
    // How often a clock is enabled.
    fn enable_count(&self, clock: ClockId) -> u32
        requires { clock.0 < length self.now.desc.defs }
        ensures { (s : State) → Stands self.now s → result ≡ enable_count s clock.0 }
    {
        self.counts.enabled(clock)
    }

    // How often a clock is prepared.
    fn prepare_count(&self, clock: ClockId) -> u32
        requires { clock.0 < length self.now.desc.defs }
        ensures { (s : State) → Stands self.now s → result ≡ prepare_count s clock.0 }
    {
        self.counts.prepared(clock)
    }

    // How often a clock's rate is protected.
    fn protect_count(&self, clock: ClockId) -> u32
        requires { clock.0 < length self.now.desc.defs }
        ensures { (s : State) → Stands self.now s → result ≡ protect_count s clock.0 }
    {
        self.counts.protected(clock)
    }

    // Whether the gate of a clock is open or its PLL powered, if it has one.
    fn switch(&self, clock: ClockId) -> Option<bool>
        requires { clock.0 < length self.now.desc.defs }
        ensures { (s : State) → Stands self.now s → result ≡ is_on (kind_of s.defs clock.0) s.regs }
    {
        switch_state(self.tree.def(clock).kind, &self.window)
    }

    /// The row of a clock, if it is registered.
    pub(crate) fn row(&self, clock: ClockId) -> Option<Row>
        requires { clock.0 < length self.now.desc.defs }
        ensures found { is_some result ≡ registered self.now.tree.clocks clock.0 }
        ensures row { (s : State) → Stands self.now s → IsRowOf s clock.0 result }
    {
        if !self.is_registered(clock) {
            return None;
        }
        Some(Row {
            enable: self.enable_count(clock),
            prepare: self.prepare_count(clock),
            protect: self.protect_count(clock),
            rate: self.rate_of(clock),
            on: self.switch(clock),
        })
    }
}
