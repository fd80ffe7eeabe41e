//! The enable tier: enabling and disabling a handle, and whether its clock runs.

ghost use Rattle.std.specs.Prelude.{◌≡◌, ◌<◌, true, length};
ghost use Rattle.clk_base.specs.declared.event.Event.TheVariants.{Enable, Disable, Running};
ghost use Rattle.clk_base.specs.declared.event.Turn.TheVariants.{Done};
ghost use Rattle.clk_model.specs.State.{State};
ghost use Rattle.clk_model.specs.Holders.{active};
ghost use Rattle.clk_machine.specs.Kinds.{is_answer_to};
ghost use Rattle.clk_machine.specs.Stands.{Stands, Enters};

use super::Machine;
use clk_base::{ClockId, Errno, Handle, Reply};
use reg_bank::Bank;

impl<B: Bank> Machine<B> {
    /// Enables a handle: the gates above its clock open, parents first.
    pub(crate) fn enable(&mut self, driver: u32, handle: Handle) -> Reply
        requires { self.old.spent < self.old.credits }
        ensures enters { Enters self.old driver (Enable handle.number) (Done result) self.new }
        ensures kind { is_answer_to (Enable handle.number) (Done result) ≡ true }
    {
        let Some(row) = self.own(driver, handle) else {
            self.spend();
            return Reply::Refused(Errno::ENOENT);
        };
        if row.prepares == 0 {
            self.spend();
            return Reply::Refused(Errno::ESHUTDOWN);
        }
        self.add_enable(handle, row);
        Reply::Fine
    }

    /// Disables a handle: the gates close above its clock that nothing else keeps open, its own
    /// first.
    pub(crate) fn disable(&mut self, driver: u32, handle: Handle) -> Reply
        requires { self.old.spent < self.old.credits }
        ensures enters { Enters self.old driver (Disable handle.number) (Done result) self.new }
        ensures kind { is_answer_to (Disable handle.number) (Done result) ≡ true }
    {
        let Some(row) = self.own(driver, handle) else {
            self.spend();
            return Reply::Refused(Errno::ENOENT);
        };
        if row.enables == 0 {
            self.spend();
            return Reply::Warn;
        }
        self.drop_enable(handle, row);
        Reply::Fine
    }

    /// Whether a clock is active.
    pub(super) fn is_active(&self, clock: ClockId) -> bool
        requires { clock.0 < length self.now.desc.defs }
        ensures { (s : State) → Stands self.now s → result ≡ active s clock.0 }
    {
        self.counts.enabled(clock) > 0
    }

    /// Tells whether a handle's clock is active.
    pub(crate) fn running(&mut self, driver: u32, handle: Handle) -> Reply
        requires { self.old.spent < self.old.credits }
        ensures enters { Enters self.old driver (Running handle.number) (Done result) self.new }
        ensures kind { is_answer_to (Running handle.number) (Done result) ≡ true }
    {
        let Some(row) = self.own(driver, handle) else {
            self.spend();
            return Reply::Refused(Errno::ENOENT);
        };
        let runs = self.is_active(row.clock);
        self.spend();
        if runs { Reply::Yes } else { Reply::No }
    }
}
