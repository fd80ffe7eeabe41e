//! Getting a handle and putting it back, which are answered at once, and what is told of a clock.

ghost use Rattle.std.specs.Prelude.{◌≡◌, ◌<◌, true, false, length, IfOk, OnErr};
ghost use Rattle.std.specs.Option.{ForSome, option_map};
ghost use Rattle.clk_base.specs.declared.event.Event.TheVariants.{Begin};
ghost use Rattle.clk_base.specs.declared.event.Turn.TheVariants.{Done};
ghost use Rattle.clk_base.specs.declared.call.Sleeping.TheVariants.{Get, Put};
ghost use Rattle.clk_model.specs.State.{State, registered, link_in};
ghost use Rattle.clk_model.specs.Tree.{rooted};
ghost use Rattle.clk_model.specs.Rate.{rate};
ghost use Rattle.clk_model.specs.Chain.{clock_id};
ghost use Rattle.clk_machine.specs.Kinds.{is_reply_to};
ghost use Rattle.clk_machine.specs.Parts.{IsWhole};
ghost use Rattle.clk_machine.specs.Stands.{Stands, Enters};

use super::Machine;
use clk_base::{ClockId, Errno, Handle, Reply};
use clk_io::NoMemory;
use core_parts::holds_something;
use reg_bank::Bank;

impl<B: Bank> Machine<B> {
    // Whether a clock is registered and its path ends in a fixed-rate clock.
    pub(super) fn is_rooted(&self, clock: ClockId) -> bool
        ensures rooted { result ≡ rooted self.now.desc.defs self.now.tree.clocks clock.0 }
        ensures whole { IsWhole self.now }
    {
        self.tree.rooted(clock)
    }

    /// Gives a handle of a clock that was found, registered and rooted.
    pub(crate) fn get(&mut self, driver: u32, found: Option<ClockId>) -> Result<Reply, NoMemory>
        requires credit { self.old.spent < self.old.credits }
        requires quiet { self.old.flight.going ≡ false }
        requires place { ForSome found (λ c. c.0 < length self.old.desc.defs) }
        ensures ok { IfOk result (λ reply. Enters self.old driver (Begin (Get found)) (Done reply) self.new) }
        ensures kind { IfOk result (λ reply. is_reply_to (Get found) reply ≡ true) }
        ensures err { OnErr result (self.new ≡ self.old) }
    {
        let Some(clock) = found else {
            self.spend();
            return Ok(Reply::Refused(Errno::ENOENT));
        };
        if !self.is_rooted(clock) {
            self.spend();
            return Ok(Reply::Refused(Errno::EPROBE_DEFER));
        }
        let handle = self.add_handle(driver, clock)?;
        Ok(Reply::Handle(handle))
    }

    /// Takes a handle back that holds nothing.
    pub(crate) fn put(&mut self, driver: u32, handle: Handle) -> Reply
        requires credit { self.old.spent < self.old.credits }
        requires quiet { self.old.flight.going ≡ false }
        ensures enters { Enters self.old driver (Begin (Put handle)) (Done result) self.new }
        ensures kind { is_reply_to (Put handle) result ≡ true }
    {
        let Some(row) = self.own(driver, handle) else {
            self.spend();
            return Reply::Refused(Errno::ENOENT);
        };
        if holds_something(row) {
            self.spend();
            return Reply::Refused(Errno::EBUSY);
        }
        self.remove_handle(handle, row);
        Reply::Fine
    }

    /// The kept rate of a registered clock in Hz.
    pub(super) fn rate_of(&self, clock: ClockId) -> u64
        requires { registered self.now.tree.clocks clock.0 ≡ true }
        ensures { (s : State) → Stands self.now s → result ≡ rate s.defs s.regs s.clocks clock.0 }
    {
        self.tree.rate(clock)
    }

    /// The parent that a clock is attached to.
    pub(super) fn parent_of(&self, clock: ClockId) -> Option<ClockId>
        ensures { result ≡ option_map clock_id (link_in self.now.tree.clocks clock.0) }
    {
        self.tree.parent(clock)
    }
}
