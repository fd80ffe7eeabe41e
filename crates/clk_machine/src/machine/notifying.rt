//! Notifiers of a clock.

ghost use Rattle.std.specs.Prelude.{true, false, ◌≡◌, ◌<◌, length, IfOk, IfErr, OnOk, OnErr};
ghost use Rattle.clk_base.specs.declared.event.Event.TheVariants.{Begin};
ghost use Rattle.clk_base.specs.declared.event.Turn.TheVariants.{Done};
ghost use Rattle.clk_base.specs.declared.call.Sleeping.TheVariants.{NotifierAdd, NotifierRemove};
ghost use Rattle.notifiers.specs.Chains.{chain_of, has_id, CanAdd, WhyNot};
ghost use Rattle.clk_machine.specs.Kinds.{is_reply_to};
ghost use Rattle.clk_machine.specs.Holding.{notified, unnotified};
ghost use Rattle.clk_machine.specs.Stands.{nothing, Becomes, Enters};

use super::Machine;
use clk_base::{ClockId, Errno, Handle, Policy, Reply};
use clk_io::NoMemory;
use notifiers::ChainFault;
use reg_bank::Bank;

impl<B: Bank> Machine<B> {
    // One notifier of a clock more.
    fn add_notifier(
        &mut self,
        clock: ClockId,
        id: u32,
        priority: i32,
        policy: Policy,
    ) -> Result<(), ChainFault>
        requires credit { self.old.spent < self.old.credits }
        requires quiet { self.old.flight.going ≡ false }
        requires place { clock.0 < length self.old.desc.defs }
        ensures ok { OnOk result (Becomes self.old nothing (notified clock.0 id priority policy) self.new) }
        ensures can { OnOk result (CanAdd id (chain_of self.old.chains clock.0)) }
        ensures why { IfErr result (WhyNot id (chain_of self.old.chains clock.0)) }
        ensures err { OnErr result (self.new ≡ self.old) }
    {
        self.notifiers.add(clock, id, priority, policy)?;
        self.spent += 1;
        Ok(())
    }

    // The notifier of this id less, if the clock has one, and whether it had.
    pub(super) fn remove_notifier(&mut self, clock: ClockId, id: u32) -> bool
        requires credit { self.old.spent < self.old.credits }
        requires quiet { self.old.flight.going ≡ false }
        ensures had { result ≡ has_id id (chain_of self.old.chains clock.0) }
        ensures removed { Becomes self.old nothing (unnotified clock.0 id) self.new }
    {
        let had = self.notifiers.remove(clock, id);
        self.spent += 1;
        had
    }

    /// Adds a notifier to the clock of a handle.
    pub(crate) fn notifier_add(
        &mut self,
        driver: u32,
        handle: Handle,
        id: u32,
        priority: i32,
        policy: Policy,
    ) -> Result<Reply, NoMemory>
        requires credit { self.old.spent < self.old.credits }
        requires quiet { self.old.flight.going ≡ false }
        ensures ok { IfOk result (λ reply. Enters self.old driver (Begin (NotifierAdd handle id priority policy)) (Done reply) self.new) }
        ensures kind { IfOk result (λ reply. is_reply_to (NotifierAdd handle id priority policy) reply ≡ true) }
        ensures err { OnErr result (self.new ≡ self.old) }
    {
        let Some(row) = self.own(driver, handle) else {
            self.spend();
            return Ok(Reply::Refused(Errno::ENOENT));
        };
        match self.add_notifier(row.clock, id, priority, policy) {
            Ok(()) => Ok(Reply::Fine),
            Err(ChainFault::Exists) => {
                self.spend();
                Ok(Reply::Refused(Errno::EEXIST))
            }
            Err(ChainFault::Full) => {
                self.spend();
                Ok(Reply::Refused(Errno::ENOSPC))
            }
            Err(ChainFault::NoMemory) => Err(NoMemory),
        }
    }

    /// Takes the notifier of this id from the clock of a handle.
    pub(crate) fn notifier_remove(&mut self, driver: u32, handle: Handle, id: u32) -> Reply
        requires credit { self.old.spent < self.old.credits }
        requires quiet { self.old.flight.going ≡ false }
        ensures enters { Enters self.old driver (Begin (NotifierRemove handle id)) (Done result) self.new }
        ensures kind { is_reply_to (NotifierRemove handle id) result ≡ true }
    {
        let Some(row) = self.own(driver, handle) else {
            self.spend();
            return Reply::Refused(Errno::ENOENT);
        };
        let had = self.remove_notifier(row.clock, id);
        if had {
            Reply::Fine
        } else {
            Reply::Refused(Errno::ENOENT)
        }
    }
}
