//! Exclusive holds of a rate.

ghost use Rattle.std.specs.Prelude.{true, false, ◌≡◌, ◌<◌};
ghost use Rattle.clk_base.specs.declared.event.Event.TheVariants.{Begin};
ghost use Rattle.clk_base.specs.declared.event.Turn.TheVariants.{Done};
ghost use Rattle.clk_base.specs.declared.call.Sleeping.TheVariants.{ExclusiveGet, ExclusivePut};
ghost use Rattle.clk_machine.specs.Kinds.{is_reply_to};
ghost use Rattle.clk_machine.specs.Stands.{Enters};

use super::Machine;
use clk_base::{Errno, Handle, Reply};
use reg_bank::Bank;

impl<B: Bank> Machine<B> {
    /// Takes an exclusive hold of the rate of a handle's clock.
    pub(crate) fn exclusive_get(&mut self, driver: u32, handle: Handle) -> Reply
        requires credit { self.old.spent < self.old.credits }
        requires quiet { self.old.flight.going ≡ false }
        ensures enters { Enters self.old driver (Begin (ExclusiveGet handle)) (Done result) self.new }
        ensures kind { is_reply_to (ExclusiveGet handle) result ≡ true }
    {
        let Some(row) = self.own(driver, handle) else {
            self.spend();
            return Reply::Refused(Errno::ENOENT);
        };
        self.add_exclusive(handle, row);
        Reply::Fine
    }

    /// Gives up an exclusive hold of the rate of a handle's clock.
    pub(crate) fn exclusive_put(&mut self, driver: u32, handle: Handle) -> Reply
        requires credit { self.old.spent < self.old.credits }
        requires quiet { self.old.flight.going ≡ false }
        ensures enters { Enters self.old driver (Begin (ExclusivePut handle)) (Done result) self.new }
        ensures kind { is_reply_to (ExclusivePut handle) result ≡ true }
    {
        let Some(row) = self.own(driver, handle) else {
            self.spend();
            return Reply::Refused(Errno::ENOENT);
        };
        if row.exclusives == 0 {
            self.spend();
            return Reply::Warn;
        }
        self.drop_exclusive(handle, row);
        Reply::Fine
    }
}
