//! The enable tier: one turn of the lock for each call, without the prepare lock.

ghost use Rattle.std.specs.Prelude.{◌<◌};
ghost use Rattle.clk_base.specs.declared.event.Event.TheVariants.{Enable, Disable, Running};
ghost use Rattle.clk_base.specs.declared.event.Turn.TheVariants.{Done};
ghost use Rattle.clk_framework.specs.Calls.{IsReady, Answers};

use crate::framework::{Driver, Framework};
use clk_base::{Handle, Reply};
use reg_bank::Bank;
use std::sync::Wait;
use tier_lock::Named;

impl<B: Bank, N: Named> Framework<B, N> {
    /// Enables a handle, in one turn of the enable lock. Takes no memory, and not the prepare lock.
    pub fn enable<R: Wait>(&self, rt: &R, driver: &mut Driver<B>, handle: Handle) -> Reply
        // It is a driver of this framework, between two calls.
        requires ready { IsReady N.table driver.old }
        // It has a credit.
        requires credit { 0 < driver.old.room }
        // The event is entered and answered so, in a legal run.
        ensures { Answers driver.old (Enable handle.number) (Done result) driver.new }
    {
        let number = driver.number();
        let mut guard = self.lock.take(rt, driver);
        let reply = guard.value.enable(number, handle);
        self.lock.give_entry(driver, guard);
        reply
    }

    /// Disables a handle, in one turn of the enable lock. Takes no memory, and not the prepare lock.
    pub fn disable<R: Wait>(&self, rt: &R, driver: &mut Driver<B>, handle: Handle) -> Reply
        // It is a driver of this framework, between two calls.
        requires ready { IsReady N.table driver.old }
        // It has a credit.
        requires credit { 0 < driver.old.room }
        // The event is entered and answered so, in a legal run.
        ensures { Answers driver.old (Disable handle.number) (Done result) driver.new }
    {
        let number = driver.number();
        let mut guard = self.lock.take(rt, driver);
        let reply = guard.value.disable(number, handle);
        self.lock.give_entry(driver, guard);
        reply
    }

    /// Tells whether a handle's clock is active, in one turn of the enable lock. Takes no memory, and not
    /// the prepare lock.
    pub fn running<R: Wait>(&self, rt: &R, driver: &mut Driver<B>, handle: Handle) -> Reply
        // It is a driver of this framework, between two calls.
        requires ready { IsReady N.table driver.old }
        // It has a credit.
        requires credit { 0 < driver.old.room }
        // The event is entered and answered so, in a legal run.
        ensures { Answers driver.old (Running handle.number) (Done result) driver.new }
    {
        let number = driver.number();
        let mut guard = self.lock.take(rt, driver);
        let reply = guard.value.running(number, handle);
        self.lock.give_entry(driver, guard);
        reply
    }
}
