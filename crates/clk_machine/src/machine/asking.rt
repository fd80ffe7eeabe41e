//! The calls that ask: for the rate of a handle's clock, its parent, or what a request for a rate would
//! give.

ghost use Rattle.std.specs.Prelude.{◌≡◌, ◌≢◌, ◌<◌, true, false};
ghost use Rattle.clk_base.specs.declared.call.Sleeping.TheVariants.{GetRate, GetParent, RoundRate};
ghost use Rattle.clk_base.specs.declared.event.Errno.TheVariants.{ENOSPC};
ghost use Rattle.clk_base.specs.declared.event.Event.TheVariants.{Begin};
ghost use Rattle.clk_base.specs.declared.event.Reply.TheVariants.{Refused};
ghost use Rattle.clk_base.specs.declared.event.Turn.TheVariants.{Done};
ghost use Rattle.clk_model.specs.Laws.PlansRead.{asks};
ghost use Rattle.clk_machine.specs.Asking.{IsToldSo};
ghost use Rattle.clk_machine.specs.Kinds.{is_reply_to};
ghost use Rattle.clk_machine.specs.Parts.{IsWhole};
ghost use Rattle.clk_machine.specs.Stands.{Enters};

use super::Machine;
use clk_base::{Errno, Handle, Reply, Sleeping};
use core_parts::{Seen, round_lifted};
use rate_planner::{NoRest, Rest};
use reg_bank::Bank;

impl<B: Bank> Machine<B> {
    // The rate of a handle's clock in Hz.
    fn rate_reply(&self, driver: u32, handle: Handle) -> Reply
        ensures told { IsToldSo self.now driver (GetRate handle) result }
        ensures kind { is_reply_to (GetRate handle) result ≡ true }
        ensures room { result ≢ Refused ENOSPC }
        ensures whole { IsWhole self.now }
    {
        match self.own(driver, handle) {
            Some(row) => Reply::Rate(self.rate_of(row.clock)),
            None => Reply::Refused(Errno::ENOENT),
        }
    }

    // The parent that a handle's clock is attached to.
    fn parent_reply(&self, driver: u32, handle: Handle) -> Reply
        ensures told { IsToldSo self.now driver (GetParent handle) result }
        ensures kind { is_reply_to (GetParent handle) result ≡ true }
        ensures room { result ≢ Refused ENOSPC }
        ensures whole { IsWhole self.now }
    {
        match self.own(driver, handle) {
            Some(row) => Reply::Clock(self.parent_of(row.clock)),
            None => Reply::Refused(Errno::ENOENT),
        }
    }

    // The rate in Hz that a handle's clock would get for a request. One exclusive of the handle doesn't
    // count.
    fn round_reply<W: Rest>(&self, rest: &W, driver: u32, handle: Handle, rate: u64) -> Reply
        ensures told { IsToldSo self.now driver (RoundRate handle rate) result }
        ensures kind { is_reply_to (RoundRate handle rate) result ≡ true }
        ensures room { result ≢ Refused ENOSPC }
        ensures whole { IsWhole self.now }
    {
        let Some(row) = self.own(driver, handle) else {
            return Reply::Refused(Errno::ENOENT);
        };
        let view = Seen {
            handles: &self.handles,
            ranged: None,
            counts: &self.counts,
        };
        let found = round_lifted(&self.window, &self.tree, &view, rest, row, rate);
        match found {
            Some(rate) => Reply::Rate(rate),
            None => Reply::Refused(Errno::EINVAL),
        }
    }

    /// What a call that asks is answered. Rests once a candidate of a rounding.
    pub(crate) fn asked_reply<W: Rest>(&self, rest: &W, driver: u32, what: Sleeping) -> Reply
        requires { asks what ≡ true }
        ensures told { IsToldSo self.now driver what result }
        ensures kind { is_reply_to what result ≡ true }
        ensures room { result ≢ Refused ENOSPC }
        ensures whole { IsWhole self.now }
    {
        match what {
            Sleeping::GetRate(handle) => self.rate_reply(driver, handle),
            Sleeping::GetParent(handle) => self.parent_reply(driver, handle),
            Sleeping::RoundRate(handle, rate) => self.round_reply(rest, driver, handle, rate),
            _ => unreachable!(),
        }
    }

    /// Answers a call that asks.
    pub(super) fn asked(&mut self, driver: u32, what: Sleeping) -> Reply
        requires credit { self.old.spent < self.old.credits }
        requires quiet { self.old.flight.going ≡ false }
        requires asks { asks what ≡ true }
        ensures enters { Enters self.old driver (Begin what) (Done result) self.new }
        ensures kind { is_reply_to what result ≡ true }
    {
        let reply = self.asked_reply(&NoRest, driver, what);
        self.spend();
        reply
    }
}
