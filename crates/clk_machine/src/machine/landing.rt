//! The end of a call that went on.

ghost use Rattle.std.specs.Prelude.{◌≡◌, ◌||◌, true, false, Some, None, IfSome};
ghost use Rattle.clk_base.specs.declared.call.Micro.TheVariants.{End};
ghost use Rattle.clk_base.specs.declared.call.Sleeping.TheVariants.{Prepare, SetRateExclusive};
ghost use Rattle.clk_base.specs.declared.event.Event.TheVariants.{Step};
ghost use Rattle.clk_base.specs.declared.event.Turn.TheVariants.{Done};
ghost use Rattle.clk_base.specs.declared.handle.Handle.{Handle};
ghost use Rattle.clk_model.specs.State.{registered, handle_at};
ghost use Rattle.clk_model.specs.Begin.{request_between};
ghost use Rattle.core_parts.specs.InFlight.{ends_bare, is_called_off, handle_to_end};
ghost use Rattle.clk_machine.specs.Kinds.{is_done_or_refused};
ghost use Rattle.clk_machine.specs.Landing.{IsLanding, Lands, Requests, PutsBack, reply_of};
ghost use Rattle.clk_machine.specs.Making.{ComesFirst};
ghost use Rattle.clk_machine.specs.Parts.{own_in, IsWhole};
ghost use Rattle.clk_machine.specs.Stands.{Enters};

use super::Machine;
use clk_base::{ClockId, Errno, Handle, Reply, Sleeping};
use clk_model::HandleRow;
use reg_bank::Bank;
use std::cmp::{max, min};

// What the end of a call writes.
#[derive(Clone, Copy)]
pub(crate) enum Landing {
    Nothing,
    /// A handle is prepared once more.
    Prepares(Handle, HandleRow),
    /// A rate in Hz becomes the last request of a clock.
    Requests(ClockId, u64),
    /// A handle holds the rate of its clock once more, and that becomes the clock's last request.
    Holds(Handle, HandleRow, u64),
    /// A handle gets back the range in Hz that it had.
    PutsBack(Handle, HandleRow, u64, u64),
}

impl<B: Bank> Machine<B> {
    // The call ends, and nothing else changes.
    fn land(&mut self)
        requires going { self.old.flight.going ≡ true }
        requires first { ComesFirst self.old End }
        requires bare { ends_bare self.old.flight ≡ true }
        ensures { Lands self.old self.new }
    {
        self.flight.end();
        self.steps += 1;
    }

    // A prepare ends well: its handle has one more.
    fn land_prepared(&mut self, handle: Handle, row: HandleRow)
        requires going { self.old.flight.going ≡ true }
        requires first { ComesFirst self.old End }
        requires call { self.old.flight.call ≡ Prepare handle }
        requires timely { is_called_off self.old.flight ≡ false }
        requires live { handle_at self.old.table.handles handle.number ≡ Some row }
        ensures { Lands self.old self.new }
    {
        self.counts.hold(&self.tree, row.clock);
        self.handles
            .set_counts(handle, row.prepares + 1, row.enables, row.exclusives);
        self.flight.end();
        self.steps += 1;
    }

    // A change of rate ends well: this rate becomes the last request of its clock.
    fn land_requested(&mut self, clock: ClockId, rate: u64)
        requires going { self.old.flight.going ≡ true }
        requires first { ComesFirst self.old End }
        requires requests { Requests self.old clock rate }
        ensures { Lands self.old self.new }
    {
        self.tree.set_last_request(clock, rate);
        self.flight.end();
        self.steps += 1;
    }

    // An exclusive change of rate ends well: its handle holds the rate once more, which becomes the last
    // request of its clock.
    fn land_held(&mut self, handle: Handle, row: HandleRow, rate: u64)
        requires going { self.old.flight.going ≡ true }
        requires first { ComesFirst self.old End }
        requires call { self.old.flight.call ≡ SetRateExclusive handle rate }
        requires timely { is_called_off self.old.flight ≡ false }
        requires live { handle_at self.old.table.handles handle.number ≡ Some row }
        ensures { Lands self.old self.new }
    {
        self.counts.protect(&self.tree, row.clock);
        self.handles
            .set_counts(handle, row.prepares, row.enables, row.exclusives + 1);
        self.tree.set_last_request(row.clock, rate);
        self.flight.end();
        self.steps += 1;
    }

    // A change of a range is called off: the handle gets back the range that it had.
    fn land_back(&mut self, handle: Handle, row: HandleRow, least: u64, most: u64)
        requires going { self.old.flight.going ≡ true }
        requires first { ComesFirst self.old End }
        requires back { PutsBack self.old handle row least most }
        ensures { Lands self.old self.new }
    {
        self.handles.set_range(handle, least, most);
        self.flight.end();
        self.steps += 1;
    }

    // The row of a handle of the driver whose call ends.
    fn own_row(&self, handle: Handle) -> Option<HandleRow>
        ensures row { own_in self.now.table.handles self.now.flight.driver handle.number ≡ result }
        ensures live { IfSome result (λ row. handle_at self.now.table.handles handle.number ≡ Some row) }
        ensures there { IfSome result (λ row. registered self.now.tree.clocks row.clock.0 ≡ true) }
        ensures whole { IsWhole self.now }
    {
        let driver = self.flight.driver();
        self.own(driver, handle)
    }

    // The row of the handle that the end of the call may write, if there is one.
    fn row_to_end(&self) -> Option<HandleRow>
        requires { self.now.flight.going ≡ true }
        ensures some { IfSome result (λ row. (h : Handle) → handle_to_end self.now.flight.call ≡ Some h
            → handle_at self.now.table.handles h.number ≡ Some row) }
        ensures there { IfSome result (λ row. registered self.now.tree.clocks row.clock.0 ≡ true) }
        ensures none { result ≡ None → handle_to_end self.now.flight.call ≡ None }
        ensures whole { IsWhole self.now }
    {
        match self.flight.call() {
            Sleeping::Prepare(handle)
            | Sleeping::SetRate(handle, _)
            | Sleeping::SetRateExclusive(handle, _)
            | Sleeping::SetRange(handle, _, _) => self.own_row(handle),
            _ => None,
        }
    }

    // The last request of a clock between two rates in Hz.
    fn request_between(&self, clock: ClockId, least: u64, most: u64) -> u64
        requires { registered self.now.tree.clocks clock.0 ≡ true }
        ensures { result ≡ request_between self.now.tree.clocks clock.0 least most }
    {
        min(most, max(least, self.tree.last_request(clock)))
    }

    // What the end of a call writes that is called off.
    fn landing_back(&self, row: HandleRow) -> Landing
        requires going { self.now.flight.going ≡ true }
        requires off { is_called_off self.now.flight ≡ true }
        requires row { (h : Handle) → handle_to_end self.now.flight.call ≡ Some h → handle_at self.now.table.handles h.number ≡ Some row }
        ensures { IsLanding self.now result }
    {
        let Sleeping::SetRange(handle, _, _) = self.flight.call() else {
            return Landing::Nothing;
        };
        match self.flight.range() {
            Some(range) => Landing::PutsBack(handle, row, range.0, range.1),
            None => Landing::Nothing,
        }
    }

    // What the end of a call writes that went well.
    fn landing_well(&self, row: HandleRow) -> Landing
        requires going { self.now.flight.going ≡ true }
        requires off { is_called_off self.now.flight ≡ false }
        requires row { (h : Handle) → handle_to_end self.now.flight.call ≡ Some h → handle_at self.now.table.handles h.number ≡ Some row }
        requires there { registered self.now.tree.clocks row.clock.0 ≡ true }
        ensures { IsLanding self.now result }
    {
        match self.flight.call() {
            Sleeping::Prepare(handle) => Landing::Prepares(handle, row),
            Sleeping::SetRate(_, rate) => Landing::Requests(row.clock, rate),
            Sleeping::SetRateExclusive(handle, rate) => Landing::Holds(handle, row, rate),
            Sleeping::SetRange(_, least, most) => {
                let rate = self.request_between(row.clock, least, most);
                Landing::Requests(row.clock, rate)
            }
            _ => Landing::Nothing,
        }
    }

    // Whether the call that ends was vetoed or has timed out.
    fn is_called_off(&self) -> bool
        ensures off { result ≡ is_called_off self.now.flight }
        ensures whole { IsWhole self.now }
    {
        self.flight.vetoed() || self.flight.timed_out()
    }

    // What the end of the call writes.
    fn next_landing(&self) -> Landing
        requires { self.now.flight.going ≡ true }
        ensures { IsLanding self.now result }
    {
        let Some(row) = self.row_to_end() else {
            return Landing::Nothing;
        };
        if self.is_called_off() {
            return self.landing_back(row);
        }
        self.landing_well(row)
    }

    // The reply at the end.
    fn reply(&self) -> Reply
        ensures reply { result ≡ reply_of self.now.flight.vetoed self.now.flight.timed_out }
        ensures kind { is_done_or_refused result ≡ true }
    {
        if self.flight.vetoed() {
            Reply::Refused(Errno::EBUSY)
        } else if self.flight.timed_out() {
            Reply::Refused(Errno::ETIMEDOUT)
        } else {
            Reply::Fine
        }
    }

    /// The call ends.
    pub(super) fn end(&mut self) -> Reply
        requires going { self.old.flight.going ≡ true }
        requires first { ComesFirst self.old End }
        ensures enters { Enters self.old self.old.flight.driver (Step End None) (Done result) self.new }
        ensures kind { is_done_or_refused result ≡ true }
    {
        let reply = self.reply();
        match self.next_landing() {
            Landing::Nothing => self.land(),
            Landing::Prepares(handle, row) => self.land_prepared(handle, row),
            Landing::Requests(clock, rate) => self.land_requested(clock, rate),
            Landing::Holds(handle, row, rate) => self.land_held(handle, row, rate),
            Landing::PutsBack(handle, row, least, most) => {
                self.land_back(handle, row, least, most)
            }
        }
        reply
    }
}
