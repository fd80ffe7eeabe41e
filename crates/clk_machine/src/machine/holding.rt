//! What handles hold: each call writes the handle, walks the counts and moves the gates that follow.

ghost use Rattle.std.specs.Prelude.{◌≡◌, ℕ, ◌<◌, true, false, length, IfOk, OnOk, OnErr, Some, None};
ghost use Rattle.clk_model.specs.State.{registered, handle_at};
ghost use Rattle.clk_model.specs.Begin.{holds_something};
ghost use Rattle.clk_machine.specs.Holding.{enabled_more, enabled_less, prepared_more, prepared_less};
ghost use Rattle.clk_machine.specs.Holding.{exclusive_more, exclusive_less, puts, gives};
ghost use Rattle.clk_machine.specs.Stands.{nothing, Becomes};

use super::Machine;
use clk_base::{ClockId, Handle};
use clk_io::NoMemory;
use clk_model::HandleRow;
use core_parts::{close_path, open_path};
use reg_bank::Bank;

impl<B: Bank> Machine<B> {
    /// One enable of a live handle more: the gates above its clock open that nothing kept open,
    /// parents first.
    pub(super) fn add_enable(&mut self, handle: Handle, row: HandleRow)
        requires credit { self.old.spent < self.old.credits }
        requires live { handle_at self.old.table.handles handle.number ≡ Some row }
        ensures { Becomes self.old nothing (puts handle.number (Some (enabled_more row))) self.new }
    {
        let begun = self.counts.enable_walk(&self.tree, row.clock);
        open_path(begun, &self.tree, &mut self.window, row.clock);
        self.handles
            .set_counts(handle, row.prepares, row.enables + 1, row.exclusives);
        self.spent += 1;
    }

    /// One enable of a live handle less: the gates above its clock close that nothing else keeps
    /// open, its own first.
    pub(super) fn drop_enable(&mut self, handle: Handle, row: HandleRow)
        requires credit { self.old.spent < self.old.credits }
        requires live { handle_at self.old.table.handles handle.number ≡ Some row }
        requires some { 0 < row.enables }
        ensures { Becomes self.old nothing (puts handle.number (Some (enabled_less row))) self.new }
    {
        let stopped = self.counts.disable_walk(&self.tree, row.clock);
        close_path(stopped, &self.tree, &mut self.window, row.clock);
        self.handles
            .set_counts(handle, row.prepares, row.enables - 1, row.exclusives);
        self.spent += 1;
    }

    /// One prepare of a live handle more.
    pub(super) fn add_prepare(&mut self, handle: Handle, row: HandleRow)
        requires credit { self.old.spent < self.old.credits }
        requires live { handle_at self.old.table.handles handle.number ≡ Some row }
        ensures { Becomes self.old nothing (puts handle.number (Some (prepared_more row))) self.new }
    {
        self.counts.hold(&self.tree, row.clock);
        self.handles
            .set_counts(handle, row.prepares + 1, row.enables, row.exclusives);
        self.spent += 1;
    }

    /// One prepare of a live handle less.
    pub(super) fn drop_prepare(&mut self, handle: Handle, row: HandleRow)
        requires credit { self.old.spent < self.old.credits }
        requires live { handle_at self.old.table.handles handle.number ≡ Some row }
        requires some { 0 < row.prepares }
        ensures { Becomes self.old nothing (puts handle.number (Some (prepared_less row))) self.new }
    {
        self.counts.release(&self.tree, row.clock);
        self.handles
            .set_counts(handle, row.prepares - 1, row.enables, row.exclusives);
        self.spent += 1;
    }

    /// One exclusive hold of a live handle more.
    pub(super) fn add_exclusive(&mut self, handle: Handle, row: HandleRow)
        requires credit { self.old.spent < self.old.credits }
        requires live { handle_at self.old.table.handles handle.number ≡ Some row }
        ensures { Becomes self.old nothing (puts handle.number (Some (exclusive_more row))) self.new }
    {
        self.counts.protect(&self.tree, row.clock);
        self.handles
            .set_counts(handle, row.prepares, row.enables, row.exclusives + 1);
        self.spent += 1;
    }

    /// One exclusive hold of a live handle less.
    pub(super) fn drop_exclusive(&mut self, handle: Handle, row: HandleRow)
        requires credit { self.old.spent < self.old.credits }
        requires live { handle_at self.old.table.handles handle.number ≡ Some row }
        requires some { 0 < row.exclusives }
        ensures { Becomes self.old nothing (puts handle.number (Some (exclusive_less row))) self.new }
    {
        self.counts.unprotect(&self.tree, row.clock);
        self.handles
            .set_counts(handle, row.prepares, row.enables, row.exclusives - 1);
        self.spent += 1;
    }

    /// A new handle of a registered clock, which allows every rate.
    pub(super) fn add_handle(&mut self, driver: u32, clock: ClockId) -> Result<Handle, NoMemory>
        requires credit { self.old.spent < self.old.credits }
        requires quiet { self.old.flight.going ≡ false }
        requires there { registered self.old.tree.clocks clock.0 ≡ true }
        ensures number { IfOk result (λ h. (h.number ≡ length self.old.table.handles) × (h.driver ≡ driver)) }
        ensures ok { OnOk result (Becomes self.old nothing (gives driver clock.0) self.new) }
        ensures err { OnErr result (self.new ≡ self.old) }
    {
        let handle = self.handles.add(driver, clock)?;
        self.spent += 1;
        Ok(handle)
    }

    /// Takes a handle away that holds nothing. Its number isn't used again.
    pub(super) fn remove_handle(&mut self, handle: Handle, row: HandleRow)
        requires credit { self.old.spent < self.old.credits }
        requires quiet { self.old.flight.going ≡ false }
        requires live { handle_at self.old.table.handles handle.number ≡ Some row }
        requires free { holds_something row ≡ false }
        ensures { Becomes self.old nothing (puts handle.number None) self.new }
    {
        self.handles.remove(handle);
        self.spent += 1;
    }
}
