//! The range of a handle.

ghost use Rattle.std.specs.Prelude.{◌≡◌, ◌<◌, Some};
ghost use Rattle.clk_model.specs.State.{handle_at};
ghost use Rattle.clk_machine.specs.Holding.{puts, ranged};
ghost use Rattle.clk_machine.specs.Parts.{with_range};
ghost use Rattle.clk_machine.specs.Stands.{nothing, Becomes};

use super::Machine;
use clk_base::Handle;
use clk_model::HandleRow;
use reg_bank::Bank;

impl<B: Bank> Machine<B> {
    /// A live handle gets another range in Hz, and a credit is spent.
    pub(super) fn keep_range(&mut self, handle: Handle, row: HandleRow, least: u64, most: u64)
        requires credit { self.old.spent < self.old.credits }
        requires live { handle_at self.old.table.handles handle.number ≡ Some row }
        ensures { Becomes self.old nothing (puts handle.number (Some (ranged row least most))) self.new }
    {
        self.handles.set_range(handle, least, most);
        self.spent += 1;
    }

    /// A live handle gets another range in Hz, and nothing else changes.
    pub(crate) fn write_range(&mut self, handle: Handle, row: HandleRow, least: u64, most: u64)
        requires { handle_at self.old.table.handles handle.number ≡ Some row }
        ensures { self.new ≡ with_range self.old handle.number least most }
    {
        self.handles.set_range(handle, least, most);
    }
}
