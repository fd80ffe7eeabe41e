//! The beginning of a prepare, which may go on.

ghost use Rattle.std.specs.Prelude.{◌≡◌, ◌+◌, ◌*◌, ◌^◌, ◌<◌, ◌≤◌, true, false, [], ◌∷◌, Some, nat_le, IfOk, OnOk, OnErr};
ghost use Rattle.std.specs.List.{list_any};
ghost use Rattle.clk_base.specs.declared.call.Micro.TheVariants.{Raise, End};
ghost use Rattle.clk_base.specs.declared.call.Sleeping.TheVariants.{Prepare};
ghost use Rattle.clk_base.specs.declared.event.Event.TheVariants.{Begin};
ghost use Rattle.clk_model.specs.State.{State, registered, handle_at};
ghost use Rattle.clk_model.specs.Tree.{path};
ghost use Rattle.clk_base.specs.declared.event.Turn.TheVariants.{Going};
ghost use Rattle.clk_model.specs.Begin.{begun, most_credits};
ghost use Rattle.clk_model.specs.Journal.{is_going};
ghost use Rattle.clk_model.specs.Script.{plls};
ghost use Rattle.clk_machine.specs.Holding.{stays};
ghost use Rattle.clk_machine.specs.Kinds.{is_answer_to};
ghost use Rattle.clk_machine.specs.Parts.{own_in, steps_left, IsWhole};
ghost use Rattle.core_parts.specs.Plls.{is_loose};
ghost use Rattle.clk_machine.specs.Starting.{StartsCall};
ghost use Rattle.clk_machine.specs.Stands.{Enters, Stands};

use super::Machine;
use crate::log::Log;
use clk_base::{ClockId, Errno, Handle, Micro, Reply, Sleeping, Turn};
use clk_flight::Start;
use clk_io::NoMemory;
use clk_model::HandleRow;
use core_parts::{ending, fits, is_unprepared, most_to_raise};
use reg_bank::Bank;

impl<B: Bank> Machine<B> {
    // Whether a PLL above a clock is kept powered by no prepare.
    pub(super) fn is_unprepared(&self, clock: ClockId) -> bool
        requires { registered self.now.tree.clocks clock.0 ≡ true }
        ensures unprepared { result ≡ list_any (is_loose self.now.desc.defs self.now.counts) (path self.now.tree.clocks clock.0) }
        ensures whole { IsWhole self.now }
    {
        is_unprepared(&self.tree, &self.counts, clock)
    }

    // Whether there is room for the entries of a raise and the end.
    pub(super) fn can_raise(&self) -> bool
        ensures { result ≡ nat_le (self.now.credits + self.now.steps + (34 * plls self.now.desc.defs + 2)) most_credits }
    {
        fits(self.used(), self.most_raises())
    }

    // How many entries a raise and the end may come to.
    fn most_raises(&self) -> u64
        ensures most { result ≡ 34 * plls self.now.desc.defs + 2 }
        ensures small { result < 2 ^ 63 }
    {
        most_to_raise(self.tree.plls())
    }

    // A prepare goes on, with a raise of its clock's PLLs. All memory that it needs is taken.
    fn start_prepare(&mut self, driver: u32, handle: Handle, row: HandleRow) -> Result<(), NoMemory>
        requires credit { self.old.spent < self.old.credits }
        requires quiet { self.old.flight.going ≡ false }
        requires own { own_in self.old.table.handles driver handle.number ≡ Some row }
        requires live { handle_at self.old.table.handles handle.number ≡ Some row }
        requires room { self.old.credits + self.old.steps + (34 * plls self.old.desc.defs + 2) ≤ most_credits }
        ensures ok { OnOk result (StartsCall self.old driver (Prepare handle) (Raise row.clock ∷ End ∷ []) stays self.new) }
        ensures err { OnErr result (self.new ≡ self.old) }
    {
        let script = ending(self.alloc, Micro::Raise(row.clock))?;
        let start = Start {
            driver,
            call: Sleeping::Prepare(handle),
            script,
            range: None,
            extra: 0,
            vetoed: false,
        };
        self.flight.begin(start, self.tree.plls())?;
        self.spent += 1;
        Ok(())
    }

    /// Begins a prepare: at once where no PLL above has to be raised, and else it goes on, unless there
    /// is no room for the entries of its steps.
    pub(crate) fn begin_prepare(
        &mut self,
        log: &mut Log,
        driver: u32,
        handle: Handle,
    ) -> Result<Turn, NoMemory>
        requires credit { self.old.spent < self.old.credits }
        requires quiet { self.old.flight.going ≡ false }
        requires paid { self.old.credits ≤ self.old.spent + log.old.room }
        ensures ok { IfOk result (λ turn. Enters self.old driver (Begin (Prepare handle)) turn self.new) }
        ensures kind { IfOk result (λ turn. is_answer_to (Begin (Prepare handle)) turn ≡ true) }
        ensures room { IfOk result (λ turn. is_going turn ≡ true → self.old.credits + steps_left self.new ≤ self.old.spent + log.new.room) }
        ensures entries { log.new.entries ≡ log.old.entries }
        ensures kept { log.old.room ≤ log.new.room }
        ensures err { OnErr result (self.new ≡ self.old) }
        ensures needs { OnErr result ((s : State) → Stands self.old s → (begun s driver (Prepare handle)).1 ≡ Going) }
    {
        let Some(row) = self.own(driver, handle) else {
            self.spend();
            return Ok(Turn::Done(Reply::Refused(Errno::ENOENT)));
        };
        if !self.is_unprepared(row.clock) {
            self.add_prepare(handle, row);
            return Ok(Turn::Done(Reply::Fine));
        }
        if !self.can_raise() {
            self.spend();
            return Ok(Turn::Done(Reply::Refused(Errno::ENOSPC)));
        }
        log.make_room(self.credits_left(), self.most_raises())?;
        self.start_prepare(driver, handle, row)?;
        Ok(Turn::Going)
    }
}
