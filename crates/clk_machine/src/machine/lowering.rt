//! The beginning of an unprepare, which may go on.

ghost use Rattle.std.specs.Prelude.{◌≡◌, ◌+◌, ◌^◌, ◌<◌, ◌≤◌, true, false, [], ◌∷◌};
ghost use Rattle.std.specs.Prelude.{Some, nat_le, is_some, slice_get, IfSome, IfOk, OnOk, OnErr};
ghost use Rattle.clk_base.specs.declared.call.Micro.TheVariants.{Lower, End};
ghost use Rattle.clk_base.specs.declared.call.Sleeping.TheVariants.{Unprepare};
ghost use Rattle.clk_base.specs.declared.event.Event.TheVariants.{Begin};
ghost use Rattle.clk_model.specs.State.{State, handle_at};
ghost use Rattle.clk_model.specs.Tree.{path};
ghost use Rattle.clk_base.specs.declared.event.Turn.TheVariants.{Going};
ghost use Rattle.clk_model.specs.Begin.{begun, most_credits};
ghost use Rattle.clk_model.specs.Journal.{is_going};
ghost use Rattle.clk_model.specs.Script.{plls};
ghost use Rattle.counts_core.specs.Counted.{AreCounts};
ghost use Rattle.clk_machine.specs.Holding.{prepared_less, puts};
ghost use Rattle.clk_machine.specs.Kinds.{is_answer_to};
ghost use Rattle.clk_machine.specs.Parts.{steps_left, IsWhole};
ghost use Rattle.core_parts.specs.Plls.{lowerable};
ghost use Rattle.clk_machine.specs.Starting.{StartsCall, released};
ghost use Rattle.clk_machine.specs.Stands.{Enters, Stands};

use super::Machine;
use crate::log::Log;
use clk_base::{Errno, Handle, Micro, Reply, Sleeping, Turn};
use clk_flight::Start;
use clk_io::NoMemory;
use clk_model::HandleRow;
use core_parts::{ending, fits, keeps_prepare, most_to_lower, next_to_lower};
use reg_bank::Bank;

impl<B: Bank> Machine<B> {
    // Whether a PLL above a handle's clock would be powered without a prepare, were a prepare of the
    // handle given up. The counts are as they were afterwards. Where no line of possible parents has a
    // PLL, there is none above, and no path is walked.
    pub(super) fn frees_pll(&mut self, handle: Handle, row: HandleRow) -> bool
        requires live { handle_at self.old.table.handles handle.number ≡ Some row }
        requires some { 0 < row.prepares }
        ensures found { IfSome self.old.window.words (λ regs. result ≡ is_some (slice_get
            (lowerable self.old.desc.defs (released self.old.counts row.clock.0) regs (path self.old.tree.clocks row.clock.0)) 0)) }
        ensures counts { AreCounts (released self.old.counts row.clock.0) }
        ensures same { self.new ≡ self.old }
        ensures whole { IsWhole self.old }
    {
        if self.tree.plls() == 0 {
            return false;
        }
        self.counts.release(&self.tree, row.clock);
        let found = next_to_lower(&self.tree, &self.counts, &self.window, row.clock);
        self.counts.hold(&self.tree, row.clock);
        found.pll.is_some()
    }

    // Whether there is room for the entries of a lower and the end.
    pub(super) fn can_lower(&self) -> bool
        ensures { result ≡ nat_le (self.now.credits + self.now.steps + (plls self.now.desc.defs + 2)) most_credits }
    {
        fits(self.used(), self.most_lowers())
    }

    // How many entries a lower and the end may come to.
    fn most_lowers(&self) -> u64
        ensures most { result ≡ plls self.now.desc.defs + 2 }
        ensures small { result < 2 ^ 63 }
    {
        most_to_lower(self.tree.plls())
    }

    // An unprepare goes on, with a lower of its clock's PLLs. All memory that it needs is taken.
    fn start_unprepare(
        &mut self,
        driver: u32,
        handle: Handle,
        row: HandleRow,
    ) -> Result<(), NoMemory>
        requires credit { self.old.spent < self.old.credits }
        requires quiet { self.old.flight.going ≡ false }
        requires live { handle_at self.old.table.handles handle.number ≡ Some row }
        requires some { 0 < row.prepares }
        requires room { self.old.credits + self.old.steps + (plls self.old.desc.defs + 2) ≤ most_credits }
        ensures ok { OnOk result (StartsCall self.old driver (Unprepare handle) (Lower row.clock ∷ End ∷ [])
            (puts handle.number (Some (prepared_less row))) self.new) }
        ensures err { OnErr result (self.new ≡ self.old) }
    {
        let script = ending(self.alloc, Micro::Lower(row.clock))?;
        let start = Start {
            driver,
            call: Sleeping::Unprepare(handle),
            script,
            range: None,
            extra: 0,
            vetoed: false,
        };
        self.flight.begin(start, self.tree.plls())?;
        self.counts.release(&self.tree, row.clock);
        self.handles
            .set_counts(handle, row.prepares - 1, row.enables, row.exclusives);
        self.spent += 1;
        Ok(())
    }

    /// Begins an unprepare: at once where then no PLL above is powered without a prepare, and else it
    /// goes on, unless there is no room for the entries of its steps.
    pub(crate) fn begin_unprepare(
        &mut self,
        log: &mut Log,
        driver: u32,
        handle: Handle,
    ) -> Result<Turn, NoMemory>
        requires credit { self.old.spent < self.old.credits }
        requires quiet { self.old.flight.going ≡ false }
        requires paid { self.old.credits ≤ self.old.spent + log.old.room }
        ensures ok { IfOk result (λ turn. Enters self.old driver (Begin (Unprepare handle)) turn self.new) }
        ensures kind { IfOk result (λ turn. is_answer_to (Begin (Unprepare handle)) turn ≡ true) }
        ensures room { IfOk result (λ turn. is_going turn ≡ true → self.old.credits + steps_left self.new ≤ self.old.spent + log.new.room) }
        ensures entries { log.new.entries ≡ log.old.entries }
        ensures kept { log.old.room ≤ log.new.room }
        ensures err { OnErr result (self.new ≡ self.old) }
        ensures needs { OnErr result ((s : State) → Stands self.old s → (begun s driver (Unprepare handle)).1 ≡ Going) }
    {
        let Some(row) = self.own(driver, handle) else {
            self.spend();
            return Ok(Turn::Done(Reply::Refused(Errno::ENOENT)));
        };
        if keeps_prepare(row) {
            self.spend();
            return Ok(Turn::Done(Reply::Warn));
        }
        if !self.frees_pll(handle, row) {
            self.drop_prepare(handle, row);
            return Ok(Turn::Done(Reply::Fine));
        }
        if !self.can_lower() {
            self.spend();
            return Ok(Turn::Done(Reply::Refused(Errno::ENOSPC)));
        }
        log.make_room(self.credits_left(), self.most_lowers())?;
        self.start_unprepare(driver, handle, row)?;
        Ok(Turn::Going)
    }
}
