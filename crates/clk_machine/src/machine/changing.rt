//! The beginning of a change of a rate or a parent that goes on.

ghost use Rattle.std.specs.Prelude.{◌≡◌, ◌+◌, ◌<◌, ◌≤◌, true, false, sum_by, OnOk, OnErr};
ghost use Rattle.std.specs.List.{list_all};
ghost use Rattle.clk_model.specs.Begin.{most_credits};
ghost use Rattle.clk_model.specs.Script.{plls};
ghost use Rattle.clk_model.specs.State.{registered};
ghost use Rattle.clk_model.specs.Step.{sets_parent};
ghost use Rattle.clk_flight.specs.LeftOver.{step_weight};
ghost use Rattle.clk_machine.specs.Changing.{StartsChange, course_of};
ghost use Rattle.core_parts.specs.Course.{notifiers_at, tells_all};
ghost use Rattle.core_parts.specs.InFlight.{can_link, changes_rate, is_script};
ghost use Rattle.core_parts.specs.Listed.{rows_from};
ghost use Rattle.clk_machine.specs.Parts.{IsOwnCall};

use super::Machine;
use clk_flight::Start;
use clk_io::NoMemory;
use core_parts::Draft;
use reg_bank::Bank;

impl<B: Bank> Machine<B> {
    /// A change of a rate or a parent goes on with a script, along the course that the draft has. All
    /// memory that it needs is taken. The draft keeps the lists of the change before.
    #[inline(always)]
    pub(super) fn start_change(&mut self, start: Start, draft: &mut Draft) -> Result<(), NoMemory>
        requires credit { self.old.spent < self.old.credits }
        requires quiet { self.old.flight.going ≡ false }
        requires changes { changes_rate start.call ≡ true }
        requires own { IsOwnCall self.old.table.handles start.driver start.call }
        requires script { is_script start.call (registered self.old.tree.clocks) start.script.items ≡ true }
        requires tells { tells_all (notifiers_at self.old.chains) start.script.items draft.old.told.items ≡ true }
        requires links { list_all (can_link self.old.desc.defs self.old.tree.clocks) start.script.items ≡ true }
        requires lone { sets_parent start.call ≡ false → start.extra ≡ 0 }
        requires room { self.old.credits + self.old.steps
            + sum_by (step_weight (rows_from 0 self.old.chains) (plls self.old.desc.defs)) start.script.items + start.extra ≤ most_credits }
        ensures ok { OnOk result (StartsChange self.old start (course_of draft.old) self.new) }
        ensures err { OnErr result (self.new ≡ self.old) }
    {
        let before = self.flight.begin(start, self.tree.plls())?;
        draft.script.keep_memory(before);
        self.course
            .begin(&mut draft.planning.plan.chain, &mut draft.told);
        self.spent += 1;
        Ok(())
    }
}
