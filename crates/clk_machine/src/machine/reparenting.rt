//! How a change of parent begins, if there is room for what it goes on with. Nothing is changed by the
//! decision.

ghost use Rattle.std.specs.Prelude.{◌≡◌, false, IfOk};
ghost use Rattle.clk_base.specs.declared.call.Sleeping.TheVariants.{SetParent};
ghost use Rattle.core_parts.specs.Decisions.{decision_of};
ghost use Rattle.clk_machine.specs.Deciding.{ArePlannedOver, Decided, IsOwned};

use super::Machine;
use clk_base::{ClockId, Errno, Handle};
use clk_io::NoMemory;
use core_parts::{Draft, Seen, Verdict, is_linked, plan_move, refusal, write_script};
use reg_bank::Bank;

impl<B: Bank> Machine<B> {
    /// Decides how a change of parent begins. One exclusive of the handle itself doesn't count.
    pub(super) fn decide_parent(
        &self,
        draft: &mut Draft,
        driver: u32,
        handle: Handle,
        parent: ClockId,
    ) -> Result<Verdict, NoMemory>
        requires quiet { self.now.flight.going ≡ false }
        ensures decides { IfOk result (λ verdict. Decided self.now driver (SetParent handle parent) (decision_of draft.new verdict)) }
        ensures there { IfOk result (λ verdict. ArePlannedOver self.now (SetParent handle parent) (decision_of draft.new verdict)) }
        ensures own { IfOk result (λ verdict. IsOwned self.now.table.handles driver (SetParent handle parent)
            (decision_of draft.new verdict)) }
    {
        let Some(row) = self.own(driver, handle) else {
            return Ok(Verdict::Refused(Errno::ENOENT));
        };
        if is_linked(&self.tree, row.clock, parent) {
            return Ok(Verdict::AtOnce);
        }
        if let Some(errno) = refusal(&self.tree, &self.counts, row, parent) {
            return Ok(Verdict::Refused(errno));
        }
        plan_move(draft, &self.window, &self.tree, row.clock, parent)?;
        let view = Seen {
            handles: &self.handles,
            ranged: None,
            counts: &self.counts,
        };
        write_script(draft, &self.tree, &view, &self.notifiers)?;
        Ok(Verdict::Change)
    }
}
