//! How a machine goes along with a get: the handle lies in a place that was made before.

ghost use Rattle.std.specs.Prelude.{◌≡◌, ◌<◌, true, false, Some, length, OnErr, OnOk};
ghost use Rattle.clk_base.specs.declared.call.Sleeping.TheVariants as call;
ghost use Rattle.clk_base.specs.declared.event.Event.TheVariants.{Begin};
ghost use Rattle.clk_base.specs.declared.event.Reply.TheVariants as reply;
ghost use Rattle.clk_base.specs.declared.event.Turn.TheVariants.{Done};
ghost use Rattle.clk_base.specs.declared.handle.Handle.{Handle};
ghost use Rattle.clk_model.specs.State.{registered};
ghost use Rattle.clk_machine.specs.Along.{GoesAlong, KeepsShape};
ghost use Rattle.clk_machine.specs.Holding.{gives};
ghost use Rattle.clk_machine.specs.Places.{placed};
ghost use Rattle.clk_machine.specs.Stands.{nothing, Becomes};

use super::Machine;
use clk_base::ClockId;
use clk_io::NoMemory;
use reg_bank::Bank;

impl<B: Bank> Machine<B> {
    /// Makes a place for a handle of a clock more. The one refusal is want of memory.
    pub(crate) fn make_place(&mut self, clock: ClockId) -> Result<(), NoMemory>
        requires { clock.0 < length self.old.desc.defs }
        ensures ok { OnOk result (self.new ≡ placed self.old (Some clock.0)) }
        ensures err { OnErr result (self.new ≡ self.old) }
    {
        self.handles.make_place(clock)?;
        Ok(())
    }

    // A new handle of a registered clock, in the place that was made for it.
    fn add_placed(&mut self, driver: u32, clock: ClockId)
        requires credit { self.old.spent < self.old.credits }
        requires quiet { self.old.flight.going ≡ false }
        requires there { registered self.old.tree.clocks clock.0 ≡ true }
        requires made { self.old.table.place ≡ Some clock.0 }
        ensures { Becomes self.old nothing (gives driver clock.0) self.new }
    {
        let _handle = self.handles.add_placed(driver, clock);
        self.spent += 1;
    }

    /// A driver gets a handle of a clock, for which there is a place.
    pub(crate) fn get_along(&mut self, driver: u32, clock: ClockId)
        requires quiet { self.old.flight.going ≡ false }
        requires made { self.old.table.place ≡ Some clock.0 }
        ensures along { (h : Handle) → GoesAlong self.old driver (Begin (call.Get (Some clock))) (Done (reply.Handle h)) self.new }
        ensures same { KeepsShape self.old self.new }
        ensures quiet { self.new.flight.going ≡ false }
    {
        if self.credits_left() == 0 {
            return;
        }
        if !self.is_rooted(clock) {
            return;
        }
        self.add_placed(driver, clock);
    }
}
