//! How a copy goes along with a journal.

ghost use Rattle.std.specs.Prelude.{◌≡◌, true, false, OnOk};
ghost use Rattle.clk_base.specs.declared.event.Event.TheVariants.{Begin};
ghost use Rattle.clk_model.specs.Journal.{is_going};
ghost use Rattle.clk_model.specs.Tier.{is_enable_tier};
ghost use Rattle.clk_machine.specs.Along.{KeepsShape};
ghost use Rattle.clk_machine.specs.Run.{ArePlaced, BeginsPlaced};
ghost use Rattle.clk_machine.specs.Sound.{IsPlaced};
ghost use Rattle.clk_machine.specs.Tracing.{FollowsOn, IsAtRest, Traces};

use super::Prep;
use clk_base::{Entry, Event, Sleeping};
use clk_io::NoMemory;

impl Prep {
    /// Goes along with a journal. The one error is want of memory.
    pub(crate) fn trace(&mut self, journal: &[Entry]) -> Result<(), NoMemory>
        requires rest { IsAtRest self.old }
        requires placed { ArePlaced self.old.parts.desc.defs journal.now }
        ensures { OnOk result (Traces self.old journal.now self.new) }
    {
        for entry in journal {
            self.trace_entry(entry)?;
        }
        Ok(())
    }

    // Goes along with an entry, for which it takes the memory.
    fn trace_entry(&mut self, entry: &Entry) -> Result<(), NoMemory>
        requires { BeginsPlaced self.old.parts.desc.defs entry.now.event }
        ensures follows { OnOk result (FollowsOn self.old entry.now self.new) }
        ensures beside { is_enable_tier entry.now.event ≡ true → OnOk result (self.new ≡ self.old) }
        ensures rest { is_enable_tier entry.now.event ≡ false → is_going entry.now.turn ≡ false → OnOk result (IsAtRest self.new) }
        ensures same { OnOk result (KeepsShape self.old.parts self.new.parts) }
    {
        match entry.event {
            Event::Begin(what) => self.trace_begin(entry, &what),
            Event::Step(_, _) => {
                self.follow(entry);
                Ok(())
            }
            _ => Ok(()),
        }
    }

    // Goes along with the beginning of a call, once there is room for it.
    fn trace_begin(&mut self, entry: &Entry, what: &Sleeping) -> Result<(), NoMemory>
        requires begins { entry.now.event ≡ Begin what.now }
        requires place { IsPlaced self.old.parts.desc.defs what.now }
        ensures follows { OnOk result (FollowsOn self.old entry.now self.new) }
        ensures rest { is_going entry.now.turn ≡ false → OnOk result (IsAtRest self.new) }
        ensures same { OnOk result (KeepsShape self.old.parts self.new.parts) }
    {
        if !self.machine.is_quiet() {
            self.follow(entry);
            return Ok(());
        }
        self.reserve_anew(entry.driver, what)?;
        self.follow(entry);
        Ok(())
    }
}
