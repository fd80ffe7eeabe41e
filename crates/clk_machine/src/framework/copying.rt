//! A copy of the prepare tier of a core.

ghost use Rattle.std.specs.Prelude.{◌≡◌, true, false, None, length, IfOk};
ghost use Rattle.clk_base.specs.Valid.{IsValid};
ghost use Rattle.clk_machine.specs.Copied.{IsCopyOf};
ghost use Rattle.clk_machine.specs.Run.{in_flight, now_of};

use super::Core;
use crate::prep::Prep;
use clk_io::NoMemory;
use reg_bank::Bank;

impl<B: Bank> Core<B> {
    /// A copy of the prepare tier of the core, over which calls are decided. The one error is want of
    /// memory.
    pub fn prep_copy(&self) -> Result<Prep, NoMemory>
        // No call is in flight.
        requires quiet { in_flight self.now.journal ≡ false }
        // Where the bank tells its words, it is a copy of the core's state.
        ensures copies { self.now.told ≡ true → IfOk result (λ copy. IsCopyOf copy (now_of self.now)) }
        // It is made for the description, which is valid for the core's words.
        ensures desc { IfOk result (λ copy. copy.parts.desc.defs ≡ self.now.start.defs) }
        ensures size { IfOk result (λ copy. copy.parts.window.size ≡ length self.now.start.regs) }
        ensures valid { IsValid (length self.now.start.regs) self.now.start.defs }
        // There is room for no call, and none is in flight in it.
        ensures room { IfOk result (λ copy. copy.room ≡ None) }
        ensures quiet { IfOk result (λ copy. copy.parts.flight.going ≡ false) }
    {
        let alloc = self.machine.alloc();
        let credits = self.machine.credits();
        let ignore_unused = self.machine.ignore_unused();
        let desc = self.machine.desc().copy(alloc)?;
        let mut copy = Prep::create(alloc, desc, self.words.as_slice(), ignore_unused, credits)?;
        copy.trace(self.log.as_slice())?;
        Ok(copy)
    }
}
