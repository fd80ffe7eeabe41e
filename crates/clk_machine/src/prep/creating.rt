//! How a copy is made of an opening.

ghost use Rattle.std.specs.Prelude.{◌≡◌, ◌≤◌, length, IfOk};
ghost use Rattle.clk_model.specs.Begin.{most_credits};
ghost use Rattle.clk_model.specs.Journal.{opening};
ghost use Rattle.clk_machine.specs.Copied.{IsCopyOf};
ghost use Rattle.clk_machine.specs.Tracing.{IsAtRest};

use super::Prep;
use super::ready::Ready;
use super::words::Words;
use crate::machine::Machine;
use clk_base::ValidDesc;
use clk_io::NoMemory;
use std::alloc::Global;

impl Prep {
    /// A copy of an opening. The one error is want of memory.
    pub(crate) fn create(
        alloc: Global,
        desc: ValidDesc,
        words: &[u32],
        ignore_unused: bool,
        credits: u32,
    ) -> Result<Prep, NoMemory>
        requires words { length words.now ≡ desc.words }
        requires credits { credits ≤ most_credits }
        ensures opens { IfOk result (λ copy. IsCopyOf copy (opening desc.defs words.now ignore_unused credits)) }
        ensures desc { IfOk result (λ copy. copy.parts.desc ≡ desc) }
        ensures size { IfOk result (λ copy. copy.parts.window.size ≡ length words.now) }
        ensures rest { IfOk result IsAtRest }
    {
        let bank = Words::create(alloc, words)?;
        let machine = Machine::create(alloc, desc, bank, words, ignore_unused, credits)?;
        Ok(Prep {
            machine,
            room: None,
            ready: Ready::none(alloc),
            spare: Ready::none(alloc),
        })
    }
}
