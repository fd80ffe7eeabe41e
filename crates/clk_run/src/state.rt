//! Printing the state of a core: its summary and its registers.

ghost use Rattle.std.specs.Prelude.{◌≡◌, ◌≤◌, true, is_some, IfOk};
ghost use Rattle.clk_io.specs.Counts.{CountsPrintFault};
ghost use Rattle.clk_machine.specs.Run.{now_of};
ghost use Rattle.clk_run.specs.Cores.{GathersState};

use clk_io::{Gathered, NoMemory, PrintFault, Sink};
use clk_journal::print_registers;
use clk_machine::Core;
use clk_summary::print_summary;
use reg_bank::Bank;
use std::alloc::Global;

// The words of a core's registers, in their order.
fn registers_of<B: Bank>(alloc: Global, core: &Core<B>) -> Result<Vec<u32>, NoMemory>
    ensures { IfOk result (λ words. core.now.told ≡ true → words.items ≡ (now_of core.now).regs) }
{
    let mut words = Vec::new(alloc);
    for place in 0..core.word_count() {
        words.push(core.word(place))?;
    }
    Ok(words)
}

/// Prints the summary of a core, and then its registers.
pub(crate) fn print_state<K: Sink, B: Bank>(
    alloc: Global,
    core: &Core<B>,
    gathered: &mut Gathered,
    out: &mut K,
) -> Result<(), PrintFault>
    ensures gathers { GathersState core.now (K.written out.old) (K.written out.new) gathered.old gathered.new result }
    ensures tells { is_some (K.written out.new) ≡ is_some (K.written out.old) }
    ensures later { K.faults out.old ≤ K.faults out.new }
    ensures counts { CountsPrintFault (K.faults out.old) (K.faults out.new) result }
{
    let words = registers_of(alloc, core)?;
    print_summary(alloc, core, gathered, out)?;
    print_registers(alloc, words.as_slice(), gathered, out)
}
