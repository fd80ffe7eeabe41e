//! Running a bundle over a core, and printing what the run was.

ghost use Rattle.std.specs.Prelude.{◌≡◌, ◌≤◌, [], is_some, IfOk, IfErr};
ghost use Rattle.clk_io.specs.Counts.{CountsPrintFault};
ghost use Rattle.clk_model.specs.Begin.{most_credits};
ghost use Rattle.drv_scripts.specs.Placed.{IsSound};
ghost use Rattle.clk_run.specs.Cores.{HasCalls, PrintsRun, HasPrinted};
ghost use Rattle.clk_run.specs.Runs.{drivers_in, credits_of, opening_of, told_by, LeftByFault};

use crate::printing::print_calls;
use crate::state::print_state;
use clk_base::Answer;
use clk_cli::{Cli, Mode};
use clk_io::{Gathered, PrintFault, Sink};
use clk_journal::entries_are_sized;
use clk_machine::Core;
use driver_runs::run_scripts;
use drv_scripts::{Bundle, Listed, Script};
use reg_bank::Bank;
use std::alloc::Global;

// The drivers that run: under `check` none does.
fn drivers_in(mode: Mode, bundle: &Bundle) -> &[Script]
    ensures { result.now ≡ drivers_in mode bundle.now }
{
    match mode {
        Mode::Check => &[],
        Mode::Sim | Mode::Run | Mode::Bench(_) => bundle.drivers.as_slice(),
    }
}

/// Prints the run that a core has gone through: the journal where it is asked for, the answers or how
/// many they are, the summary and the registers.
pub(crate) fn print_core<K: Sink, B: Bank>(
    alloc: Global,
    bundle: &Bundle,
    cli: &Cli,
    core: &Core<B>,
    answers: &[Listed<Answer>],
    out: &mut K,
) -> Result<(), PrintFault>
    requires sound { IsSound bundle.now }
    requires calls { HasCalls bundle.now cli.now answers.now core.now }
    requires few { credits_of bundle.now ≤ most_credits }
    ensures prints { PrintsRun bundle.now cli.now core.now (K.written out.old) (K.written out.new) result }
    ensures tells { is_some (K.written out.new) ≡ is_some (K.written out.old) }
    ensures later { K.faults out.old ≤ K.faults out.new }
    ensures counts { CountsPrintFault (K.faults out.old) (K.faults out.new) result }
{
    let journal = core.journal();
    // What the types say of the journal's numbers: by them its text gives it back.
    entries_are_sized(journal);
    // What the core tells of the end of its run: no change is in flight.
    let _ = core.quiet();
    let drivers = drivers_in(cli.mode, bundle);
    let mut gathered = Gathered::new(alloc);
    print_calls(
        alloc,
        &bundle.desc,
        cli,
        drivers,
        journal,
        answers,
        &mut gathered,
        out,
    )?;
    print_state(alloc, core, &mut gathered, out)?;
    gathered.finish(out)?;
    Ok(())
}

/// Runs a bundle over a core at the bundle's opening, and prints the run.
pub(crate) fn run_core<K: Sink, B: Bank>(
    alloc: Global,
    bundle: &Bundle,
    cli: &Cli,
    core: &mut Core<B>,
    out: &mut K,
) -> Result<(), PrintFault>
    requires sound { IsSound bundle.now }
    requires start { core.old.start ≡ opening_of bundle.now cli.now.ignore_unused }
    requires begins { core.old.journal ≡ [] }
    ensures done { IfOk result (λ _. HasPrinted bundle.now cli.now core.old core.new (K.written out.old) (K.written out.new)) }
    ensures fault { IfErr result (LeftByFault bundle.now cli.now (told_by core.old) (K.written out.old) (K.written out.new)) }
    ensures tells { is_some (K.written out.new) ≡ is_some (K.written out.old) }
    ensures later { K.faults out.old ≤ K.faults out.new }
    ensures counts { CountsPrintFault (K.faults out.old) (K.faults out.new) result }
{
    let drivers = drivers_in(cli.mode, bundle);
    let boot = bundle.boot.as_slice();
    let order = bundle.order.as_slice();
    let answers = run_scripts(alloc, core, boot, drivers, order)?;
    print_core(alloc, bundle, cli, core, answers.as_slice(), out)
}
