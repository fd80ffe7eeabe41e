//! Running a bundle over a bank, and printing what it answered.

ghost use Rattle.std.specs.Prelude.{◌≡◌, ◌≤◌, [], length, drop, is_some, IfOk, IfErr};
ghost use Rattle.std.specs.Option.{option_map};
ghost use Rattle.clk_io.specs.Counts.{CountsPrintFault};
ghost use Rattle.clk_model.specs.Begin.{most_credits};
ghost use Rattle.core_parts.specs.Window.{behind_of, delays_in, locks_of};
ghost use Rattle.drv_scripts.specs.Placed.{IsSound};
ghost use Rattle.clk_run.specs.Runs.{armed_telling, credits_of, opening_of, telling, Printed, LeftByFault};

use crate::arming::arm_locks;
use crate::counting::command_count;
use crate::run_core::run_core;
use clk_cli::Cli;
use clk_io::{NoMemory, PrintFault, Sink};
use clk_machine::Core;
use drv_scripts::Bundle;
use reg_bank::Bank;
use std::alloc::Global;

/// One credit for each command.
pub(crate) fn credits_of(bundle: &Bundle) -> u32
    requires { credits_of bundle.now ≤ most_credits }
    ensures { result ≡ credits_of bundle.now }
{
    let credits = bundle.boot.as_slice().len() + command_count(bundle.drivers.as_slice());
    credits as u32
}

// A core over a bank, in which the clocks of a bundle wait to be registered.
fn open_core<B: Bank>(
    alloc: Global,
    bundle: &Bundle,
    ignore_unused: bool,
    bank: B,
) -> Result<Core<B>, NoMemory>
    requires sound { IsSound bundle.now }
    requires room { 65536 ≤ B.size bank }
    ensures start { IfOk result (λ core. core.start ≡ opening_of bundle.now ignore_unused) }
    ensures journal { IfOk result (λ core. core.journal ≡ []) }
    ensures told { IfOk result (λ core. core.told ≡ is_some (B.contents bank)) }
    ensures behind { IfOk result (λ core. core.behind ≡ behind_of (length bundle.now.words) (B.contents bank) (B.lock bank)) }
{
    let desc = bundle.desc.copy(alloc)?;
    let words = bundle.words.as_slice();
    let credits = credits_of(bundle);
    Core::create(alloc, desc, bank, words, ignore_unused, credits)
}

// Runs a bundle over a bank and prints the run. The bank comes back.
fn run_armed<K: Sink, B: Bank>(
    alloc: Global,
    bundle: &Bundle,
    cli: &Cli,
    out: &mut K,
    bank: B,
) -> Result<B, PrintFault>
    requires sound { IsSound bundle.now }
    requires room { 65536 ≤ B.size bank }
    ensures done { IfOk result (λ left. Printed bundle.now cli.now (telling (B.contents bank) (B.lock bank)) (B.contents bank) (K.written out.old) (K.written out.new) (B.contents left)) }
    ensures told { IfOk result (λ left. is_some (B.contents left) ≡ is_some (B.contents bank)) }
    ensures delays { IfOk result (λ left. delays_in (locks_of (B.lock left)) ≡ (telling (B.contents bank) (B.lock bank)).delays) }
    ensures fault { IfErr result (LeftByFault bundle.now cli.now (telling (B.contents bank) (B.lock bank)) (K.written out.old) (K.written out.new)) }
    ensures tells { is_some (K.written out.new) ≡ is_some (K.written out.old) }
    ensures later { K.faults out.old ≤ K.faults out.new }
    ensures counts { CountsPrintFault (K.faults out.old) (K.faults out.new) result }
{
    let mut core = open_core(alloc, bundle, cli.ignore_unused, bank)?;
    run_core(alloc, bundle, cli, &mut core, out)?;
    Ok(core.into_bank())
}

/// Arms the locks of a bank, runs a bundle over it and prints the run. The bank comes back.
pub(crate) fn run_bundle<K: Sink, B: Bank>(
    alloc: Global,
    bundle: &Bundle,
    cli: &Cli,
    out: &mut K,
    bank: B,
) -> Result<B, PrintFault>
    requires sound { IsSound bundle.now }
    requires room { 65536 ≤ B.size bank }
    ensures done { IfOk result (λ left. Printed bundle.now cli.now (armed_telling bundle.now (B.contents bank) (B.lock bank)) (B.contents bank) (K.written out.old) (K.written out.new) (B.contents left)) }
    ensures told { IfOk result (λ left. is_some (B.contents left) ≡ is_some (B.contents bank)) }
    ensures delays { IfOk result (λ left. delays_in (locks_of (B.lock left)) ≡ (armed_telling bundle.now (B.contents bank) (B.lock bank)).delays) }
    ensures fault { IfErr result (LeftByFault bundle.now cli.now (armed_telling bundle.now (B.contents bank) (B.lock bank)) (K.written out.old) (K.written out.new)) }
    ensures tells { is_some (K.written out.new) ≡ is_some (K.written out.old) }
    ensures later { K.faults out.old ≤ K.faults out.new }
    ensures counts { CountsPrintFault (K.faults out.old) (K.faults out.new) result }
{
    let mut bank = bank;
    arm_locks(&mut bank, bundle.locks.as_slice());
    run_armed(alloc, bundle, cli, out, bank)
}
