//! From a source's bytes to what is printed of their run, with each driver on a thread of its own.

ghost use Rattle.std.specs.Prelude.{◌≡◌, ◌≤◌, ◌==◌, ℕ, true, Some, is_some, IfOk, IfErr};
ghost use Rattle.std.specs.Option.{option_map};
ghost use Rattle.clk_io.specs.Counts.{Rose, CountsPrintFault};
ghost use Rattle.tier_lock.specs.Known.{first_known};
ghost use Rattle.core_parts.specs.Window.{delays_in, locks_of};
ghost use Rattle.drv_scripts.specs.Placed.{IsSound};
ghost use Rattle.driver_threads.specs.Runs.{HasRunOnThreads};
ghost use Rattle.clk_run.specs.Cores.{opened_for};
ghost use Rattle.clk_run.specs.Outcomes.{generates, told_of, IsRunStatus, Done, Refused, Unread, Unwritten, Short, Decides, EndsWith, NeitherRose, Reaches};
ghost use Rattle.clk_run.specs.Runs.{armed_telling, credits_of, has_threads, telling, Printed, LeftByFault};

use crate::arming::arm_locks;
use crate::refusal::print_refusal;
use crate::run_bundle::credits_of;
use crate::run_core::print_core;
use crate::sim::status_of;
use crate::taking::{Stop, take_bundle};
use clk_base::{Answer, Pause};
use clk_cli::Cli;
use clk_framework::{Driver, Unnamed};
use clk_io::{NoMemory, PrintFault, Sink, Source};
use clk_machine::Core;
use driver_threads::run_on_threads;
use drv_scripts::{Bundle, Listed};
use reg_bank::Bank;
use std::alloc::Global;
use std::sync::Wait;
use std::thread::Threads;

// A framework over a bank, in which the clocks of a bundle wait to be registered, and its driver 0.
fn open_framework<B: Bank>(
    alloc: Global,
    bundle: &Bundle,
    ignore_unused: bool,
    bank: B,
) -> Result<(Unnamed<B>, Driver<B>), NoMemory>
    requires sound { IsSound bundle.now }
    requires room { 65536 ≤ B.size bank }
    ensures { IfOk result (λ made. made.1 ≡ first_known made.0.lock.table (opened_for bundle.now ignore_unused (B.contents bank) (B.lock bank)) (credits_of bundle.now)) }
{
    let desc = bundle.desc.copy(alloc)?;
    let words = bundle.words.as_slice();
    let credits = credits_of(bundle);
    Unnamed::create(alloc, desc, bank, words, ignore_unused, credits)
}

// The core over a bank in which a bundle has run, and the answers.
fn run_framework<B: Bank + Send, R: Threads + Wait + Sync, Q: Pause + Sync>(
    rt: &R,
    alloc: Global,
    bundle: &Bundle,
    ignore_unused: bool,
    bank: B,
    pause: &Q,
) -> Result<(Core<B>, Vec<Listed<Answer>>), NoMemory>
    requires sound { IsSound bundle.now }
    requires room { 65536 ≤ B.size bank }
    ensures { IfOk result (λ ran. HasRunOnThreads (Some (opened_for bundle.now ignore_unused (B.contents bank) (B.lock bank))) bundle.now.boot bundle.now.drivers ran.1.items ran.0) }
{
    let (unnamed, first) = open_framework(alloc, bundle, ignore_unused, bank)?;
    let boot = bundle.boot.as_slice();
    let drivers = bundle.drivers.as_slice();
    run_on_threads(rt, alloc, unnamed, first, boot, drivers, pause)
}

// Runs a bundle over a bank and prints the run. The bank comes back.
fn run_armed<K: Sink, B: Bank + Send, R: Threads + Wait + Sync, Q: Pause + Sync>(
    rt: &R,
    alloc: Global,
    bundle: &Bundle,
    cli: &Cli,
    out: &mut K,
    bank: B,
    pause: &Q,
) -> Result<B, PrintFault>
    requires mode { has_threads cli.now.mode ≡ true }
    requires sound { IsSound bundle.now }
    requires room { 65536 ≤ B.size bank }
    ensures done { IfOk result (λ left. Printed bundle.now cli.now (telling (B.contents bank) (B.lock bank)) (B.contents bank) (K.written out.old) (K.written out.new) (B.contents left)) }
    ensures told { IfOk result (λ left. is_some (B.contents left) ≡ is_some (B.contents bank)) }
    ensures delays { IfOk result (λ left. delays_in (locks_of (B.lock left)) ≡ (telling (B.contents bank) (B.lock bank)).delays) }
    ensures fault { IfErr result (LeftByFault bundle.now cli.now (telling (B.contents bank) (B.lock bank)) (K.written out.old) (K.written out.new)) }
    ensures tells { is_some (K.written out.new) ≡ is_some (K.written out.old) }
    ensures later { K.faults out.old ≤ K.faults out.new }
    ensures counts { CountsPrintFault (K.faults out.old) (K.faults out.new) result }
{
    let ignore_unused = cli.ignore_unused;
    let (core, answers) = run_framework(rt, alloc, bundle, ignore_unused, bank, pause)?;
    print_core(alloc, bundle, cli, &core, answers.as_slice(), out)?;
    Ok(core.into_bank())
}

// Arms the locks of a bank, runs a bundle over it and prints the run. The bank comes back.
fn run_bundle<K: Sink, B: Bank + Send, R: Threads + Wait + Sync, Q: Pause + Sync>(
    rt: &R,
    alloc: Global,
    bundle: &Bundle,
    cli: &Cli,
    out: &mut K,
    bank: B,
    pause: &Q,
) -> Result<B, PrintFault>
    requires mode { has_threads cli.now.mode ≡ true }
    requires sound { IsSound bundle.now }
    requires room { 65536 ≤ B.size bank }
    ensures done { IfOk result (λ left. Printed bundle.now cli.now (armed_telling bundle.now (B.contents bank) (B.lock bank)) (B.contents bank) (K.written out.old) (K.written out.new) (B.contents left)) }
    ensures told { IfOk result (λ left. is_some (B.contents left) ≡ is_some (B.contents bank)) }
    ensures delays { IfOk result (λ left. delays_in (locks_of (B.lock left)) ≡ (armed_telling bundle.now (B.contents bank) (B.lock bank)).delays) }
    ensures fault { IfErr result (LeftByFault bundle.now cli.now (armed_telling bundle.now (B.contents bank) (B.lock bank)) (K.written out.old) (K.written out.new)) }
    ensures tells { is_some (K.written out.new) ≡ is_some (K.written out.old) }
    ensures later { K.faults out.old ≤ K.faults out.new }
    ensures counts { CountsPrintFault (K.faults out.old) (K.faults out.new) result }
{
    let mut bank = bank;
    arm_locks(&mut bank, bundle.locks.as_slice());
    run_armed(rt, alloc, bundle, cli, out, bank, pause)
}

/// Takes a bundle, runs it with each driver on a thread of its own and prints the run: the journal
/// where the words ask for it, the answers or how many they are, the summary and the registers. The
/// statuses are those of `simulate`.
pub(crate) fn run_side_by_side<
    S: Source,
    K: Sink,
    B: Bank + Send,
    R: Threads + Wait + Sync,
    Q: Pause + Sync,
>(
    rt: &R,
    alloc: Global,
    cli: &Cli,
    input: &mut S,
    out: &mut K,
    bank: B,
    pause: &Q,
) -> (u8, Option<B>)
    // The words ask for it.
    requires mode { has_threads cli.now.mode ≡ true }
    // The bank has all words that a bundle may name.
    requires room { 65536 ≤ B.size bank }
    // The status is 0, 2, 3, 4 or 5.
    ensures known { IsRunStatus result.0 }
    // 0: all that was left of the source, or the generated text, spells a bundle; the text of one of its runs was written; the bank has the registers that this run leaves, every other word as it was, and the delays of locks that the bundle states.
    ensures done { result.0 ≡ 0 → Done cli.now (B.contents bank) (B.lock bank) (S.left input.old) (S.left input.new) (K.written out.old) (K.written out.new) (option_map (λ left. told_of (B.contents left) (B.lock left)) result.1) }
    // The bank comes back exactly with 0.
    ensures back { is_some result.1 ≡ (result.0 == 0) }
    // 2: the bundle isn't a generated one, what was left of the source is refused, and the line that says where and why was written.
    ensures refused { result.0 ≡ 2 → Refused cli.now (S.left input.old) (S.left input.new) (K.written out.old) (K.written out.new) }
    // 4 comes only if the source's count of faults rose.
    ensures reads { result.0 ≡ 4 → Rose (S.faults input.old) (S.faults input.new) }
    // 4: the bundle isn't a generated one, no more of the source was taken than a bundle may have, and the sink is as it was.
    ensures unread { result.0 ≡ 4 → Unread cli.now (S.left input.old) (S.left input.new) out.old out.new }
    // For a generated bundle nothing is read.
    ensures unasked { (drivers : ℕ) → generates cli.now.mode ≡ Some drivers → input.new ≡ input.old }
    // 5 comes only if the sink's count of faults rose.
    ensures writes { result.0 ≡ 5 → Rose (K.faults out.old) (K.faults out.new) }
    // 5: a front of the text of a run was written, or of a refusal's line.
    ensures unwritten { result.0 ≡ 5 → Unwritten cli.now (B.contents bank) (B.lock bank) (S.left input.old) (S.left input.new) (K.written out.old) (K.written out.new) }
    // 3: nothing was written, and no more was taken of the source than a bundle may have, or such a front was.
    ensures short { result.0 ≡ 3 → Short cli.now (B.contents bank) (B.lock bank) (S.left input.old) (S.left input.new) (K.written out.old) (K.written out.new) }
    // What the source has left decides between 0 and 2, and a generated bundle ends in 0, unless the status is 3, 4 or 5.
    ensures decided { Decides (generates cli.now.mode) (S.left input.old) (EndsWith result.0) }
    // If neither count of faults rose, it is so unless the status is 3.
    ensures complete { NeitherRose (S.faults input.old) (S.faults input.new) (K.faults out.old) (K.faults out.new)
        → Decides (generates cli.now.mode) (S.left input.old) (Reaches result.0) }
    // Source and sink tell their bytes as before.
    ensures tells { (is_some (S.left input.new) ≡ is_some (S.left input.old)) × (is_some (K.written out.new) ≡ is_some (K.written out.old)) }
    // No count of faults falls.
    ensures later { (S.faults input.old ≤ S.faults input.new) × (K.faults out.old ≤ K.faults out.new) }
{
    match take_bundle(alloc, cli.mode, input) {
        Ok(bundle) => match run_bundle(rt, alloc, &bundle, cli, out, bank, pause) {
            Ok(bank) => (0, Some(bank)),
            Err(fault) => (status_of(fault), None),
        },
        Err(Stop::Refused { line, reason }) => match print_refusal(alloc, line, reason, out) {
            Ok(()) => (2, None),
            Err(fault) => (status_of(fault), None),
        },
        Err(Stop::Read) => (4, None),
        Err(Stop::NoMemory) => (3, None),
    }
}
