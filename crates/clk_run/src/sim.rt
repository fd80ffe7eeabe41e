//! From a source's bytes to what is printed of their run.

ghost use Rattle.std.specs.Prelude.{◌≡◌, ◌≤◌, ◌==◌, ℕ, Some, is_some};
ghost use Rattle.std.specs.Option.{option_map};
ghost use Rattle.clk_io.specs.Counts.{Rose};
ghost use Rattle.clk_run.specs.Outcomes.{generates, told_of, IsRunStatus, Done, Refused, Unread, Unwritten, Short, Decides, EndsWith, NeitherRose, Reaches, status_of};

use crate::refusal::print_refusal;
use crate::run_bundle::run_bundle;
use crate::taking::{Stop, take_bundle};
use clk_cli::Cli;
use clk_io::{PrintFault, Sink, Source};
use reg_bank::Bank;
use std::alloc::Global;

/// The status after a fault of printing.
pub(crate) fn status_of(fault: PrintFault) -> u8
    ensures { result ≡ status_of fault }
{
    match fault {
        PrintFault::Write => 5,
        PrintFault::NoMemory => 3,
    }
}

/// Takes a bundle, runs it on one thread and prints the run: the journal where the words ask for it,
/// the answers, the summary and the registers. Under `check` boot alone runs, and no journal is
/// printed. Under `bench` the bundle is the generated one, of 1 to 64 drivers, nothing is read, and
/// the answers are counted. Answers the status, and with 0 the bank:
///
/// - 0: the bundle ran and its text was printed;
/// - 2: the bundle is refused, which a generated one never is, and the line that says why was printed;
/// - 3: memory ran out;
/// - 4: a read failed, and nothing was printed;
/// - 5: a write failed, and a front of the text was printed.
pub fn simulate<S: Source, K: Sink, B: Bank>(
    alloc: Global,
    cli: &Cli,
    input: &mut S,
    out: &mut K,
    bank: B,
) -> (u8, Option<B>)
    // The bank has all words that a bundle may name.
    requires room { 65536 ≤ B.size bank }
    // The status is 0, 2, 3, 4 or 5.
    ensures known { IsRunStatus result.0 }
    // 0: all that was left of the source, or the generated text, spells a bundle; the text of one of its runs was written; the bank has the registers that this run leaves, every other word as it was, and the delays of locks that the bundle states.
    ensures done { result.0 ≡ 0 → Done cli.now (B.contents bank) (B.lock bank) (S.left input.old) (S.left input.new) (K.written out.old) (K.written out.new) (option_map (λ left. told_of (B.contents left) (B.lock left)) result.1) }
    // The bank comes back exactly with 0.
    ensures back { is_some result.1 ≡ (result.0 == 0) }
    // 2: the bundle isn't a generated one, what was left of the source is refused, and the line that says where and why was written.
    ensures refused { result.0 ≡ 2 → Refused cli.now (S.left input.old) (S.left input.new) (K.written out.old) (K.written out.new) }
    // 4 comes only if the source's count of faults rose.
    ensures reads { result.0 ≡ 4 → Rose (S.faults input.old) (S.faults input.new) }
    // 4: the bundle isn't a generated one, no more of the source was taken than a bundle may have, and the sink is as it was.
    ensures unread { result.0 ≡ 4 → Unread cli.now (S.left input.old) (S.left input.new) out.old out.new }
    // For a generated bundle nothing is read.
    ensures unasked { (drivers : ℕ) → generates cli.now.mode ≡ Some drivers → input.new ≡ input.old }
    // 5 comes only if the sink's count of faults rose.
    ensures writes { result.0 ≡ 5 → Rose (K.faults out.old) (K.faults out.new) }
    // 5: a front of the text of a run was written, or of a refusal's line.
    ensures unwritten { result.0 ≡ 5 → Unwritten cli.now (B.contents bank) (B.lock bank) (S.left input.old) (S.left input.new) (K.written out.old) (K.written out.new) }
    // 3: nothing was written, and no more was taken of the source than a bundle may have, or such a front was.
    ensures short { result.0 ≡ 3 → Short cli.now (B.contents bank) (B.lock bank) (S.left input.old) (S.left input.new) (K.written out.old) (K.written out.new) }
    // What the source has left decides between 0 and 2, and a generated bundle ends in 0, unless the status is 3, 4 or 5.
    ensures decided { Decides (generates cli.now.mode) (S.left input.old) (EndsWith result.0) }
    // If neither count of faults rose, it is so unless the status is 3.
    ensures complete { NeitherRose (S.faults input.old) (S.faults input.new) (K.faults out.old) (K.faults out.new)
        → Decides (generates cli.now.mode) (S.left input.old) (Reaches result.0) }
    // Source and sink tell their bytes as before.
    ensures tells { (is_some (S.left input.new) ≡ is_some (S.left input.old)) × (is_some (K.written out.new) ≡ is_some (K.written out.old)) }
    // No count of faults falls.
    ensures later { (S.faults input.old ≤ S.faults input.new) × (K.faults out.old ≤ K.faults out.new) }
{
    match take_bundle(alloc, cli.mode, input) {
        Ok(bundle) => match run_bundle(alloc, &bundle, cli, out, bank) {
            Ok(bank) => (0, Some(bank)),
            Err(fault) => (status_of(fault), None),
        },
        Err(Stop::Refused { line, reason }) => match print_refusal(alloc, line, reason, out) {
            Ok(()) => (2, None),
            Err(fault) => (status_of(fault), None),
        },
        Err(Stop::Read) => (4, None),
        Err(Stop::NoMemory) => (3, None),
    }
}
