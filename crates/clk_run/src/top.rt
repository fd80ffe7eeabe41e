//! The program, as a call.

ghost use Rattle.std.specs.Prelude.{◌≡◌, ◌≤◌, ◌==◌, ℕ, None, Some, is_some};
ghost use Rattle.std.specs.Option.{option_map};
ghost use Rattle.clk_cli.specs.Meaning.{texts, meaning};
ghost use Rattle.clk_cli.specs.declared.cli.Cli.{Cli};
ghost use Rattle.clk_io.specs.Counts.{Rose};
ghost use Rattle.clk_run.specs.Outcomes.{generates, told_of, IsStatus, MeansNothing, MeansDone, MeansRefused, MeansUnread, MeansUnwritten, MeansShort, MeansDecided, EndsWith, NeitherRose, Reaches};
ghost use Rattle.clk_run.specs.Runs.{has_threads};

use crate::side_by_side::run_side_by_side;
use crate::sim::simulate;
use clk_base::Pause;
use clk_cli::{CliFault, Mode, USAGE_LINE};
use clk_io::{Sink, Source, write_all};
use reg_bank::Bank;
use std::sync::Wait;
use std::thread::Threads;

// Whether each driver has a thread of its own.
fn has_threads(mode: Mode) -> bool
    ensures { result ≡ has_threads mode }
{
    match mode {
        Mode::Check | Mode::Sim => false,
        Mode::Run | Mode::Bench(_) => true,
    }
}

/// Does what the words behind the program's name mean. Answers the status, and with 0 the bank:
///
/// - 0: the bundle ran and its text was printed;
/// - 1: the words mean nothing, and the line was printed that says how the program is called;
/// - 2: the bundle is refused, which a generated one never is, and the line was printed that says where and why;
/// - 3: memory ran out;
/// - 4: a read failed, and nothing was printed;
/// - 5: a write failed, and a front of the text was printed.
///
/// Under `check` boot alone runs, and under `sim` the drivers run on this thread, which pauses nowhere.
/// Under `run` and `bench` each driver has a thread of its own, and `pause` is called between two
/// turns of a sleeping call. Both are tested, and no clause says them. `bench` reads nothing and
/// generates its bundle.
pub fn clkbench<
    'w,
    R: AllocGlobal + Threads + Wait + Sync,
    S: Source,
    K: Sink,
    B: Bank + Send,
    Q: Pause + Sync,
>(rt: &R, words: &'w [&'w str], input: &mut S, out: &mut K, bank: B, pause: &Q) -> (u8, Option<B>)
    // The bank has all words that a bundle may name.
    requires room { 65536 ≤ B.size bank }
    // The status is 0, 1, 2, 3, 4 or 5.
    ensures known { IsStatus result.0 }
    // 1: the words mean nothing, nothing was read, and the line was written that says how the program is called.
    ensures usage { result.0 ≡ 1 → MeansNothing (meaning (texts words.now)) (S.left input.old) (S.left input.new) (K.written out.old) (K.written out.new) }
    // 0: the words ask for a run; all that was left of the source, or under `bench` the generated text, spells a bundle; the text of one of its runs was written; the bank has the registers that this run leaves, every other word as it was, and the delays of locks that the bundle states.
    ensures done { result.0 ≡ 0 → MeansDone (meaning (texts words.now)) (B.contents bank) (B.lock bank) (S.left input.old) (S.left input.new) (K.written out.old) (K.written out.new) (option_map (λ left. told_of (B.contents left) (B.lock left)) result.1) }
    // The bank comes back exactly with 0.
    ensures back { is_some result.1 ≡ (result.0 == 0) }
    // 2: the words ask for a run that reads a source, its bytes are refused, and the line that says where and why was written.
    ensures refused { result.0 ≡ 2 → MeansRefused (meaning (texts words.now)) (S.left input.old) (S.left input.new) (K.written out.old) (K.written out.new) }
    // 4 comes only if the source's count of faults rose.
    ensures reads { result.0 ≡ 4 → Rose (S.faults input.old) (S.faults input.new) }
    // 4: the words ask for a run that reads a source, no more of it was taken than a bundle may have, and the sink is as it was.
    ensures unread { result.0 ≡ 4 → MeansUnread (meaning (texts words.now)) (S.left input.old) (S.left input.new) out.old out.new }
    // Where the words mean nothing, nothing is read.
    ensures unmeant { meaning (texts words.now) ≡ None → input.new ≡ input.old }
    // Under `bench` nothing is read.
    ensures unasked { (cli : Cli) → (drivers : ℕ) → meaning (texts words.now) ≡ Some cli → generates cli.mode ≡ Some drivers → input.new ≡ input.old }
    // 5 comes only if the sink's count of faults rose.
    ensures writes { result.0 ≡ 5 → Rose (K.faults out.old) (K.faults out.new) }
    // 5: a front of the text of a run was written, of a refusal's line or of the usage line.
    ensures unwritten { result.0 ≡ 5 → MeansUnwritten (meaning (texts words.now)) (B.contents bank) (B.lock bank) (S.left input.old) (S.left input.new) (K.written out.old) (K.written out.new) }
    // 3: nothing was written, and no more was taken of the source than a bundle may have, or such a front was.
    ensures short { result.0 ≡ 3 → MeansShort (meaning (texts words.now)) (B.contents bank) (B.lock bank) (S.left input.old) (S.left input.new) (K.written out.old) (K.written out.new) }
    // Words that mean nothing end in 1, and for the others what the source has left decides between 0 and 2, and a generated bundle ends in 0, unless the status is 3, 4 or 5.
    ensures decided { MeansDecided (meaning (texts words.now)) (S.left input.old) (EndsWith result.0) }
    // If neither count of faults rose, it is so unless the status is 3.
    ensures complete { NeitherRose (S.faults input.old) (S.faults input.new) (K.faults out.old) (K.faults out.new)
        → MeansDecided (meaning (texts words.now)) (S.left input.old) (Reaches result.0) }
    // Source and sink tell their bytes as before.
    ensures tells { (is_some (S.left input.new) ≡ is_some (S.left input.old)) × (is_some (K.written out.new) ≡ is_some (K.written out.old)) }
    // No count of faults falls.
    ensures later { (S.faults input.old ≤ S.faults input.new) × (K.faults out.old ≤ K.faults out.new) }
{
    let alloc = rt.alloc();
    match clk_cli::words(alloc, words) {
        Ok(cli) if has_threads(cli.mode) => {
            run_side_by_side(rt, alloc, &cli, input, out, bank, pause)
        }
        Ok(cli) => simulate(alloc, &cli, input, out, bank),
        Err(CliFault::NoMemory) => (3, None),
        Err(CliFault::Usage) => match write_all(out, USAGE_LINE.as_bytes()) {
            Ok(()) => (1, None),
            Err(_) => (5, None),
        },
    }
}
