//! One run of the program over a source and a sink in memory.

ghost use Rattle.std.specs.Prelude.{◌<◌};

use clk_base::NoPause;
use clk_io::{MemSink, MemSource, NoMemory};
use clk_run::clkbench;
use reg_bank::MemBank;
use std::sync::Wait;
use std::thread::Threads;

/// Two clocks, a fixed rate and a gate over it, and one word.
pub(crate) const CLOCKS: &str =
    "%bundle 1\n%clocks\nfixed osc 24000000\ngate uart_gate osc 0 3\n%regs 1\n";

/// What their run under `check` prints: the gate is off, and its word 0.
pub(crate) const CLOCKS_PRINTED: &str =
    "boot.1 ok\nboot.2 ok\nclock                             enable prepare protect                 rate   hw\nosc                                    0       0       0             24000000    -\n  uart_gate                            0       0       0             24000000  off\n";

/// A driver that lets the gate run.
pub(crate) const UART: &str =
    "%bundle 1\n%clocks\nfixed osc 24000000\ngate uart_gate osc 0 3\n%regs 1\n%driver A\nget a uart_gate\nprepare a\nenable a\nrate a\n";

/// What the run of `UART` prints.
pub(crate) const UART_PRINTED: &str =
    "boot.1 ok\nboot.2 ok\nA.1 handle 0\nA.2 ok\nA.3 ok\nA.4 rate 24000000\nclock                             enable prepare protect                 rate   hw\nosc                                    1       1       0             24000000    -\n  uart_gate                            1       1       0             24000000   on\nreg 0 0x00000008\n";

/// The status for words and bytes, and the sink. These calls of the source and the sink fail; the
/// sink takes so many bytes a call.
pub(crate) fn run_over<R: AllocGlobal + Threads + Wait + Sync>(
    rt: &R,
    words: &[&str],
    text: &[u8],
    bad_reads: &[u32],
    bad_writes: &[u32],
    most: usize,
) -> Result<(u8, MemSink), NoMemory>
    requires { 0 < most }
{
    let alloc = rt.alloc();
    let bytes = Vec::from_slice(alloc, text)?;
    let mut input = MemSource::new(bytes, Vec::from_slice(alloc, bad_reads)?);
    let mut out = MemSink::new(alloc, most, 65_536, Vec::from_slice(alloc, bad_writes)?)?;
    let bank = MemBank::new(alloc)?;
    let (status, _) = clkbench(rt, words, &mut input, &mut out, bank, &NoPause);
    Ok((status, out))
}

/// The same for one word, with a sink that takes 8 bytes a call.
pub(crate) fn run<R: AllocGlobal + Threads + Wait + Sync>(
    rt: &R,
    word: &str,
    text: &[u8],
    bad_reads: &[u32],
    bad_writes: &[u32],
) -> Result<(u8, MemSink), NoMemory> {
    run_over(rt, &[word], text, bad_reads, bad_writes, 8)
}
