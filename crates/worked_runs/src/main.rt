//! Worked runs as data: the program's top call over each bundle of some files, printed for a
//! comparison.
//!
//! The words of this program name files, which hold runs one behind another. A run begins with a line
//! `=== NAME: WORDS`, with a name and the words of the command line; behind it stands its bundle, up
//! to the line feed in front of the next such line. So a blank line there is the bundle's own last
//! line feed, and a bundle without one has none.
//!
//! Of each run that line is printed again, then `status N`, and then what the run wrote.
#![tactic(auto)]

use anyhow::Context;
use clk_base::NoPause;
use clk_io::{MemSink, MemSource, NoMemory};
use clk_run::clkbench;
use reg_bank::MemBank;
use std::io::Print;
use std::sync::Wait;
use std::thread::Threads;
use std::{env, fs};

/// How many bytes a run may write.
const MOST_WRITTEN: usize = 65_536;

/// What a line of a file begins with where a run begins.
const MARK: &str = "=== ";

fn main(rt: HostRuntime) -> anyhow::Result<()> {
    for path in env::args(&rt)?.skip(1) {
        let runs = fs::read_to_string(&rt, path.as_str())?;
        print_runs(&rt, runs.as_str())?;
    }
    Ok(())
}

// Prints what each run of a file comes to.
fn print_runs<R: AllocGlobal + Print + Threads + Wait + Sync>(
    rt: &R,
    runs: &str,
) -> anyhow::Result<()> {
    let first = runs.strip_prefix(MARK).context("no run begins the file")?;
    for run in first.split("\n=== ") {
        print_run(rt, run)?;
    }
    Ok(())
}

// Prints what a run comes to, from its name on.
fn print_run<R: AllocGlobal + Print + Threads + Wait + Sync>(
    rt: &R,
    run: &str,
) -> anyhow::Result<()> {
    let (head, bundle) = run.split_once('\n').context("a run has no bundle")?;
    let (_name, given) = head.split_once(": ").context("a run has no words")?;
    let mut words = Vec::new(rt.alloc());
    for word in given.split(' ') {
        words.push(word)?;
    }
    let (status, out) = outcome(rt, words.as_slice(), bundle)?;
    let written = str::from_utf8(out.written())?;
    print!(rt; "{MARK}{head}\nstatus {status}\n{written}")?;
    Ok(())
}

// The status of the top call for these words and this bundle, and the sink that it wrote to.
fn outcome<R: AllocGlobal + Threads + Wait + Sync>(
    rt: &R,
    words: &[&str],
    bundle: &str,
) -> Result<(u8, MemSink), NoMemory> {
    let alloc = rt.alloc();
    let bytes = Vec::from_slice(alloc, bundle.as_bytes())?;
    let mut input = MemSource::new(bytes, Vec::new(alloc));
    let mut out = MemSink::new(alloc, MOST_WRITTEN, MOST_WRITTEN, Vec::new(alloc))?;
    let bank = MemBank::new(alloc)?;
    let (status, _) = clkbench(rt, words, &mut input, &mut out, bank, &NoPause);
    Ok((status, out))
}
