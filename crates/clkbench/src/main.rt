//! The program `clkbench`: standard input and output, and a bank of registers in memory.
#![tactic(auto)]

use clk_base::NoPause;
use clk_io::{NoMemory, StdIn, StdOut};
use clk_run::clkbench;
use reg_bank::MemBank;
use std::env;
use std::io::ErrorKind;
use std::process::ExitCode;
use std::sync::Wait;
use std::thread::Threads;

/// The status where there is no memory for the words or the bank.
const NO_MEMORY: u8 = 3;

fn main(rt: HostRuntime) -> ExitCode {
    let mut input = StdIn::new(rt.stdin());
    let mut out = StdOut::new(rt.stdout());
    let status = match given_words(&rt) {
        Ok(given) => status(&rt, given.as_slice(), &mut input, &mut out),
        Err(fault) => Err(fault),
    };
    match status {
        Ok(status) => ExitCode::from(status),
        Err(_) => ExitCode::from(NO_MEMORY),
    }
}

// The words behind the program's name. Where one of them isn't UTF-8 there are none, which mean
// nothing either.
fn given_words(rt: &HostRuntime) -> Result<Vec<String>, NoMemory> {
    let mut given = Vec::new(rt.alloc());
    match env::args(rt) {
        Ok(args) => {
            for word in args.skip(1) {
                given.push(word)?;
            }
            Ok(given)
        }
        Err(fault) if fault.kind() == ErrorKind::InvalidData => Ok(given),
        Err(_) => Err(NoMemory),
    }
}

// The status of the run that the program's words mean.
fn status<R: AllocGlobal + Threads + Wait + Sync>(
    rt: &R,
    given: &[String],
    input: &mut StdIn,
    out: &mut StdOut,
) -> Result<u8, NoMemory> {
    let alloc = rt.alloc();
    let mut words = Vec::new(alloc);
    for word in given {
        words.push(word.as_str())?;
    }
    let bank = MemBank::new(alloc)?;
    let (status, _) = clkbench(rt, words.as_slice(), input, out, bank, &NoPause);
    Ok(status)
}
