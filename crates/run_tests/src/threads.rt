//! There is a thread for each driver: none of them waits for the end of another one.

use crate::untold::Slow;
use clk_base::NoPause;
use clk_io::{MemSink, MemSource};
use clk_run::clkbench;
use reg_bank::MemBank;
use std::sync::Wait;
use std::test::Fail;
use std::thread::Threads;
use std::time::Clock;

/// How many bytes a run may write.
const ROOM: usize = 1_048_576;

/// How often a run is tried: on a busy machine a driver may have ended before the last one begins.
const TRIES: u32 = 5;

/// How often a driver opens and closes its gate and asks for its rate.
const TURNS: u32 = 60;

// Runs the program over a bank that takes its time, and gives the status and the text.
fn run_slowly<R: AllocGlobal + Threads + Wait + Clock + Sync>(
    rt: &R,
    words: &[&str],
    text: &str,
) -> Result<(u8, String), Fail> {
    let alloc = rt.alloc();
    let bytes = Vec::from_slice(alloc, text.as_bytes())?;
    let mut input = MemSource::new(bytes, Vec::new(alloc));
    let mut out = MemSink::new(alloc, 65_536, ROOM, Vec::new(alloc))?;
    let bank = Slow {
        bank: MemBank::new(alloc)?,
        clock: rt,
    };
    let (status, _) = clkbench(rt, words, &mut input, &mut out, bank, &NoPause);
    let written = str::from_utf8(out.written())?;
    Ok((status, String::from_str(alloc, written)?))
}

// Whether a line of the journal, `N DRIVER EVENT = RESULT`, is of the driver with this name.
fn is_of(line: &str, driver: &str) -> bool {
    let mut words = line.split(' ');
    words.next().is_some() && words.next() == Some(driver)
}

// The places of the first line and of the last line of a driver.
fn span(text: &str, driver: &str) -> Option<(usize, usize)> {
    let mut span = None;
    for (place, line) in text.lines().enumerate() {
        if is_of(line, driver) {
            let first = match span {
                Some((first, _)) => first,
                None => place,
            };
            span = Some((first, place));
        }
    }
    span
}

// Whether each of so many drivers begins before any of them ends: the last of the first lines stands
// before the first of the last lines.
fn overlap<R: AllocGlobal>(rt: &R, text: &str, drivers: u32) -> Result<bool, Fail> {
    let mut begun = 0;
    let mut ended = usize::MAX;
    for driver in 1..=drivers {
        let name = format!(in rt.alloc(); "w{driver}")?;
        let Some((first, last)) = span(text, name.as_str()) else {
            return Ok(false);
        };
        begun = begun.max(first);
        ended = ended.min(last);
    }
    Ok(begun < ended)
}

// Whether all of so many drivers are on their way at one time in one of some runs.
fn come_together<R: AllocGlobal + Threads + Wait + Clock + Sync>(
    rt: &R,
    words: &[&str],
    text: &str,
    drivers: u32,
) -> Result<bool, Fail> {
    for _ in 0..TRIES {
        let (status, written) = run_slowly(rt, words, text)?;
        if status == 0 && overlap(rt, written.as_str(), drivers)? {
            return Ok(true);
        }
    }
    Ok(false)
}

// A bundle of so many drivers, each of which opens and closes a gate of its own again and again. It asks
// for the gate's rate in between, which lets another driver come first that waits for the prepare lock.
fn with_gates<R: AllocGlobal>(rt: &R, drivers: u32) -> Result<String, Fail> {
    let alloc = rt.alloc();
    let mut text = String::from_str(alloc, "%bundle 1\n%clocks\nfixed osc 24000000\n")?;
    for driver in 1..=drivers {
        let gate = format!(in alloc; "gate g{driver} osc 0 {driver}\n")?;
        text.push_str(gate.as_str())?;
    }
    text.push_str("%regs 1\n")?;
    for driver in 1..=drivers {
        let head = format!(in alloc; "%driver w{driver}\nget x g{driver}\nprepare x\n")?;
        text.push_str(head.as_str())?;
        for _ in 0..TURNS {
            text.push_str("enable x\ndisable x\nrate x\n")?;
        }
    }
    Ok(text)
}

#[test]
fn twelve_drivers_run_on_threads_of_their_own(rt: HostRuntime) -> Result<(), Fail> {
    let text = with_gates(&rt, 12)?;
    assert!(rt; come_together(&rt, &["run"], text.as_str(), 12)?);
    Ok(())
}

#[test]
fn six_generated_drivers_run_on_threads_of_their_own(rt: HostRuntime) -> Result<(), Fail> {
    let words = ["--journal", "bench", "6"];
    assert!(rt; come_together(&rt, &words, "", 6)?);
    Ok(())
}
