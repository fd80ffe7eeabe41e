//! An enable of one driver comes while another driver's call pauses.

use crate::untold::{Counting, Discard};
use clk_base::{Pause, Place};
use clk_io::MemSource;
use clk_run::clkbench;
use reg_bank::MemBank;
use std::alloc::Global;
use std::process::Abort;
use std::sync::atomic::{AtomicU64, Ordering};
use std::sync::{OnceLock, Wait};
use std::test::Fail;
use std::thread;
use std::thread::Threads;
use std::time::{Clock, Duration};

/// The clocks. Driver A sets the rate of `d`, which moves it from one parent to the other, and driver B
/// opens and closes `g`, a gate in the watched word without a PLL above it.
const CLOCKS: &str = "%bundle 1
%clocks
fixed slow 12000000
fixed fast 24000000
mux d 0 0 1 2 slow fast
gate g slow 1 0
%regs 2
";

/// How many rates driver A asks for, in pairs.
const PAIRS_OF_SETS: u32 = 25_000;

/// How often driver B enables and disables its gate. Each enable is one counted write.
const ENABLES: u32 = 20_000;

/// How often a wait looks whether the count has risen, once a millisecond.
const LOOKS: u32 = 2_000;

/// How many runs are made until a wait takes place: on a busy machine one driver may have ended before
/// the other one begins.
const RUNS: u32 = 20;

/// What came of a wait.
#[derive(Clone, Copy, Debug, PartialEq, Eq)]
enum Waited {
    Rose,
    RanOut,
}

/// Waits once, in the first pause at a place that stands between the first and the last of the counted
/// writes, until the next one. Before and after them there is nothing to wait for.
#[derive(Drop)]
struct WaitOnce<'a, C> {
    place: Place,
    clock: &'a C,
    writes: &'a AtomicU64,
    waited: &'a OnceLock<Waited>,
}

impl<C: Clock> Pause for WaitOnce<'_, C> {
    fn pause<R: Wait + Sync>(&self, _rt: &R, place: Place) {
        let before = self.writes.load(Ordering::SeqCst);
        let has_more = 0 < before && before < u64::from(ENABLES);
        if place == self.place && has_more && self.waited.get().is_none() {
            let waited = wait_for_more(self.clock, self.writes, before);
            let _first = self.waited.try_set(waited).is_ok();
        }
    }
}

// Waits until a count isn't this one any more.
fn wait_for_more<C: Clock>(clock: &C, writes: &AtomicU64, before: u64) -> Waited {
    for _ in 0..LOOKS {
        if writes.load(Ordering::SeqCst) != before {
            return Waited::Rose;
        }
        thread::sleep(clock, Duration::from_millis(1));
    }
    Waited::RanOut
}

// Appends the same lines so often.
fn repeat(text: &mut String, lines: &str, times: u32) -> Result<(), Fail> {
    for _ in 0..times {
        text.push_str(lines)?;
    }
    Ok(())
}

// The bundle of the two drivers.
fn two_drivers(alloc: Global) -> Result<String, Fail> {
    let mut text = String::from_str(alloc, CLOCKS)?;
    text.push_str("%driver A\nget x d\n")?;
    repeat(&mut text, "set x 24000000\nset x 12000000\n", PAIRS_OF_SETS)?;
    text.push_str("%driver B\nget x g\nprepare x\n")?;
    repeat(&mut text, "enable x\ndisable x\n", ENABLES)?;
    Ok(text)
}

// Runs the drivers, each on its thread, with a wait at this place. What came of it, if there was one.
fn run_once<R: AllocGlobal + Threads + Wait + Clock + Abort + Sync>(
    rt: &R,
    text: &str,
    place: Place,
) -> Result<Option<Waited>, Fail> {
    let alloc = rt.alloc();
    let writes = AtomicU64::new(0);
    let waited = OnceLock::new();
    let bytes = Vec::from_slice(alloc, text.as_bytes())?;
    let mut input = MemSource::new(bytes, Vec::new(alloc));
    let bank = Counting {
        bank: MemBank::new(alloc)?,
        writes: &writes,
    };
    let pause = WaitOnce {
        place,
        clock: rt,
        writes: &writes,
        waited: &waited,
    };
    let (status, _) = clkbench(rt, &["run"], &mut input, &mut Discard, bank, &pause);
    assert_eq!(rt; status, 0);
    assert_eq!(rt; writes.load(Ordering::SeqCst), u64::from(ENABLES));
    Ok(waited.get().copied())
}

// Runs the drivers until there was a wait at this place. What came of it; nothing if no run had one.
fn first_wait<R: AllocGlobal + Threads + Wait + Clock + Abort + Sync>(
    rt: &R,
    place: Place,
) -> Result<Option<Waited>, Fail> {
    let text = two_drivers(rt.alloc())?;
    for _ in 0..RUNS {
        let waited = run_once(rt, text.as_str(), place)?;
        if waited.is_some() {
            return Ok(waited);
        }
    }
    Ok(None)
}

#[test]
fn an_enable_comes_between_two_turns_of_a_call(rt: HostRuntime) -> Result<(), Fail> {
    assert_eq!(rt; first_wait(&rt, Place::Between)?, Some(Waited::Rose));
    Ok(())
}

#[test]
fn an_enable_comes_while_a_call_is_planned(rt: HostRuntime) -> Result<(), Fail> {
    assert_eq!(rt; first_wait(&rt, Place::Planning)?, Some(Waited::Rose));
    Ok(())
}
