//! A source and a sink that meet faults, count them and try again.

use crate::running::{CLOCKS, CLOCKS_PRINTED};
use clk_base::NoPause;
use clk_io::{Failed, MemSink, MemSource, Sink, Source};
use clk_run::clkbench;
use reg_bank::MemBank;
use std::sync::Wait;
use std::test::Fail;
use std::thread::Threads;

/// A source or a sink that is called once more after a call that failed. The fault stays counted.
#[derive(Drop)]
struct Retried<T: Drop> {
    inner: T,
}

impl<S: Source + Drop> Source for Retried<S> {
    ghost left = { λ retried. S.left retried.inner };

    ghost faults = { λ retried. S.faults retried.inner };

    fn read(&mut self, into: &mut [u8]) -> Result<usize, Failed> {
        match self.inner.read(into) {
            Ok(count) => Ok(count),
            Err(Failed) => self.inner.read(into),
        }
    }
}

impl<K: Sink + Drop> Sink for Retried<K> {
    ghost written = { λ retried. K.written retried.inner };

    ghost faults = { λ retried. K.faults retried.inner };

    fn write(&mut self, bytes: &[u8]) -> Result<usize, Failed> {
        match self.inner.write(bytes) {
            Ok(count) => Ok(count),
            Err(Failed) => self.inner.write(bytes),
        }
    }
}

/// What came of a run.
#[derive(Drop)]
struct Ran {
    status: u8,
    input: MemSource,
    out: MemSink,
}

// Runs `check` over two clocks, with a source and a sink that try again. These calls of the source and
// of the sink fail; the sink takes 8 bytes a call.
fn run_retried<R: AllocGlobal + Threads + Wait + Sync>(
    rt: &R,
    bad_reads: &[u32],
    bad_writes: &[u32],
) -> Result<Ran, Fail> {
    let alloc = rt.alloc();
    let bytes = Vec::from_slice(alloc, CLOCKS.as_bytes())?;
    let mut input = Retried {
        inner: MemSource::new(bytes, Vec::from_slice(alloc, bad_reads)?),
    };
    let mut out = Retried {
        inner: MemSink::new(alloc, 8, 65_536, Vec::from_slice(alloc, bad_writes)?)?,
    };
    let bank = MemBank::new(alloc)?;
    let (status, _) = clkbench(rt, &["check"], &mut input, &mut out, bank, &NoPause);
    Ok(Ran {
        status,
        input: input.inner,
        out: out.inner,
    })
}

#[test]
fn a_read_that_is_tried_again_gives_the_bytes(rt: HostRuntime) -> Result<(), Fail> {
    // The second call gives the whole text, and the fourth the end.
    let ran = run_retried(&rt, &[1, 3], &[])?;
    assert_eq!(rt; ran.status, 0);
    assert_eq!(rt; ran.out.written(), CLOCKS_PRINTED.as_bytes());
    assert!(rt; ran.input.faults() == 2 && ran.out.faults() == 0);
    Ok(())
}

#[test]
fn a_write_that_is_tried_again_takes_the_bytes(rt: HostRuntime) -> Result<(), Fail> {
    let ran = run_retried(&rt, &[], &[1, 3, 7])?;
    assert_eq!(rt; ran.status, 0);
    assert_eq!(rt; ran.out.written(), CLOCKS_PRINTED.as_bytes());
    assert!(rt; ran.input.faults() == 0 && ran.out.faults() == 3);
    Ok(())
}

#[test]
fn a_call_that_fails_twice_has_failed(rt: HostRuntime) -> Result<(), Fail> {
    let ran = run_retried(&rt, &[1, 2], &[])?;
    assert!(rt; ran.status == 4 && ran.out.written().is_empty());
    assert_eq!(rt; ran.input.faults(), 2);
    let ran = run_retried(&rt, &[1], &[2, 3])?;
    assert_eq!(rt; ran.status, 5);
    assert_eq!(rt; ran.out.written(), b"boot.1 o".as_slice());
    assert!(rt; ran.input.faults() == 1 && ran.out.faults() == 2);
    Ok(())
}
