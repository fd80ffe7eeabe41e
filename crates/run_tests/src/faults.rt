//! Sources and sinks that fail.

use crate::running::{CLOCKS, UART, UART_PRINTED, run, run_over};
use clk_cli::USAGE_LINE;
use std::test::Fail;

#[test]
fn a_read_that_fails_prints_nothing(rt: HostRuntime) -> Result<(), Fail> {
    // The first call gives the whole text, the second the end.
    for call in [1, 2] {
        let (status, out) = run(&rt, "sim", UART.as_bytes(), &[call], &[])?;
        assert_eq!(rt; status, 4);
        assert_eq!(rt; out.written(), b"".as_slice());
    }
    let (status, out) = run(&rt, "sim", UART.as_bytes(), &[3], &[])?;
    assert_eq!(rt; status, 0);
    assert_eq!(rt; out.written(), UART_PRINTED.as_bytes());
    Ok(())
}

#[test]
fn a_write_that_fails_leaves_a_front(rt: HostRuntime) -> Result<(), Fail> {
    let whole = UART_PRINTED.as_bytes();
    for call in 1..=82u32 {
        let (status, out) = run(&rt, "sim", UART.as_bytes(), &[], &[call])?;
        let written = out.written();
        if status == 0 {
            // The run makes fewer calls than this, and each takes 8 bytes at most.
            assert!(rt; call > 10);
            assert_eq!(rt; written, whole);
            return Ok(());
        }
        assert_eq!(rt; status, 5);
        assert!(rt; written.len() < whole.len());
        assert!(rt; whole.starts_with(written));
    }
    assert!(rt; false);
    Ok(())
}

#[test]
fn boots_answers_may_be_cut(rt: HostRuntime) -> Result<(), Fail> {
    let (status, out) = run(&rt, "check", CLOCKS.as_bytes(), &[], &[2])?;
    assert_eq!(rt; status, 5);
    assert_eq!(rt; out.written(), b"boot.1 o".as_slice());
    let (status, out) = run(&rt, "check", CLOCKS.as_bytes(), &[1], &[])?;
    assert_eq!(rt; status, 4);
    assert_eq!(rt; out.written(), b"".as_slice());
    Ok(())
}

#[test]
fn a_refusal_or_the_usage_line_may_be_cut(rt: HostRuntime) -> Result<(), Fail> {
    let (status, out) = run(&rt, "sim", b"", &[], &[2])?;
    assert_eq!(rt; status, 5);
    assert_eq!(rt; out.written(), b"error: l".as_slice());
    let (status, out) = run(&rt, "fly", b"", &[], &[2])?;
    assert_eq!(rt; status, 5);
    assert!(rt; USAGE_LINE.as_bytes().starts_with(out.written()));
    assert_eq!(rt; out.written().len(), 8);
    Ok(())
}

#[test]
fn a_generated_bundle_is_not_read(rt: HostRuntime) -> Result<(), Fail> {
    let words = ["bench", "1"];
    let (status, whole) = run_over(&rt, &words, b"", &[1], &[], 65_536)?;
    assert_eq!(rt; status, 0);
    assert!(rt;
        whole
            .written()
            .starts_with(b"drivers 1\ncommands 404\nok 404\nclock ")
    );
    let (status, out) = run_over(&rt, &words, b"", &[1], &[2], 8)?;
    assert_eq!(rt; status, 5);
    assert_eq!(rt; out.written(), b"drivers ".as_slice());
    Ok(())
}
