//! Bytes that are no text, too many bytes, and words that are no word.

use crate::running::{UART, run};
use clk_cli::USAGE_LINE;
use std::sync::Wait;
use std::test::Fail;
use std::thread::Threads;

// Whether the bytes are refused with this line.
fn is_refused<R: AllocGlobal + Threads + Wait + Sync>(
    rt: &R,
    bytes: &[u8],
    wanted: &str,
) -> Result<bool, Fail> {
    let (status, out) = run(rt, "sim", bytes, &[], &[])?;
    Ok(status == 2 && out.written() == wanted.as_bytes())
}

#[test]
fn each_line_is_utf_8(rt: HostRuntime) -> Result<(), Fail> {
    for (bytes, wanted) in [
        (b"\xff\n".as_slice(), "error: line 1: NotUtf8\n"),
        (
            b"%bundle 2\n\n\xc3\n".as_slice(),
            "error: line 3: NotUtf8\n",
        ),
        (
            b"%bundle 1\n%clocks\n# \xe2\x82\nfixed f 5\n\xff\n".as_slice(),
            "error: line 3: NotUtf8\n",
        ),
    ] {
        assert!(rt; is_refused(&rt, bytes, wanted)?);
    }
    Ok(())
}

#[test]
fn a_text_has_a_most_length(rt: HostRuntime) -> Result<(), Fail> {
    let bytes = vec![in rt.alloc(); b'\n'; clk_io::MOST_BYTES + 1]?;
    assert!(rt; is_refused(&rt, bytes.as_slice(), "error: line 0: TooLong\n")?);
    Ok(())
}

#[test]
fn a_word_with_a_blank_and_an_empty_word_mean_nothing(rt: HostRuntime) -> Result<(), Fail> {
    for word in ["", "sim "] {
        let (status, out) = run(&rt, word, UART.as_bytes(), &[], &[])?;
        assert!(rt; status == 1 && out.written() == USAGE_LINE.as_bytes());
    }
    Ok(())
}
