//! A long text is written in pieces, however short its lines are.

use crate::running::run_over;
use clk_io::PIECE_BYTES;
use std::test::Fail;

// A bundle of so many fixed clocks, each of which has a line of the answers and one of the summary.
fn bundle_of(rt: &HostRuntime, clocks: u32) -> Result<String, Fail> {
    let mut text = String::from_str(rt.alloc(), "%bundle 1\n%clocks\n")?;
    for clock in 0..clocks {
        let line = format!(in rt.alloc(); "fixed c{clock} 5\n")?;
        text.push_str(line.as_str())?;
    }
    text.push_str("%regs 1\n")?;
    Ok(text)
}

#[test]
fn a_sink_is_called_once_a_piece(rt: HostRuntime) -> Result<(), Fail> {
    // 100 answers are 1,092 bytes, and the summary's 101 lines have 83 each: two pieces, which a line
    // fills up, and the rest.
    let text = bundle_of(&rt, 100)?;
    let (status, whole) = run_over(&rt, &["check"], text.as_bytes(), &[], &[4], 65_536)?;
    assert!(rt; status == 0 && whole.written().len() == 9_475);
    for call in 1..=3usize {
        let fails = [call as u32];
        let (status, out) = run_over(&rt, &["check"], text.as_bytes(), &[], &fails, 65_536)?;
        let written = out.written();
        assert!(rt; status == 5 && whole.written().starts_with(written));
        assert!(rt; written.len() >= (call - 1) * PIECE_BYTES);
        assert!(rt; written.len() < call * (PIECE_BYTES + 83));
    }
    Ok(())
}
