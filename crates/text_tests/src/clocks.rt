//! Reading clock lines, and what a table says of them.

use bundle_text::{BundleFault, Reason, TextLines};
use clk_base::{ClkFlags, ClockId, Kind};
use clock_lines::{ClockList, read_clocks};
use std::process::Abort;
use std::test::Fail;

/// Reads all lines of a text, in a bundle of a version.
pub(crate) fn read<R: AllocGlobal>(
    rt: &R,
    version: u32,
    text: &str,
) -> Result<ClockList, BundleFault> {
    let lines = TextLines::new(rt.alloc(), text.as_bytes())?;
    let len = lines.len();
    if len > 1000 {
        return Err(BundleFault::NoMemory);
    }
    read_clocks(rt.alloc(), &lines, 0, len, version)
}

/// Checks that a text is refused in a version, at this line for this reason.
pub(crate) fn check_refusal<R: Abort + AllocGlobal>(
    rt: &R,
    version: u32,
    text: &str,
    line: u32,
    reason: Reason,
) {
    let refused = BundleFault::Refused { line, reason };
    assert!(rt;
        read(rt, version, text).is_err_and(|fault| fault == refused),
        "in version {version} at {text}"
    );
}

/// Reads a clock line after two others, and checks its kind, its flags and its parents.
pub(crate) fn check_clock<R: Abort + AllocGlobal>(
    rt: &R,
    version: u32,
    line: &str,
    kind: Kind,
    flags: ClkFlags,
    parents: &[ClockId],
) -> Result<(), Fail> {
    let text = format!(in rt.alloc(); "fixed a 1\nfixed b 2\n{line}\n")?;
    let list = read(rt, version, &text)?;
    assert!(rt; list.lines.as_slice() == [1, 2, 3].as_slice());
    for def in list.desc.as_slice().last() {
        assert!(rt; def.name.as_str() == "c", "at {line}");
        assert!(rt; def.kind == kind, "at {line}");
        assert!(rt; def.flags == flags, "at {line}");
        assert!(rt; def.parents.as_slice() == parents, "at {line}");
    }
    Ok(())
}
