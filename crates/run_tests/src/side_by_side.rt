//! Drivers that have threads of their own.

use crate::running::run_over;
use crate::untold::Counting;
use clk_base::NoPause;
use clk_io::{MemSink, MemSource};
use clk_run::clkbench;
use reg_bank::MemBank;
use std::sync::atomic::AtomicU64;
use std::test::Fail;

/// Four drivers, each over a gate of its own.
const FOUR: &str = "%bundle 1
%clocks
fixed osc 24000000
gate ga osc 0 0
gate gb osc 0 1
gate gc osc 0 2
gate gd osc 0 3
%regs 1
%driver A
get x ga
prepare x
enable x
disable x
enable x
%driver B
get x gb
prepare x
enable x
disable x
enable x
%driver C
get x gc
prepare x
enable x
disable x
enable x
%driver D
get x gd
prepare x
enable x
disable x
enable x
";

/// What a run of theirs ends with.
const FOUR_END: &str =
    "clock                             enable prepare protect                 rate   hw
osc                                    4       4       0             24000000    -
  gd                                   1       1       0             24000000   on
  gc                                   1       1       0             24000000   on
  gb                                   1       1       0             24000000   on
  ga                                   1       1       0             24000000   on
reg 0 0x0000000f
";

/// What a run of 64 drivers, each over a gate of its own, ends with.
const MANY_END: &str = "reg 0 0xffffffff\nreg 1 0xffffffff\n";

/// The line of their clock.
const MANY_OSC: &str =
    "osc                                   64      64       0             24000000    -";

// How many lines of a text are this one.
fn count_lines(text: &str, wanted: &str) -> usize {
    text.lines().filter(|line| *line == wanted).count()
}

#[test]
fn four_drivers_are_answered_at_each_run(rt: HostRuntime) -> Result<(), Fail> {
    for _ in 0..20 {
        let (status, out) = run_over(&rt, &["run"], FOUR.as_bytes(), &[], &[], 65_536)?;
        assert_eq!(rt; status, 0);
        let text = str::from_utf8(out.written())?;
        assert!(rt; text.as_bytes().ends_with(FOUR_END.as_bytes()));
        for answer in ["2 ok", "3 ok", "4 ok", "5 ok"] {
            for driver in ["A", "B", "C", "D"] {
                let line = format!(in rt.alloc(); "{driver}.{answer}")?;
                assert_eq!(rt; count_lines(text, line.as_str()), 1);
            }
        }
    }
    Ok(())
}

// The bundle of 64 drivers, each over a gate of its own.
fn many_drivers(rt: &HostRuntime) -> Result<String, Fail> {
    let alloc = rt.alloc();
    let mut text = String::from_str(alloc, "%bundle 1\n%clocks\nfixed osc 24000000\n")?;
    for driver in 0..64u32 {
        let (word, bit) = (driver / 32, driver % 32);
        let line = format!(in alloc; "gate g{driver} osc {word} {bit}\n")?;
        text.push_str(line.as_str())?;
    }
    text.push_str("%regs 2\n")?;
    for driver in 0..64u32 {
        let lines = format!(in alloc; "%driver w{driver}\nget x g{driver}\nprepare x\nenable x\n")?;
        text.push_str(lines.as_str())?;
    }
    Ok(text)
}

#[test]
fn sixty_four_drivers_run_over_a_bank_that_tells_nothing(rt: HostRuntime) -> Result<(), Fail> {
    let alloc = rt.alloc();
    let text = many_drivers(&rt)?;
    let bytes = Vec::from_slice(alloc, text.as_bytes())?;
    let mut input = MemSource::new(bytes, Vec::new(alloc));
    let mut out = MemSink::new(alloc, 65_536, 65_536, Vec::new(alloc))?;
    let writes = AtomicU64::new(0);
    let bank = Counting {
        bank: MemBank::new(alloc)?,
        writes: &writes,
    };
    let (status, _) = clkbench(&rt, &["run"], &mut input, &mut out, bank, &NoPause);
    assert_eq!(rt; status, 0);
    let written = str::from_utf8(out.written())?;
    assert!(rt; written.as_bytes().ends_with(MANY_END.as_bytes()));
    assert_eq!(rt; count_lines(written, MANY_OSC), 1);
    Ok(())
}
