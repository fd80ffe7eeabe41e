//! The words of the program: what is read as a mode and what is refused.

use clk_cli::{Cli, CliFault, Mode, words};
use std::alloc::Global;

// What the words mean.
fn reads(alloc: Global, given: &[&str], mode: Mode, journal: bool, ignore_unused: bool) -> bool {
    let wanted = Cli {
        mode,
        journal,
        ignore_unused,
    };
    words(alloc, given) == Ok(wanted)
}

#[test]
fn reads_a_command_its_count_and_the_flags(rt: HostRuntime) {
    let alloc = rt.alloc();
    let read: [(&[&str], Mode, bool, bool); 14] = [
        (&["check"], Mode::Check, false, false),
        (&["sim"], Mode::Sim, false, false),
        (&["run"], Mode::Run, false, false),
        (&["bench", "1"], Mode::Bench(1), false, false),
        (&["bench", "9"], Mode::Bench(9), false, false),
        (&["bench", "10"], Mode::Bench(10), false, false),
        (&["bench", "64"], Mode::Bench(64), false, false),
        (&["--journal", "sim"], Mode::Sim, true, false),
        (&["sim", "--journal"], Mode::Sim, true, false),
        (&["--ignore-unused", "check"], Mode::Check, false, true),
        (
            &["bench", "--journal", "8", "--ignore-unused"],
            Mode::Bench(8),
            true,
            true,
        ),
        (&["--journal", "--", "run"], Mode::Run, true, false),
        (&["--", "bench", "2"], Mode::Bench(2), false, false),
        (&["sim", "--"], Mode::Sim, false, false),
    ];
    for (given, mode, journal, ignore_unused) in read {
        assert!(rt; reads(alloc, given, mode, journal, ignore_unused));
    }
}

#[test]
fn all_other_words_mean_nothing(rt: HostRuntime) {
    let refused: [&[&str]; 30] = [
        &[],
        &["fly"],
        &["Sim"],
        &[""],
        &["--journal"],
        &["--"],
        &["check", "1"],
        &["sim", "1"],
        &["run", "1"],
        &["sim", "sim"],
        &["bench"],
        &["bench", ""],
        &["bench", "0"],
        &["bench", "08"],
        &["bench", "+8"],
        &["bench", "-8"],
        &["bench", "8 "],
        &["bench", "0x8"],
        &["bench", "65"],
        &["bench", "18446744073709551617"],
        &["bench", "8", "8"],
        &["8", "bench"],
        &["sim", "--journal", "--journal"],
        &["sim", "--journal=x"],
        &["sim", "--journ"],
        &["sim", "-j"],
        &["sim", "-"],
        &["sim", "--help"],
        &["sim", "--version"],
        &["--", "--journal", "sim"],
    ];
    for given in refused {
        assert!(rt; words(rt.alloc(), given) == Err(CliFault::Usage));
    }
}
