//! Bundles that are read whole, and those that no line of text can show.

use bitflags::Flags;
use bundle_text::{BundleFault, Reason};
use clk_base::{Act, ClkFlags, ClockId, Command, Policy};
use drv_scripts::{Bundle, DriverName, LateLine, Listed, LockLine, one_verdict, read_bundle};
use std::process::Abort;
use std::test::Fail;

const ONE_DRIVER: &str = "%bundle 1\n%clocks\nfixed osc 24000000\ngate uart_gate osc 0 3\n%regs 1\n\
%driver A\nget u uart_gate\nprepare u\nenable u\nrate u\n";

// Checks that a text is refused at this line for this reason.
fn check_refusal<R: Abort + AllocGlobal>(rt: &R, text: &[u8], line: u32, reason: Reason) {
    let read = read_bundle(rt.alloc(), text);
    let refused = BundleFault::Refused { line, reason };
    assert!(rt; read.is_err_and(|fault| fault == refused));
}

// Checks that a bundle has one driver of this name, and its first and last command.
fn check_driver<R: Abort>(rt: &R, bundle: &Bundle, name: &str, first: Command, last: Command) {
    assert!(rt; bundle.drivers.as_slice().len() == 1);
    for script in bundle.drivers.as_slice() {
        assert!(rt; script.name.as_str() == name);
        assert!(rt; script.commands.as_slice().first() == Some(&first));
        assert!(rt; script.commands.as_slice().last() == Some(&last));
    }
}

// The command of a line that uses a variable.
fn command(line: u32, var: u32, act: Act) -> Command {
    Command {
        line,
        var: Some(var),
        act,
    }
}

#[test]
fn reads_one_driver_over_a_gate(rt: HostRuntime) -> Result<(), Fail> {
    let bundle = read_bundle(rt.alloc(), ONE_DRIVER.as_bytes())?;
    assert!(rt; bundle.desc.len() == 2);
    assert!(rt; bundle.desc.words() == 1);
    assert!(rt; bundle.clock_lines.as_slice() == [3, 4].as_slice());
    assert!(rt; bundle.words.as_slice() == [0].as_slice());
    assert!(rt; bundle.boot.as_slice().len() == 2);
    let get = command(7, 0, Act::Get(Some(ClockId(1))));
    check_driver(&rt, &bundle, "A", get, command(10, 0, Act::GetRate));
    Ok(())
}

#[test]
fn a_later_word_wins_and_unknown_names_are_kept(rt: HostRuntime) -> Result<(), Fail> {
    let text =
        b"%bundle 1\r\n%clocks\r\nfixed f 5\r\n%regs 3\r\n2 7\r\n2 9\r\n0 007\r\n%driver d-1\r\nget v none\r\nget w f\r\nrunning w";
    let bundle = read_bundle(rt.alloc(), text)?;
    assert!(rt; bundle.words.as_slice() == [7, 0, 9].as_slice());
    let get = command(9, 0, Act::Get(None));
    check_driver(&rt, &bundle, "d-1", get, command(11, 1, Act::Running));
    Ok(())
}

// Checks the act of a command by each first word.
fn check_acts<R: Abort + AllocGlobal>(rt: &R, rows: &[(&str, Act)]) -> Result<(), Fail> {
    for (word, act) in rows {
        let text = format!(in rt.alloc();
            "%bundle 1\n%clocks\n%regs 1\n%driver A\nget u f\n{word} u\n"
        )?;
        let bundle = read_bundle(rt.alloc(), text.as_bytes())?;
        let get = command(5, 0, Act::Get(None));
        check_driver(rt, &bundle, "A", get, command(6, 0, *act));
    }
    Ok(())
}

#[test]
fn each_word_has_its_act(rt: HostRuntime) -> Result<(), Fail> {
    check_acts(
        &rt,
        &[
            ("prepare", Act::Prepare),
            ("unprepare", Act::Unprepare),
            ("enable", Act::Enable),
            ("disable", Act::Disable),
            ("running", Act::Running),
            ("rate", Act::GetRate),
            ("parent", Act::GetParent),
            ("put", Act::Put),
            ("lock", Act::ExclusiveGet),
            ("unlock", Act::ExclusivePut),
        ],
    )
}

// Checks the command of each line behind a `get` of the only clock.
fn check_lines<R: Abort + AllocGlobal>(
    rt: &R,
    rows: &[(&str, Option<u32>, Act)],
) -> Result<(), Fail> {
    for (line, var, act) in rows {
        let text = format!(in rt.alloc();
            "%bundle 1\n%clocks\nfixed f 5\n%regs 1\n%driver A\nget u f\n{line}\n"
        )?;
        let bundle = read_bundle(rt.alloc(), text.as_bytes())?;
        let last = Command {
            line: 7,
            var: *var,
            act: *act,
        };
        let get = command(6, 0, Act::Get(Some(ClockId(0))));
        check_driver(rt, &bundle, "A", get, last);
    }
    Ok(())
}

#[test]
fn each_command_has_its_numbers_and_names(rt: HostRuntime) -> Result<(), Fail> {
    let all = Policy::VetoAll;
    check_lines(
        &rt,
        &[
            ("round u 0x1F", Some(0), Act::RoundRate(31)),
            (
                "set u 18446744073709551615",
                Some(0),
                Act::SetRate(u64::MAX),
            ),
            ("\tsetx  u\t007 ", Some(0), Act::SetRateExclusive(7)),
            ("range u 1 0x2", Some(0), Act::SetRange(1, 2)),
            ("reparent u f", Some(0), Act::SetParent(ClockId(0))),
            (
                "notify u 4294967295 -2147483648 accept",
                Some(0),
                Act::NotifierAdd(u32::MAX, i32::MIN, Policy::Accept),
            ),
            (
                "notify u 0 2147483647 veto",
                Some(0),
                Act::NotifierAdd(0, i32::MAX, all),
            ),
            (
                "notify u 1 -7 above 5",
                Some(0),
                Act::NotifierAdd(1, -7, Policy::VetoAbove(5)),
            ),
            (
                "notify u 1 7 below 5",
                Some(0),
                Act::NotifierAdd(1, 7, Policy::VetoBelow(5)),
            ),
            ("unnotify u 0x1", Some(0), Act::NotifierRemove(1)),
            ("probe f", None, Act::Probe(ClockId(0))),
            ("sweep", None, Act::Sweep),
        ],
    )
}

const LISTS: &str =
    "%bundle 1\n%clocks\nfixed osc 24\npll p osc 0 0 9 0 31 1 9 3\ngate g p 1 0\n%regs 2\n\
%lock\np 32\np 0x21\n%late\ng\n%driver A\n%driver B\n%order\nA B\n\nB\n";

// A lock of the second clock.
fn lock(polls: u32) -> LockLine {
    LockLine {
        clock: ClockId(1),
        polls,
    }
}

#[test]
fn reads_locks_late_clocks_and_turns(rt: HostRuntime) -> Result<(), Fail> {
    let bundle = read_bundle(rt.alloc(), LISTS.as_bytes())?;
    assert!(rt; bundle.locks.as_slice() == [lock(32), lock(33)].as_slice());
    let late = LateLine {
        clock: ClockId(2),
        line: 11,
    };
    assert!(rt; bundle.late.as_slice() == [late].as_slice());
    assert!(rt; bundle.order.as_slice() == [1, 2, 2].as_slice());
    assert!(rt; bundle.boot.as_slice().len() == 2);
    Ok(())
}

// A bundle of one driver and so many turns of it.
fn turns<R: AllocGlobal>(rt: &R, count: u32) -> Result<String, Fail> {
    let mut text = String::from_str(
        rt.alloc(),
        "%bundle 1\n%clocks\n%regs 1\n%driver A\n%order\n",
    )?;
    for _turn in 0..count {
        text.push_str("A ")?;
    }
    text.push_str("\nA")?;
    Ok(text)
}

#[test]
fn there_are_so_many_turns_at_most(rt: HostRuntime) -> Result<(), Fail> {
    let bundle = read_bundle(rt.alloc(), turns(&rt, 1_048_575)?.as_bytes())?;
    assert!(rt; bundle.order.as_slice().len() == 1_048_576);
    check_refusal(
        &rt,
        turns(&rt, 1_048_576)?.as_bytes(),
        7,
        Reason::TooManyTurns,
    );
    Ok(())
}

const BOARD: &str =
    "%bundle 1\n%dts\n/dts-v1/;\n\n/ {\n\t#address-cells = <0x01>;\n\tmodel = \"board\";\n\n\
\tosc24M {\n\t\tcompatible = \"fixed-clock\";\n\t\t#clock-cells = <0x00>;\n\t\tclock-frequency = <0x16e3600>;\n\
\t\tphandle = <0x01>;\n\t};\n\n\tclk@10 {\n\t\tcompatible = \"bank,gates-clock\";\n\t\t#clock-cells = <0x01>;\n\
\t\tclocks = <0x01>;\n\t\tbank,reg = <0x00>;\n\t\tclock-indices = <0x00 0x05>;\n\
\t\tclock-output-names = \"ahb_dma\", \"ahb_uart\";\n\t\tphandle = <0x02>;\n\t};\n};\n%regs 1\n\
%driver A\nget u ahb_uart\n";

const ASSIGNED: &str =
    "%bundle 1\n%dts\n/dts-v1/; / {\na: a { compatible = \"fixed-clock\"; #clock-cells = <0>; clock-frequency = <5>; };\n\
b: b { compatible = \"fixed-clock\"; #clock-cells = <0>; clock-frequency = <6>; };\n\
use { assigned-clocks = <&a>, <0>, <&b>; assigned-clock-rates = <7 8 9>; assigned-clock-parents = <&b>, <&b>; };\n};\n\
%regs 1\n%late\nb\n";

#[test]
fn boot_does_what_nodes_assign(rt: HostRuntime) -> Result<(), Fail> {
    let bundle = read_bundle(rt.alloc(), ASSIGNED.as_bytes())?;
    let probe = Command {
        line: 0,
        var: None,
        act: Act::Probe(ClockId(0)),
    };
    let wanted = [
        probe,
        command(0, 0, Act::Get(Some(ClockId(0)))),
        command(0, 0, Act::SetParent(ClockId(1))),
        command(0, 0, Act::Put),
        command(0, 0, Act::Get(Some(ClockId(0)))),
        command(0, 0, Act::SetRate(7)),
        command(0, 0, Act::Put),
        command(0, 0, Act::Get(Some(ClockId(1)))),
        command(0, 0, Act::SetRate(9)),
        command(0, 0, Act::Put),
    ];
    assert!(rt; bundle.boot.as_slice() == wanted.as_slice());
    assert!(rt; bundle.assigned_lines.as_slice() == [6].as_slice());
    Ok(())
}

#[test]
fn reads_a_device_tree_source(rt: HostRuntime) -> Result<(), Fail> {
    let bundle = read_bundle(rt.alloc(), BOARD.as_bytes())?;
    assert!(rt; bundle.desc.len() == 3);
    assert!(rt; bundle.clock_lines.as_slice() == [9, 16, 16].as_slice());
    assert!(rt; bundle.assigned_lines.as_slice().is_empty());
    assert!(rt; bundle.boot.as_slice().len() == 3);
    assert!(rt; bundle.desc.find("ahb_uart") == Some(ClockId(2)));
    let get = command(28, 0, Act::Get(Some(ClockId(2))));
    check_driver(&rt, &bundle, "A", get, get);
    Ok(())
}

// The flags of the second clock of a bundle, if it has two.
fn second_flags(bundle: &Bundle) -> Option<ClkFlags> {
    if bundle.desc.len() < 2 {
        return None;
    }
    Some(bundle.desc.def(ClockId(1)).flags)
}

// Checks the flags of the second clock of a bundle in a version, and that it stands on line 4.
fn check_flags<R: Abort + AllocGlobal>(
    rt: &R,
    version: u32,
    rest: &str,
    flags: ClkFlags,
) -> Result<(), Fail> {
    let text = format!(in rt.alloc(); "%bundle {version}\n{rest}")?;
    let bundle = read_bundle(rt.alloc(), text.as_bytes())?;
    assert!(rt; second_flags(&bundle) == Some(flags), "of {text}");
    assert!(rt;
        bundle.clock_lines.as_slice().last() == Some(&4),
        "of {text}"
    );
    Ok(())
}

const UNGATED_LINES: &str =
    "%clocks\nfixed ref 100\ndivider d ref 0 0 3 set-rate-ungate\n%regs 1\n";

const UNGATED_SOURCE: &str =
    "%dts\n/dts-v1/; / { ref: ref { compatible = \"fixed-clock\"; #clock-cells = <0>; clock-frequency = <100>; };\n\
d { compatible = \"bank,divider-clock\"; #clock-cells = <0>; clocks = <&ref>; bank,reg = <0>; bank,shift = <0>; bank,width = <3>; bank,critical; bank,set-rate-ungate; bank,ops-parent-enable; }; };\n\
%regs 1\n";

const FORMLESS_SOURCE: &str =
    "%dts\n/dts-v1/; / { ref: ref { compatible = \"fixed-clock\"; #clock-cells = <0>; clock-frequency = <100>; };\n\
d { compatible = \"bank,divider-clock\"; #clock-cells = <0>; clocks = <&ref>; bank,reg = <0>; bank,shift = <0>; bank,width = <3>; bank,set-rate-ungate = <1>; }; };\n\
%regs 1\n";

#[test]
fn the_version_of_a_bundle_decides_which_flags_its_clocks_may_have(
    rt: HostRuntime,
) -> Result<(), Fail> {
    check_flags(&rt, 2, UNGATED_LINES, ClkFlags::SET_RATE_UNGATE)?;
    let lines = format!(in rt.alloc(); "%bundle 1\n{UNGATED_LINES}")?;
    check_refusal(&rt, lines.as_bytes(), 4, Reason::BadFlag);
    check_flags(&rt, 2, UNGATED_SOURCE, ClkFlags::from_bits_retain(224))?;
    check_flags(&rt, 1, UNGATED_SOURCE, ClkFlags::CRITICAL)?;
    check_flags(&rt, 1, FORMLESS_SOURCE, ClkFlags::empty())?;
    let source = format!(in rt.alloc(); "%bundle 2\n{FORMLESS_SOURCE}")?;
    check_refusal(&rt, source.as_bytes(), 4, Reason::MissingProperty);
    Ok(())
}

#[test]
fn refuses_more_bytes_than_the_limit(rt: HostRuntime) -> Result<(), Fail> {
    let text = vec![in rt.alloc(); b' '; clk_io::MOST_BYTES + 1]?;
    check_refusal(&rt, &text, 0, Reason::TooLong);
    Ok(())
}

#[test]
fn bytes_that_are_no_utf_8_are_told_first(rt: HostRuntime) {
    check_refusal(&rt, b"\xff\n%clocks\n", 1, Reason::NotUtf8);
    check_refusal(&rt, b"%bundle 2\n%clocks\nget u \xc3\n", 3, Reason::NotUtf8);
}

#[test]
fn lists_and_names_give_back_what_they_hold(rt: HostRuntime) -> Result<(), Fail> {
    let listed = Listed::new([1u8, 2].to_vec(rt.alloc())?);
    assert!(rt; listed.into_vec().as_slice() == [1, 2].as_slice());
    let name = DriverName::new(String::from_str(rt.alloc(), "d")?);
    assert!(rt; name.into_text().as_str() == "d");
    one_verdict();
    bundle_clocks::one_verdict();
    Ok(())
}
