//! Clock lines that are read: each kind, its flags in each version, its numbers, its name and its
//! parents.

use crate::clocks::{check_clock, check_refusal, read};
use bitflags::Flags;
use bundle_text::{BundleFault, Reason, TextLines};
use clk_base::{ClkFlags, ClockId, Kind};
use clock_lines::{one_verdict, read_clocks};
use std::process::Abort;
use std::test::Fail;

const GATE: Kind = Kind::Gate {
    word: 3,
    bit: 7,
    set_to_disable: false,
};

const TURNED_GATE: Kind = Kind::Gate {
    word: 3,
    bit: 7,
    set_to_disable: true,
};

const MUX: Kind = Kind::Mux {
    word: 3,
    shift: 4,
    width: 2,
    read_only: false,
};

const READ_ONLY_MUX: Kind = Kind::Mux {
    word: 3,
    shift: 4,
    width: 2,
    read_only: true,
};

const PLL: Kind = Kind::Pll {
    word: 3,
    shift: 4,
    width: 9,
    power_word: 5,
    power_bit: 31,
    least: 100,
    most: 400,
    m: 24,
};

const FACTOR: Kind = Kind::Factor { mult: 3, div: 4 };

const LARGE_FACTOR: Kind = Kind::Factor {
    mult: 1,
    div: u32::MAX,
};

const FAR_GATE: Kind = Kind::Gate {
    word: u32::MAX,
    bit: u32::MAX,
    set_to_disable: false,
};

// A divider of a field of two bits.
const fn divider(one_based: bool, power_of_two: bool) -> Kind {
    Kind::Divider {
        word: 3,
        shift: 4,
        width: 2,
        one_based,
        power_of_two,
    }
}

// A root with a rate.
const fn fixed(rate: u64) -> Kind {
    Kind::FixedRate { rate }
}

const A: ClockId = ClockId(0);

const B: ClockId = ClockId(1);

// Checks each line after two others against the kind, the flag bits and the parents of its clock.
fn check_clocks<R: Abort + AllocGlobal>(
    rt: &R,
    rows: &[(&str, Kind, u8, &[ClockId])],
) -> Result<(), Fail> {
    for (line, kind, bits, parents) in rows {
        let flags = ClkFlags::from_bits_retain(*bits);
        check_clock(rt, 1, line, *kind, flags, parents)?;
    }
    Ok(())
}

// Flag words that every kind may have in each version, with their bits.
const FLAGS: [(&str, u8); 8] = [
    ("", 0),
    ("set-rate-gate", 1),
    ("set-parent-gate", 2),
    ("set-rate-parent", 4),
    ("ignore-unused", 8),
    ("no-reparent", 16),
    ("critical", 32),
    (
        "critical no-reparent set-rate-parent ignore-unused set-rate-gate set-parent-gate",
        63,
    ),
];

// Flag words that every kind may have in version 2 alone, with their bits.
const LATER_FLAGS: [(&str, u8); 5] = [
    ("ops-parent-enable", 64),
    ("set-rate-ungate", 128),
    ("set-rate-ungate ops-parent-enable", 192),
    ("critical ops-parent-enable set-rate-gate", 97),
    (
        "critical no-reparent set-rate-ungate set-rate-parent ignore-unused ops-parent-enable set-rate-gate set-parent-gate",
        255,
    ),
];

// Checks a line in a version with each of these flag words.
fn check_flags<R: Abort + AllocGlobal>(
    rt: &R,
    version: u32,
    flags: &[(&str, u8)],
    line: &str,
    kind: Kind,
    parents: &[ClockId],
) -> Result<(), Fail> {
    for (words, bits) in flags {
        let flagged = format!(in rt.alloc(); "{line} {words}")?;
        let flags = ClkFlags::from_bits_retain(*bits);
        check_clock(rt, version, &flagged, kind, flags, parents)?;
    }
    Ok(())
}

// Checks a line by itself, with each flag that every kind has in each version, and with all of them;
// in version 1 the flag words of version 2 alone are refused.
fn check_versions<R: Abort + AllocGlobal>(
    rt: &R,
    line: &str,
    kind: Kind,
    parents: &[ClockId],
) -> Result<(), Fail> {
    check_flags(rt, 1, &FLAGS, line, kind, parents)?;
    check_flags(rt, 2, &FLAGS, line, kind, parents)?;
    check_flags(rt, 2, &LATER_FLAGS, line, kind, parents)?;
    for (words, _) in LATER_FLAGS {
        let text = format!(in rt.alloc(); "fixed a 1\nfixed b 2\n\n{line} {words}\n")?;
        check_refusal(rt, 1, &text, 4, Reason::BadFlag);
    }
    Ok(())
}

#[test]
fn each_kind_without_flags_with_each_and_with_all(rt: HostRuntime) -> Result<(), Fail> {
    check_versions(&rt, "fixed c 24000000", fixed(24000000), &[])?;
    check_versions(&rt, "factor c a 3 4", FACTOR, &[A])?;
    check_versions(&rt, "gate c b 3 7", GATE, &[B])?;
    check_versions(&rt, "mux c 3 4 2 3 b a b", MUX, &[B, A, B])?;
    check_versions(&rt, "divider c a 3 4 2", divider(false, false), &[A])?;
    check_versions(&rt, "pll c b 3 4 9 5 31 100 400 24", PLL, &[B])
}

#[test]
fn a_flag_that_a_version_does_not_know_is_told_last_of_its_line(rt: HostRuntime) {
    for (version, text, line, reason) in [
        (1, "clock a 1 set-rate-ungate", 1, Reason::UnknownKind),
        (1, "fixed set-rate-ungate", 1, Reason::BadWords),
        (1, "fixed \u{e9} 1 set-rate-ungate", 1, Reason::BadName),
        (
            1,
            "fixed a 1\nfixed a 1 set-rate-ungate",
            2,
            Reason::TwiceNamed,
        ),
        (1, "fixed a x set-rate-ungate", 1, Reason::BadNumber),
        (1, "mux a 0 0 1 x ops-parent-enable", 1, Reason::BadNumber),
        (
            1,
            "gate a none 0 0 set-rate-ungate\nfixed b x",
            1,
            Reason::BadFlag,
        ),
        (
            1,
            "gate a none 0 0\nfixed b 1 ops-parent-enable",
            2,
            Reason::BadFlag,
        ),
        (
            2,
            "gate a none 0 0 set-rate-ungate\nfixed b 1 ops-parent-enable",
            1,
            Reason::UnknownName,
        ),
        (
            2,
            "fixed a 1 set-rate-ungate set-rate-ungate",
            1,
            Reason::BadFlag,
        ),
        (2, "fixed a 1 ops-parent-enabled", 1, Reason::BadFlag),
        (2, "fixed a 1 OPS-PARENT-ENABLE", 1, Reason::BadFlag),
        (2, "fixed a 1 set-rate-ungate read-only", 1, Reason::BadFlag),
    ] {
        check_refusal(&rt, version, text, line, reason);
    }
}

#[test]
fn flags_of_single_kinds_and_numbers_at_their_limits(rt: HostRuntime) -> Result<(), Fail> {
    check_clocks(
        &rt,
        &[
            (
                "gate c a 3 7 set-to-disable critical",
                TURNED_GATE,
                32,
                &[A],
            ),
            (
                "mux c 3 4 2 1 a no-reparent read-only",
                READ_ONLY_MUX,
                16,
                &[A],
            ),
            ("divider c a 3 4 2 one-based", divider(true, false), 0, &[A]),
            (
                "divider c a 3 4 2 power-of-two",
                divider(false, true),
                0,
                &[A],
            ),
            (
                "divider c a 3 4 2 power-of-two one-based",
                divider(true, true),
                0,
                &[A],
            ),
            ("fixed c 18446744073709551615", fixed(u64::MAX), 0, &[]),
            ("fixed c 0xffffFFFFffffFFFF", fixed(u64::MAX), 0, &[]),
            ("fixed c 000", fixed(0), 0, &[]),
            ("factor c a 1 4294967295", LARGE_FACTOR, 0, &[A]),
            ("gate c a 0xFFFFffff 4294967295", FAR_GATE, 0, &[A]),
        ],
    )
}

#[test]
fn sixty_four_parents_are_the_most(rt: HostRuntime) -> Result<(), Fail> {
    let mut many = String::from_str(rt.alloc(), "fixed b 5\nmux a 0 0 6 0x40")?;
    for _ in 0..63 {
        many.push_str(" b")?;
    }
    check_refusal(&rt, 1, &many, 2, Reason::BadWords);
    many.push_str(" b")?;
    let list = read(&rt, 1, &many)?;
    assert!(rt; list.desc.len() == 2);
    for def in list.desc.as_slice().last() {
        assert!(rt; def.parents.as_slice().len() == 64);
    }
    many.push_str(" b")?;
    check_refusal(&rt, 1, &many, 2, Reason::BadFlag);
    Ok(())
}

#[test]
fn a_parent_may_stand_on_a_later_line_or_be_the_clock_itself(rt: HostRuntime) -> Result<(), Fail> {
    let list = read(
        &rt,
        1,
        "gate a c 0 0\nmux b 1 0 1 2 a c\nfixed c 5\ngate d d 0 0\n",
    )?;
    assert!(rt; list.desc.len() == 4);
    let wanted: [&[ClockId]; 4] = [&[ClockId(2)], &[A, ClockId(2)], &[], &[ClockId(3)]];
    for (def, parents) in list.desc.as_slice().iter().zip(wanted.iter()) {
        assert!(rt; def.parents.as_slice() == *parents);
    }
    one_verdict();
    Ok(())
}

#[test]
fn names_are_1_to_64_seen_characters(rt: HostRuntime) -> Result<(), Fail> {
    let longest = "n23456789012345678901234567890123456789012345678901234567890123\u{7e}";
    let text = format!(in rt.alloc(); "fixed {longest} 1\ngate %# {longest} 0 0\n")?;
    let list = read(&rt, 1, &text)?;
    assert!(rt; list.desc.len() == 2);
    let text = format!(in rt.alloc(); "fixed {longest}5 1\n")?;
    check_refusal(&rt, 1, &text, 1, Reason::BadName);
    Ok(())
}

#[test]
fn blanks_comments_and_empty_lines_are_passed_over(rt: HostRuntime) -> Result<(), Fail> {
    let text = "\t\n#\n\tfixed \t a  0x10 \r\n   # gate\n\n gate\tg a 0 1\tcritical\t";
    let list = read(&rt, 1, text)?;
    assert!(rt; list.lines.as_slice() == [3, 6].as_slice());
    assert!(rt; list.desc.len() == 2);
    let none = read(&rt, 1, "# nothing\n\n")?;
    assert!(rt; none.desc.is_empty());
    assert!(rt; none.lines.is_empty());
    Ok(())
}

#[test]
fn lines_outside_of_the_section_are_not_read(rt: HostRuntime) -> Result<(), Fail> {
    let text = "%bundle 1\n%clocks\nfixed a 1\n\ngate b a 0 0\n%regs 1\n";
    let lines = TextLines::new(rt.alloc(), text.as_bytes())?;
    let len = lines.len();
    assert!(rt; len == 6);
    let list = read_clocks(rt.alloc(), &lines, 2, 5, 1)?;
    assert!(rt; list.lines.as_slice() == [3, 5].as_slice());
    let header = BundleFault::Refused {
        line: 6,
        reason: Reason::UnknownKind,
    };
    assert!(rt; read_clocks(rt.alloc(), &lines, 2, 6, 1).is_err_and(|fault| fault == header));
    let unknown = BundleFault::Refused {
        line: 5,
        reason: Reason::UnknownName,
    };
    assert!(rt; read_clocks(rt.alloc(), &lines, 3, 5, 1).is_err_and(|fault| fault == unknown));
    Ok(())
}
