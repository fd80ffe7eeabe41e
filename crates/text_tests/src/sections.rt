//! The sections of a bundle, and which line is out of place.

use bundle_sections::{
    BankSection, ClockSection, ClockText, Header, one_verdict, read_sections, version_of,
};
use bundle_text::{BundleFault, Reason, TextLines};
use clk_io::line_feeds;
use std::process::Abort;
use std::test::Fail;

// Reads the sections of a text, and checks that it is refused at this line for this reason.
fn check_refusal<R: Abort + AllocGlobal>(
    rt: &R,
    text: &[u8],
    line: u32,
    reason: Reason,
) -> Result<(), Fail> {
    let lines = TextLines::new(rt.alloc(), text)?;
    assert!(rt; lines.len() < 1000);
    let end = line_feeds(text).min(1000) as u32 + 1;
    let refused = BundleFault::Refused { line, reason };
    assert!(rt; read_sections(rt.alloc(), &lines, end).is_err_and(|fault| fault == refused));
    Ok(())
}

// A bundle of each section.
const WHOLE: &[u8] =
    b"%bundle 1\r\n# a board\n\n%clocks\nfixed osc 5\n%regs\t0x10 \n0 1\n%lock\n%late\nosc\n\
%driver a\nget u osc\n%driver b-2 /serial@400\n%order\na b-2";

#[test]
fn reads_the_clocks_and_the_bank_with_their_lines(rt: HostRuntime) -> Result<(), Fail> {
    let lines = TextLines::new(rt.alloc(), WHOLE)?;
    assert!(rt; lines.len() < 1000);
    let sections = read_sections(rt.alloc(), &lines, 15)?;
    let clocks = ClockSection {
        text: ClockText::Lines,
        place: 3,
        end: 5,
    };
    assert!(rt; sections.clocks() == clocks);
    let bank = BankSection {
        words: 16,
        place: 5,
        end: 7,
    };
    assert!(rt; sections.bank() == bank);
    one_verdict();
    Ok(())
}

#[test]
fn reads_the_other_sections_with_their_lines(rt: HostRuntime) -> Result<(), Fail> {
    let lines = TextLines::new(rt.alloc(), WHOLE)?;
    assert!(rt; lines.len() < 1000);
    let sections = read_sections(rt.alloc(), &lines, 15)?;
    let others = [
        (Header::Lock, 7, 8),
        (Header::Late, 8, 10),
        (
            Header::Driver {
                name: "a",
                path: None,
            },
            10,
            12,
        ),
        (
            Header::Driver {
                name: "b-2",
                path: Some("/serial@400"),
            },
            12,
            13,
        ),
        (Header::Order, 13, 15),
    ];
    assert!(rt; sections.others().len() == others.len());
    for (section, (header, place, end)) in sections.others().iter().zip(others.iter()) {
        assert!(rt; section.header == *header);
        assert!(rt; section.place == *place);
        assert!(rt; section.end == *end);
    }
    Ok(())
}

#[test]
fn a_header_within_a_source_ends_it(rt: HostRuntime) -> Result<(), Fail> {
    let text = b"%bundle 1\n%dts\n/dts-v1/; /* \n%regs 1\n";
    let lines = TextLines::new(rt.alloc(), text)?;
    assert!(rt; lines.len() < 1000);
    let sections = read_sections(rt.alloc(), &lines, 5)?;
    let clocks = ClockSection {
        text: ClockText::DeviceTree,
        place: 1,
        end: 3,
    };
    assert!(rt; sections.clocks() == clocks);
    assert!(rt; sections.bank().words == 1);
    assert!(rt; sections.others().is_empty());
    Ok(())
}

#[test]
fn lines_must_be_utf_8_before_all_else(rt: HostRuntime) -> Result<(), Fail> {
    for (text, line) in [
        (b"\xff".as_slice(), 1),
        (b"%bundle 2\nx\n\x80\n", 3),
        (b"%bundle 1\n%clocks\n\xc3\nfixed\n", 3),
        (b"%bundle 1\n%clocks\n%regs 1\n# \xe2\x82\r\n", 4),
    ] {
        check_refusal(&rt, text, line, Reason::NotUtf8)?;
    }
    Ok(())
}

#[test]
fn the_first_line_states_version_1_or_2(rt: HostRuntime) -> Result<(), Fail> {
    for (text, version) in [
        (b"%bundle 1\n%clocks\n%regs 1\n".as_slice(), 1),
        (b"%bundle 1\r\n%clocks\r\n%regs 1\r\n", 1),
        (b"%bundle 2\n%clocks\n%regs 1\n", 2),
        (b"%bundle 2\r\n%dts\r\n%regs 1\r\n", 2),
        (b"%bundle 2\n# %bundle 1\n%dts\n%regs 1", 2),
    ] {
        let lines = TextLines::new(rt.alloc(), text)?;
        assert!(rt; lines.len() < 1000);
        let sections = read_sections(rt.alloc(), &lines, 9)?;
        assert!(rt; sections.bank().words == 1);
        assert!(rt; version_of(&lines) == version);
    }
    Ok(())
}

#[test]
fn any_other_first_line_is_a_bad_version(rt: HostRuntime) -> Result<(), Fail> {
    for text in [
        b"".as_slice(),
        b"\n%bundle 2\n%clocks\n%regs 1\n",
        b"%bundle 3\n%clocks\n%regs 1\n",
        b"%bundle 0\n%clocks\n%regs 1\n",
        b"%bundle 21\n%clocks\n%regs 1\n",
        b"%bundle 12\n%clocks\n%regs 1\n",
        b"%bundle 2 \n%clocks\n%regs 1\n",
        b"%bundle 2\t\n%clocks\n%regs 1\n",
        b" %bundle 2\n%clocks\n%regs 1\n",
        b"%bundle  2\n%clocks\n%regs 1\n",
        b"%bundle\t2\n%clocks\n%regs 1\n",
        b"%bundle 02\n%clocks\n%regs 1\n",
        b"%bundle 0x2\n%clocks\n%regs 1\n",
        b"%bundle 2 1\n%clocks\n%regs 1\n",
        b"%bundle 2.0\n%clocks\n%regs 1\n",
        b"%Bundle 2\n%clocks\n%regs 1\n",
        b"%bundle\n%clocks\n%regs 1\n",
        b"\xef\xbb\xbf%bundle 2\n%clocks\n%regs 1\n",
    ] {
        check_refusal(&rt, text, 1, Reason::BadVersion)?;
    }
    check_refusal(&rt, b"%bundle 2", 1, Reason::MissingSection)?;
    check_refusal(&rt, b"%bundle 2\n%bundle 2\n", 2, Reason::UnknownSection)
}

// A bundle of so many drivers that states no order.
fn drivers<R: AllocGlobal>(rt: &R, count: u32) -> Result<String, Fail> {
    let mut text = String::from_str(rt.alloc(), "%bundle 1\n%clocks\n%regs 1\n")?;
    for driver in 1..=count.min(100) {
        let line = format!(in rt.alloc(); "%driver d{driver}\n")?;
        text.push_str(line.as_str())?;
    }
    text.push_str("%order\n")?;
    Ok(text)
}

#[test]
fn sixty_four_drivers_are_the_most(rt: HostRuntime) -> Result<(), Fail> {
    let text = drivers(&rt, 64)?;
    let lines = TextLines::new(rt.alloc(), text.as_bytes())?;
    assert!(rt; lines.len() < 1000);
    let sections = read_sections(rt.alloc(), &lines, 69)?;
    assert!(rt; sections.others().len() == 65);
    Ok(())
}
