//! Lines, words, numbers and names.

use bundle_text::{
    TextLines, is_clock_name, is_driver_name, is_variable, is_word, number_up_to, number_within,
    small_number_up_to, small_number_within,
};
use clk_io::line_feeds;
use std::process::Abort;
use std::test::Fail;

#[test]
fn lines_and_their_words(rt: HostRuntime) -> Result<(), Fail> {
    let text = b"%bundle 1\r\n\nfixed  osc\t5\r\n%regs 1\nlast\r";
    let lines = TextLines::new(rt.alloc(), text)?;
    assert!(rt; lines.len() == 5);
    assert!(rt; !lines.is_empty());
    assert!(rt; lines.line(0) == b"%bundle 1".as_slice());
    assert!(rt; lines.line(1).is_empty());
    assert!(rt; lines.line(4) == b"last\r".as_slice());
    assert!(rt; lines.line(5).is_empty());
    let words = lines.words(rt.alloc(), 2)?;
    assert!(rt; words.as_slice() == ["fixed", "", "osc\t5"].as_slice());
    assert!(rt; lines.next_header(1) == 3);
    assert!(rt; line_feeds(text) == 4);
    Ok(())
}

#[test]
fn a_line_that_is_not_utf_8_has_no_words(rt: HostRuntime) -> Result<(), Fail> {
    let lines = TextLines::new(rt.alloc(), b"a\xc3\nb\n")?;
    assert!(rt; lines.len() == 2);
    assert!(rt; lines.words(rt.alloc(), 0)?.is_empty());
    assert!(rt; lines.words(rt.alloc(), 1)?.len() == 1);
    Ok(())
}

// Checks how many words the line at each place says.
fn check_counts<R: Abort + AllocGlobal>(
    rt: &R,
    lines: &TextLines,
    rows: &[(usize, usize)],
) -> Result<(), Fail> {
    for (place, words) in rows {
        assert!(rt;
            lines.said_words(rt.alloc(), *place)?.len() == *words,
            "line {place}"
        );
    }
    Ok(())
}

#[test]
fn words_between_blanks_and_comments(rt: HostRuntime) -> Result<(), Fail> {
    let text = b"\t fixed  osc\t5 \n # gate\n#\n \t\ngate #g\na\xc3 b\n";
    let lines = TextLines::new(rt.alloc(), text)?;
    let words = lines.blank_words(rt.alloc(), 0)?;
    assert!(rt; words.as_slice() == ["fixed", "osc", "5"].as_slice());
    let words = lines.blank_words(rt.alloc(), 1)?;
    assert!(rt; words.as_slice() == ["#", "gate"].as_slice());
    check_counts(
        &rt,
        &lines,
        &[(0, 3), (1, 0), (2, 0), (3, 0), (4, 2), (5, 1), (6, 0)],
    )
}

// Checks what number each word writes between a least and a most.
fn check_within<R: Abort>(rt: &R, rows: &[(u64, u64, &str, Option<u64>)]) {
    for (least, most, word, wanted) in rows {
        assert!(rt; number_within(*least, *most, word) == *wanted, "at {word}");
    }
}

#[test]
fn numbers_are_decimal_or_hexadecimal(rt: HostRuntime) {
    check_within(
        &rt,
        &[
            (1, 65536, "0", None),
            (1, 65536, "1", Some(1)),
            (1, 65536, "0x10000", Some(65536)),
            (1, 65536, "65537", None),
            (0, 255, "0xfF", Some(255)),
            (0, 255, "0x100", None),
            (0, 255, "0x", None),
            (0, 255, "0X1", None),
            (0, 255, "0x+1", None),
            (0, 255, "0xg", None),
            (0, 255, "007", Some(7)),
            (0, 255, "-1", None),
            (0, u64::MAX, "0xffffffffffffffff", Some(u64::MAX)),
            (0, u64::MAX, "0x10000000000000000", None),
        ],
    );
    assert!(rt; small_number_within(1, 5, "0x5") == Some(5));
    assert!(rt; small_number_within(1, 5, "6").is_none());
}

// Checks what number each word writes up to a most, in decimal.
fn check_up_to<R: Abort>(rt: &R, rows: &[(u64, &str, Option<u64>)]) {
    for (most, word, wanted) in rows {
        assert!(rt; number_up_to(*most, word) == *wanted, "at {word}");
    }
}

#[test]
fn numbers_are_decimal_and_bounded(rt: HostRuntime) {
    check_up_to(
        &rt,
        &[
            (31, "31", Some(31)),
            (31, "32", None),
            (31, "007", Some(7)),
            (31, "", None),
            (31, "+5", None),
            (31, "0x5", None),
            (u64::MAX, "18446744073709551615", Some(u64::MAX)),
            (u64::MAX, "18446744073709551616", None),
        ],
    );
    assert!(rt; small_number_up_to(u32::MAX, "4294967295") == Some(u32::MAX));
    assert!(rt; small_number_up_to(u32::MAX, "4294967296").is_none());
}

// Checks whether each word is a clock's name, a driver's, a variable, and a word.
fn check_names<R: Abort>(rt: &R, rows: &[(&str, bool, bool, bool, bool)]) {
    for (word, clock, driver, variable, any) in rows {
        assert!(rt; is_clock_name(word) == *clock, "clock {word}");
        assert!(rt; is_driver_name(word) == *driver, "driver {word}");
        assert!(rt; is_variable(word) == *variable, "variable {word}");
        assert!(rt; is_word(word) == *any, "word {word}");
    }
}

#[test]
fn names_have_their_characters(rt: HostRuntime) {
    check_names(
        &rt,
        &[
            ("osc24M", true, true, false, true),
            ("%x#", true, false, false, true),
            ("a_1", true, true, true, true),
            ("boot", true, false, true, true),
            ("1a-B", true, true, false, true),
            ("", false, false, false, false),
            ("a\tb", false, false, false, false),
            ("é", false, false, false, true),
        ],
    );
}
