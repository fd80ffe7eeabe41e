//! The words of sources, and the numbers that words spell.

use clk_io::MOST_BYTES;
use dts_tokens::{
    Token, is_label_character, is_name_character, is_number, number_up_to, tokens, word,
};
use std::alloc::Global;
use std::process::Abort;
use std::test::Fail;

// A line for each word: the line of the source on which it begins, and its text.
fn outline(rt: &impl Abort, alloc: Global, source: &str, found: &[Token]) -> Result<String, Fail> {
    let mut text = String::new(alloc);
    for token in found {
        assert!(rt;
            token.from <= token.to && token.to <= source.len(),
            "in {source}"
        );
        let (line, bytes) = (token.line, word(source, *token));
        let Ok(word) = std::str::from_utf8(bytes) else {
            assert!(rt; false, "half a character in {source}");
            return Ok(text);
        };
        text.push_str(format!(in alloc; "{line} {word}\n")?.as_str())?;
    }
    Ok(text)
}

// Each source has these words.
fn read(rt: &impl Abort, alloc: Global, rows: &[(&str, &str)]) -> Result<(), Fail> {
    for (source, wanted) in rows {
        if source.len() <= MOST_BYTES {
            let found = tokens(alloc, source)?;
            let text = outline(rt, alloc, source, &found)?;
            assert!(rt; text.as_str() == *wanted, "in {source}: {text}");
        }
    }
    Ok(())
}

#[test]
fn words_and_signs_have_their_lines(rt: HostRuntime) -> Result<(), Fail> {
    read(
        &rt,
        rt.alloc(),
        &[
            ("", ""),
            (" \t\n", ""),
            ("/dts-v1/;/{};", "1 /dts-v1/\n1 ;\n1 /\n1 {\n1 }\n1 ;\n"),
            (
                "a: b@1f {\nc,d = <1 0x2>;\n};",
                "1 a:\n1 b@1f\n1 {\n2 c,d\n2 =\n2 <\n2 1\n2 0x2\n2 >\n2 ;\n3 }\n3 ;\n",
            ),
            ("#a-b?c+d.e_f,g", "1 #a-b?c+d.e_f,g\n"),
            ("[00 1122]", "1 [\n1 00\n1 1122\n1 ]\n"),
            ("/memreserve/0x1 2;", "1 /memreserve/\n1 0x1\n1 2\n1 ;\n"),
        ],
    )
}

#[test]
fn a_comma_parts_values_and_joins_names(rt: HostRuntime) -> Result<(), Fail> {
    read(
        &rt,
        rt.alloc(),
        &[
            ("\"a\",\"b\"", "1 \"a\"\n1 ,\n1 \"b\"\n"),
            ("&a,&b", "1 &a\n1 ,\n1 &b\n"),
            ("bank,reg", "1 bank,reg\n"),
            ("<1>,<2>", "1 <\n1 1\n1 >\n1 ,\n1 <\n1 2\n1 >\n"),
        ],
    )
}

#[test]
fn what_is_not_adjacent_is_not_one_word(rt: HostRuntime) -> Result<(), Fail> {
    read(
        &rt,
        rt.alloc(),
        &[
            ("a :", "1 a\n1 :\n"),
            ("& a", "1 &\n1 a\n"),
            ("n @1 n@", "1 n\n1 @1\n1 n@\n"),
            ("a/*b*/c", "1 a\n1 c\n"),
            ("/ dts-v1 /", "1 /\n1 dts-v1\n1 /\n"),
        ],
    )
}

#[test]
fn comments_and_strings_may_be_long(rt: HostRuntime) -> Result<(), Fail> {
    read(
        &rt,
        rt.alloc(),
        &[
            ("a // é \"\n/* *\n/ // */ b // c", "1 a\n3 b\n"),
            ("/*/ */x", "1 x\n"),
            (
                "\"a\n/*é\\\"\" b \"\\\\\"",
                "1 \"a\n/*é\\\"\"\n2 b\n2 \"\\\\\"\n",
            ),
        ],
    )
}

#[test]
fn numbers_are_words_up_to_their_most_and_beyond_where_they_have_none(
    rt: HostRuntime,
) -> Result<(), Fail> {
    read(
        &rt,
        rt.alloc(),
        &[
            (
                "<4294967295 0xffffffff 037777777777 00000000000000000000001>",
                "1 <\n1 4294967295\n1 0xffffffff\n1 037777777777\n1 00000000000000000000001\n1 >\n",
            ),
            (
                "/memreserve/ 18446744073709551615 0xffffffffffffffff;",
                "1 /memreserve/\n1 18446744073709551615\n1 0xffffffffffffffff\n1 ;\n",
            ),
            (
                "<9999999999x 0X9999999999 099999999999>",
                "1 <\n1 9999999999x\n1 0X9999999999\n1 099999999999\n1 >\n",
            ),
            (
                "<>4294967296[4294967296]",
                "1 <\n1 >\n1 4294967296\n1 [\n1 4294967296\n1 ]\n",
            ),
            (
                "/memreserve/;99999999999999999999",
                "1 /memreserve/\n1 ;\n1 99999999999999999999\n",
            ),
        ],
    )
}

#[test]
fn numbers_and_characters_are_read(rt: HostRuntime) {
    for (text, most, wanted) in [
        ("0", 0, Some(0)),
        ("010", 100, Some(8)),
        ("0x1F", 100, Some(31)),
        ("0xfF", 255, Some(255)),
        ("19", 19, Some(19)),
        ("20", 19, None),
        ("08", 100, None),
        ("0x", 100, None),
        ("0X1", 100, None),
        ("1U", 100, None),
        ("", 100, None),
        ("+1", 100, None),
        ("18446744073709551615", u64::MAX, Some(u64::MAX)),
        ("18446744073709551616", u64::MAX, None),
    ] {
        assert!(rt; number_up_to(most, text.as_bytes()) == wanted, "at {text}");
    }
    assert!(rt; is_number(b"18446744073709551616"));
    assert!(rt; !is_number(b"0x"));
    assert!(rt; is_label_character(b'_') && !is_label_character(b'-'));
    assert!(rt; is_name_character(b'-') && !is_name_character(b'@'));
}
