//! Sources that are refused, each with its fault and the line of it, and how deep nodes may nest.

use crate::trees::tree_of;
use clk_io::MOST_BYTES;
use dts_tokens::{TokenFault, tokens};
use dts_tree::TreeFault;
use std::alloc::Global;
use std::process::Abort;
use std::test::Fail;

// Each source has no tokens, for this reason.
fn are_uncut(rt: &impl Abort, alloc: Global, rows: &[(&str, TokenFault)]) {
    for (source, wanted) in rows {
        if source.len() <= MOST_BYTES {
            match tokens(alloc, source) {
                Ok(_) => assert!(rt; false, "accepted: {source}"),
                Err(fault) => assert!(rt; fault == *wanted, "{fault} in {source}"),
            }
        }
    }
}

// The source has tokens and no tree, for this reason.
fn is_refused(rt: &impl Abort, alloc: Global, source: &str, wanted: TreeFault) {
    match tree_of(alloc, source) {
        Some(Ok(_)) => assert!(rt; false, "accepted: {source}"),
        Some(Err(fault)) => assert!(rt; fault == wanted, "{fault} in {source}"),
        None => assert!(rt; false, "no tokens: {source}"),
    }
}

// Each source has tokens and no tree, for this reason.
fn are_refused(rt: &impl Abort, alloc: Global, rows: &[(&str, TreeFault)]) {
    for (source, wanted) in rows {
        is_refused(rt, alloc, source, *wanted);
    }
}

#[test]
fn bad_characters_and_open_ends_are_told_with_their_lines(rt: HostRuntime) {
    are_uncut(
        &rt,
        rt.alloc(),
        &[
            ("!", TokenFault::BadChar(1)),
            ("a\n\tb = (1)", TokenFault::BadChar(2)),
            ("a\n// é\né", TokenFault::BadChar(3)),
            ("a\r\n", TokenFault::BadChar(1)),
            ("/*\n*/\n*", TokenFault::BadChar(3)),
            ("\"\n\n\"\\", TokenFault::BadChar(3)),
            ("\"", TokenFault::OpenString(1)),
            ("a\n\"b\n\nc", TokenFault::OpenString(2)),
            ("\n\n\"\\\"", TokenFault::OpenString(3)),
            ("\n\"\\", TokenFault::OpenString(2)),
            ("/*", TokenFault::OpenComment(1)),
            ("a\n/*/\n", TokenFault::OpenComment(2)),
            ("// /*\n\"/*\"\n/* \n*", TokenFault::OpenComment(3)),
        ],
    );
}

#[test]
fn numbers_that_are_too_big_are_told_with_their_lines(rt: HostRuntime) {
    are_uncut(
        &rt,
        rt.alloc(),
        &[
            ("<4294967296>", TokenFault::NumberTooBig(1)),
            ("<1\n\t0x100000000>", TokenFault::NumberTooBig(2)),
            ("<\n\n040000000000>", TokenFault::NumberTooBig(3)),
            (
                "<;\n99999999999999999999999999999999999999999",
                TokenFault::NumberTooBig(2),
            ),
            (
                "/memreserve/ 0 18446744073709551616;",
                TokenFault::NumberTooBig(1),
            ),
            (
                "/memreserve/\n0x10000000000000000;",
                TokenFault::NumberTooBig(2),
            ),
            (
                "/memreserve/\n\n02000000000000000000000",
                TokenFault::NumberTooBig(3),
            ),
            ("/memreserve/ <\n4294967296", TokenFault::NumberTooBig(2)),
        ],
    );
}

#[test]
fn the_earliest_fault_is_told(rt: HostRuntime) {
    are_uncut(
        &rt,
        rt.alloc(),
        &[
            ("<4294967296\n!", TokenFault::NumberTooBig(1)),
            ("!\n\"", TokenFault::BadChar(1)),
            ("\"\n/*", TokenFault::OpenString(1)),
            ("/*\n\"!", TokenFault::OpenComment(1)),
        ],
    );
}

#[test]
fn what_is_no_syntax_is_refused_at_its_line(rt: HostRuntime) {
    are_refused(
        &rt,
        rt.alloc(),
        &[
            ("", TreeFault::Syntax(1)),
            ("\n\n", TreeFault::Syntax(1)),
            ("/dts-v1/;\n", TreeFault::Syntax(1)),
            ("/dts-v1/;\n/{", TreeFault::Syntax(2)),
            ("/{};", TreeFault::Syntax(1)),
            ("/dts-v1/;/{};\n/{};", TreeFault::Syntax(2)),
            ("/dts-v1/;\na: /{};", TreeFault::Syntax(2)),
            ("/dts-v1/;/{\nname : n {};};", TreeFault::Syntax(2)),
            ("/dts-v1/;/{p = & \na;};", TreeFault::Syntax(1)),
            ("/dts-v1/;/{n\n@1 {};};", TreeFault::Syntax(2)),
            ("/dts-v1/;/{\nn@ {};};", TreeFault::Syntax(2)),
            ("/dts-v1/;/{\np = ;};", TreeFault::Syntax(2)),
            ("/dts-v1/;/{p = <08>;};", TreeFault::Syntax(1)),
            ("/dts-v1/;/{p = <0x\n>;};", TreeFault::Syntax(1)),
            ("/dts-v1/;/{p = <1U>;};", TreeFault::Syntax(1)),
            ("/dts-v1/;/{p = [\n001];};", TreeFault::Syntax(2)),
            ("/dts-v1/;/{a@1 = <1>;};", TreeFault::Syntax(1)),
            ("/dts-v1/;/{1a: n {};};", TreeFault::Syntax(1)),
            ("/dts-v1/;/{p = \"a\" \"b\";};", TreeFault::Syntax(1)),
            ("/dts-v1/;/{p = &a;\n", TreeFault::Syntax(1)),
        ],
    );
}

#[test]
fn what_stands_twice_or_nowhere_is_refused_at_its_line(rt: HostRuntime) {
    are_refused(
        &rt,
        rt.alloc(),
        &[
            ("/dts-v1/;/{n {\n};\nn\n{\n};};", TreeFault::TwiceDefined(3)),
            ("/dts-v1/;/{p;\np\n= <1>;};", TreeFault::TwiceDefined(2)),
            ("/dts-v1/;/{a: n {};\na: p;};", TreeFault::TwiceDefined(2)),
            (
                "/dts-v1/;/{n { phandle = <1>; };\nm { phandle =\n<0x1>; };};",
                TreeFault::TwiceDefined(3),
            ),
            ("/dts-v1/;/{p = <&a>,\n<&b>;};", TreeFault::NoSuchLabel(1)),
            (
                "/dts-v1/;/{l: p = <1>;\nq = &l;};",
                TreeFault::NoSuchLabel(2),
            ),
            (
                "/dts-v1/;/{a: n {};\nq = <&a\n&b>;};",
                TreeFault::NoSuchLabel(3),
            ),
        ],
    );
}

// So many nodes nested in a root, one on each line, and this in the innermost.
fn nested(alloc: Global, depth: u32, inside: &str) -> Result<String, Fail> {
    let mut source = String::from_str(alloc, "/dts-v1/;/{\n")?;
    for _ in 0..depth {
        source.push_str("n {\n")?;
    }
    source.push_str(inside)?;
    for _ in 0..depth {
        source.push_str("};")?;
    }
    source.push_str("};")?;
    Ok(source)
}

#[test]
fn nodes_nest_64_deep(rt: HostRuntime) -> Result<(), Fail> {
    for (depth, inside, count) in [(63, "", 64), (62, "m {}; n {};\np;\n", 65)] {
        let source = nested(rt.alloc(), depth, inside)?;
        match tree_of(rt.alloc(), source.as_str()) {
            Some(Ok(tree)) => assert!(rt; tree.nodes.len() == count, "{depth} deep: {inside}"),
            _ => assert!(rt; false, "refused {depth} deep: {inside}"),
        }
    }
    Ok(())
}

#[test]
fn nodes_below_64_others_are_refused(rt: HostRuntime) -> Result<(), Fail> {
    for (depth, inside, line) in [
        (64, "", 65),
        (63, "a: n\n{};\n", 65),
        (63, "p;\nm { n { }; };\n", 66),
        (63, "p = <&a>;\nl: k: m@1 {};\nm@1 {};\n", 66),
    ] {
        let source = nested(rt.alloc(), depth, inside)?;
        is_refused(&rt, rt.alloc(), source.as_str(), TreeFault::TooDeep(line));
    }
    Ok(())
}
