//! The trees of sources.

use clk_io::MOST_BYTES;
use dts_tokens::tokens;
use dts_tree::{DtsTree, TreeFault, parse};
use std::alloc::Global;
use std::process::Abort;
use std::test::Fail;

/// The tree of a source; `None` where its tokens have a fault.
pub(crate) fn tree_of(alloc: Global, source: &str) -> Option<Result<DtsTree, TreeFault>> {
    if source.len() > MOST_BYTES {
        return None;
    }
    match tokens(alloc, source) {
        Ok(found) => Some(parse(alloc, source, &found)),
        Err(_) => None,
    }
}

// A line for each node and, below it, one for each of its properties.
fn outline(alloc: Global, tree: &DtsTree) -> Result<String, Fail> {
    let mut text = String::new(alloc);
    for node in &tree.nodes {
        let (name, line, parent) = (node.name.as_str(), node.line, node.parent);
        text.push_str(format!(in alloc; "{line} '{name}' in {parent:?}\n")?.as_str())?;
        for property in &node.properties {
            let (name, line, values) = (property.name.as_str(), property.line, &property.values);
            text.push_str(format!(in alloc; "  {line} {name} {values:?}\n")?.as_str())?;
        }
    }
    Ok(text)
}

/// Each source is accepted, and this is the outline of its tree.
pub(crate) fn reads(rt: &impl Abort, alloc: Global, rows: &[(&str, &str)]) -> Result<(), Fail> {
    for (source, wanted) in rows {
        match tree_of(alloc, source) {
            Some(Ok(tree)) => {
                let text = outline(alloc, &tree)?;
                assert!(rt; text.as_str() == *wanted, "in {source}: {text}");
            }
            Some(Err(fault)) => assert!(rt; false, "{fault} in {source}"),
            None => assert!(rt; false, "no tokens: {source}"),
        }
    }
    Ok(())
}

#[test]
fn constructs_have_their_trees(rt: HostRuntime) -> Result<(), Fail> {
    reads(
        &rt,
        rt.alloc(),
        &[
            ("/dts-v1/;/{};", "1 '' in None\n"),
            (
                "/dts-v1/;\n/memreserve/ 0x1 010;\n/memreserve/ 1 18446744073709551615;\n/{ };",
                "4 '' in None\n",
            ),
            (
                "/dts-v1/; /{\na: b: n@1f {};\np = <&a 0x10 010 10>,&b,\"x\\\"y\",[0011 fF];\nmark;\n};",
                "1 '' in None\n  3 p [Cells([Node(1), Number(16), Number(8), Number(10)]), Node(1), Text(\"x\\\\\\\"y\"), Bytes([0, 17, 255])]\n  4 mark []\n2 'n@1f' in Some(0)\n",
            ),
            (
                "/dts-v1/;/{ n { n { p = < >, [ ]; }; p; }; n2 { l: p = \"a\",\"b\"; }; };",
                "1 '' in None\n1 'n' in Some(0)\n  1 p []\n1 'n' in Some(1)\n  1 p [Cells([]), Bytes([])]\n1 'n2' in Some(0)\n  1 p [Text(\"a\"), Text(\"b\")]\n",
            ),
        ],
    )
}

#[test]
fn details_of_the_syntax_are_read(rt: HostRuntime) -> Result<(), Fail> {
    reads(
        &rt,
        rt.alloc(),
        &[
            (
                "/dts-v1/;/{\nbank,reg=<1>;\nn{};\n};",
                "1 '' in None\n  2 bank,reg [Cells([Number(1)])]\n3 'n' in Some(0)\n",
            ),
            (
                "/dts-v1/;/{\np=\"a\",\"b\";\n};",
                "1 '' in None\n  2 p [Text(\"a\"), Text(\"b\")]\n",
            ),
            (
                "/dts-v1/;/{\na:m{};\nb:n{};\np=&a,&b;\n};",
                "1 '' in None\n  4 p [Node(1), Node(2)]\n2 'm' in Some(0)\n3 'n' in Some(0)\n",
            ),
            (
                "/dts-v1/;/{\np=< 0x03 0x06>;\n};",
                "1 '' in None\n  2 p [Cells([Number(3), Number(6)])]\n",
            ),
            (
                "/dts-v1/;/{\np=[001122];\nq=[ 00 1122 ];\nr=[];\n};",
                "1 '' in None\n  2 p [Bytes([0, 17, 34])]\n  3 q [Bytes([0, 17, 34])]\n  4 r [Bytes([])]\n",
            ),
            (
                "/dts-v1/;/{\nn{};\na:b:m{};\np=<&b>,&a;\n};",
                "1 '' in None\n  4 p [Cells([Node(2)]), Node(2)]\n2 'n' in Some(0)\n3 'm' in Some(0)\n",
            ),
            (
                "/dts-v1/;/{\nm{\nn{};\np;\n};\nq;\n};",
                "1 '' in None\n  6 q []\n2 'm' in Some(0)\n  4 p []\n3 'n' in Some(1)\n",
            ),
            (
                "/dts-v1/; // one\n/ /* two\n*/ { p = \"// é \\\" */\"; };",
                "2 '' in None\n  3 p [Text(\"// é \\\\\\\" */\")]\n",
            ),
        ],
    )
}
