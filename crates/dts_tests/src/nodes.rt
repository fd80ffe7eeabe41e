//! What a node says by itself: faults in their order, nodes that provide nothing, and properties by
//! their names.

use crate::trees::tree_of;
use dts_bindings::{
    Node, binding, cells, clock_cells, has_property, is_consumer, is_formed, is_okay, is_provider,
    numbers, one_number, phandle, texts, two_numbers, values,
};
use dts_tree::DtsNode;
use std::alloc::Global;
use std::process::Abort;
use std::test::Fail;

// The node `clk@10` of these properties.
fn node(alloc: Global, properties: &str) -> Result<Option<DtsNode>, Fail> {
    let source = format!(in alloc; "/dts-v1/;/{{ l: clk@10 {{ {properties} }}; }};")?;
    match tree_of(alloc, source.as_str()) {
        Some(Ok(mut tree)) => Ok(tree.nodes.pop()),
        _ => Ok(None),
    }
}

/// The debug text of what a node of these properties says in a version.
pub(crate) fn said(alloc: Global, version: u32, properties: &str) -> Result<String, Fail> {
    match node(alloc, properties)? {
        Some(node) => match binding(alloc, &Node::new(&node, version)) {
            Ok(bound) => Ok(format!(in alloc; "{bound:?}")?),
            Err(fault) => Ok(format!(in alloc; "{fault:?}")?),
        },
        None => Ok(String::from_str(alloc, "no node")?),
    }
}

/// A node of these properties says this, in each version.
pub(crate) fn says(rt: &impl Abort, alloc: Global, rows: &[(&str, &str)]) -> Result<(), Fail> {
    for version in 1..3 {
        for (properties, wanted) in rows {
            let text = said(alloc, version, properties)?;
            assert!(rt; text.as_str() == *wanted, "of {properties}: {text}");
        }
    }
    Ok(())
}

#[test]
fn a_node_of_no_known_kind_comes_before_wrong_cells_and_these_before_a_missing_property(
    rt: HostRuntime,
) -> Result<(), Fail> {
    says(
        &rt,
        rt.alloc(),
        &[
            ("", "UnknownCompatible"),
            ("compatible = <1>; #clock-cells = <5>;", "UnknownCompatible"),
            ("compatible = \"fixed-clock\\\\\";", "UnknownCompatible"),
            ("compatible = \"fixed-clock\";", "NoCells"),
            ("compatible = \"fixed-clock\"; #clock-cells;", "NoCells"),
            (
                "compatible = \"fixed-clock\"; #clock-cells = <1>;",
                "NoCells",
            ),
            (
                "compatible = \"fixed-clock\"; #clock-cells = <0 0>;",
                "NoCells",
            ),
            (
                "compatible = \"fixed-clock\"; #clock-cells = <&l>;",
                "NoCells",
            ),
            (
                "compatible = \"bank,gates-clock\"; #clock-cells = <0>;",
                "NoCells",
            ),
            (
                "compatible = \"bank,gates-clock\", \"fixed-clock\"; #clock-cells = <0>;",
                "NoCells",
            ),
            (
                "compatible = \"fixed-clock\"; #clock-cells = <0>;",
                "MissingProperty",
            ),
            (
                "compatible = \"fixed-clock\", \"a\\\\b\"; #clock-cells = <0>; clock-frequency = <1>;",
                "MissingProperty",
            ),
            (
                "compatible = \"a\", <7>, \"fixed-clock\"; #clock-cells = <>, <0>; clock-frequency = <1>;",
                "Binding { cells: 0, wants: Nothing, inputs: [], clocks: [BoundClock { name: \"clk\", identifier: 0, kind: FixedRate { rate: 1 } }], flags: ClkFlags(0) }",
            ),
        ],
    )
}

// Nodes of these properties are formed or not, are okay or not, and are consumers or not.
fn judges(rt: &impl Abort, alloc: Global, rows: &[(&str, bool, bool, bool)]) -> Result<(), Fail> {
    for (properties, formed, okay, consumer) in rows {
        match node(alloc, properties)? {
            Some(node) => {
                let node = Node::new(&node, 1);
                assert!(rt; is_formed(&node) == *formed, "formed: {properties}");
                assert!(rt; is_okay(&node) == *okay, "okay: {properties}");
                assert!(rt; is_consumer(&node) == *consumer, "consumer: {properties}");
            }
            None => assert!(rt; false, "no node of {properties}"),
        }
    }
    Ok(())
}

#[test]
fn nodes_are_judged_by_status_phandle_clocks_and_what_they_assign(
    rt: HostRuntime,
) -> Result<(), Fail> {
    judges(
        &rt,
        rt.alloc(),
        &[
            ("", true, true, false),
            ("status = \"okay\"; reg = \"\\\\\";", true, true, false),
            ("status = \"ok\"; clock-names = <1>;", true, true, false),
            (
                "status = \"disabled\"; phandle = <1 2>;",
                false,
                false,
                false,
            ),
            (
                "status = \"okay\", \"okay\"; phandle = \"1\";",
                false,
                false,
                false,
            ),
            ("status; phandle = <3>;", true, false, false),
            (
                "clocks = <1>, <&l 5>; clock-names = \"a\", \"a\";",
                true,
                true,
                true,
            ),
            ("clocks; clock-names;", true, true, true),
            ("clocks = <1>, \"2\";", false, true, true),
            ("clocks = <1>; clock-names = \"a\", <1>;", false, true, true),
            ("clocks = <1>; clock-names = \"a\\n\";", false, true, true),
            ("clocks = \"1\"; #clock-cells;", true, true, false),
            (
                "assigned-clocks; assigned-clock-parents; assigned-clock-rates;",
                true,
                true,
                false,
            ),
            ("assigned-clocks = [00];", false, true, false),
            ("assigned-clock-parents = <1>, &l;", false, true, false),
            ("assigned-clock-rates = <1>, <&l>;", false, true, false),
            ("assigned-clock-rates = \"1\";", false, true, false),
        ],
    )
}

#[test]
fn properties_are_read_by_their_names(rt: HostRuntime) -> Result<(), Fail> {
    let alloc = rt.alloc();
    let source =
        "a = <1 2>, <3>; b = \"x\", \"y\"; c = <4 &l>; phandle = <9>; #clock-cells = <1>; d;";
    let Some(node) = node(alloc, source)? else {
        assert!(rt; false, "no node");
        return Ok(());
    };
    let node = Node::new(&node, 1);
    let all = cells(alloc, values(&node, "c"))?;
    let three = numbers(alloc, values(&node, "a"))?;
    let not_numbers = numbers(alloc, values(&node, "c"))?;
    let two = texts(alloc, values(&node, "b"))?;
    let not_texts = texts(alloc, values(&node, "a"))?;
    let line = node.property("d").map(|d| d.line);
    let text = format!(in alloc;
        "{all:?} {three:?} {not_numbers:?} {two:?} {not_texts:?} {line:?}"
    )?;
    assert!(rt;
        text.as_str()
            == "Some([Number(4), Node(1)]) Some([1, 2, 3]) None Some([\"x\", \"y\"]) None Some(1)",
        "{text}"
    );
    assert!(rt; one_number(values(&node, "a")).is_none());
    assert!(rt; two_numbers(values(&node, "c")).is_none());
    assert!(rt; phandle(&node) == Some(9));
    assert!(rt; clock_cells(&node) == Some(1));
    assert!(rt; is_provider(&node));
    assert!(rt; has_property(&node, "d"));
    assert!(rt; !has_property(&node, "e"));
    assert!(rt; node.name() == "clk@10");
    assert!(rt; node.line() == 1);
    assert!(rt; node.parent() == Some(0));
    Ok(())
}

#[test]
fn version_1_passes_the_properties_of_version_2_over(rt: HostRuntime) -> Result<(), Fail> {
    let alloc = rt.alloc();
    let source =
        "bank,ops-parent-enable; bank,critical; bank,set-rate-ungate = <1>; bank,set-rate;";
    let Some(read) = node(alloc, source)? else {
        assert!(rt; false, "no node");
        return Ok(());
    };
    for (name, first, second) in [
        ("bank,ops-parent-enable", false, true),
        ("bank,set-rate-ungate", false, true),
        ("bank,critical", true, true),
        ("bank,set-rate", true, true),
        ("bank,set-rate-gate", false, false),
    ] {
        assert!(rt; has_property(&Node::new(&read, 1), name) == first, "{name}");
        assert!(rt;
            has_property(&Node::new(&read, 2), name) == second,
            "{name}"
        );
    }
    Ok(())
}
