//! What boards say of clocks, and the faults for which boards are refused.

use crate::trees::tree_of;
use bitflags::Flags;
use clk_base::{ClkFlags, ClockId};
use dts_clocks::{DtsFault, Loaded, read_desc};
use dts_tree::DtsTree;
use std::alloc::Global;
use std::process::Abort;
use std::test::Fail;

// What a source says of clocks in a version; `None` if it is no tree.
fn read(alloc: Global, version: u32, source: &str) -> Option<Result<Loaded, DtsFault>> {
    match tree_of(alloc, source) {
        Some(Ok(tree)) => Some(read_desc(alloc, &tree, version)),
        _ => None,
    }
}

const BOARD: &str = "/dts-v1/;
/ {
osc: osc { compatible = \"fixed-clock\"; #clock-cells = <0>; clock-frequency = <24000000>; phandle = <7>; };
clk: clk@10 { compatible = \"bank,gates-clock\"; #clock-cells = <1>; clocks = <7>; bank,reg = <0>; clock-indices = <0 5>; clock-output-names = \"dma\", \"uart\"; };
mux { compatible = \"bank,mux-clock\"; #clock-cells = <0>; clocks = <&osc>, <&clk 5>; bank,reg = <1>; bank,shift = <0>; bank,width = <1>; };
off { status = \"disabled\"; clk { #clock-cells = <3>; }; };
bus { serial@400 { clocks = <&clk 5 0>, <&osc>; clock-names = \"baud\"; assigned-clocks = <&osc 0 &clk 0>; assigned-clock-parents = <&osc>; assigned-clock-rates = <1 2 3>; }; };
};
";

/// The lines, consumers and assigned clocks of that board.
const SAID: &str = "[3, 4, 4, 5]
[Consumer { path: \"/bus/serial@400\", names: [ConsumerName { name: \"baud\", clock: Some(ClockId(2)) }, ConsumerName { name: \"1\", clock: None }, ConsumerName { name: \"2\", clock: Some(ClockId(0)) }] }]
[Assigned { line: 7, steps: [Parent { clock: ClockId(0), parent: ClockId(0) }, Rate { clock: ClockId(0), rate: 1 }, Rate { clock: ClockId(1), rate: 3 }] }]";

#[test]
fn a_board_is_read(rt: HostRuntime) -> Result<(), Fail> {
    let alloc = rt.alloc();
    match read(alloc, 1, BOARD) {
        Some(Ok(loaded)) => {
            assert!(rt; loaded.desc.len() == 4);
            match loaded.desc.as_slice().last() {
                Some(def) => {
                    assert!(rt; def.name.as_str() == "mux");
                    assert!(rt; def.parents.as_slice() == [ClockId(0), ClockId(2)].as_slice());
                }
                None => assert!(rt; false, "no clock"),
            }
            let (lines, consumers, assigned) = (&loaded.lines, &loaded.consumers, &loaded.assigned);
            let text = format!(in alloc; "{lines:?}\n{consumers:?}\n{assigned:?}")?;
            assert!(rt; text.as_str() == SAID, "{text}");
        }
        Some(Err(fault)) => assert!(rt; false, "{fault}"),
        None => assert!(rt; false, "no tree"),
    }
    Ok(())
}

const GATES: &str = "/dts-v1/;
/ {
osc: osc { compatible = \"fixed-clock\"; #clock-cells = <0>; clock-frequency = <24000000>; };
clk { compatible = \"bank,gates-clock\"; #clock-cells = <1>; clocks = <&osc>; bank,reg = <2>; clock-output-names = \"dma\", \"uart\"; };
};
";

// Whether a tree is read, and its description is valid for a bank of so many words.
fn is_valid(alloc: Global, tree: &DtsTree, words: u32) -> bool {
    match read_desc(alloc, tree, 1) {
        Ok(loaded) => loaded.desc.check(alloc, words).is_ok(),
        Err(_) => false,
    }
}

#[test]
fn a_description_that_is_read_can_be_checked(rt: HostRuntime) {
    let alloc = rt.alloc();
    match tree_of(alloc, GATES) {
        Some(Ok(tree)) => {
            assert!(rt; is_valid(alloc, &tree, 3), "three words");
            assert!(rt; !is_valid(alloc, &tree, 2), "two words");
        }
        _ => assert!(rt; false, "no tree"),
    }
}

// A board with a divider `d` of these flags, which stands on line 2, in a version: the bits of its
// flags, or the fault.
fn divider_flags(
    alloc: Global,
    version: u32,
    flags: &str,
) -> Result<Option<Result<ClkFlags, DtsFault>>, Fail> {
    let source = format!(in alloc;
        "/dts-v1/;/{{ o: o {{ compatible = \"fixed-clock\"; #clock-cells = <0>; clock-frequency = <1>; }};\n\
d {{ compatible = \"bank,divider-clock\"; #clock-cells = <0>; clocks = <&o>; bank,reg = <0>; bank,shift = <0>; bank,width = <3>; {flags} }}; }};"
    )?;
    match read(alloc, version, source.as_str()) {
        Some(Ok(loaded)) => Ok(loaded.desc.as_slice().last().map(|def| Ok(def.flags))),
        Some(Err(fault)) => Ok(Some(Err(fault))),
        None => Ok(None),
    }
}

#[test]
fn a_board_is_read_in_its_version(rt: HostRuntime) -> Result<(), Fail> {
    let alloc = rt.alloc();
    let flags = "bank,critical; bank,set-rate-ungate;";
    let all = ClkFlags::CRITICAL.union(ClkFlags::SET_RATE_UNGATE);
    assert!(rt; divider_flags(alloc, 1, flags)? == Some(Ok(ClkFlags::CRITICAL)));
    assert!(rt; divider_flags(alloc, 2, flags)? == Some(Ok(all)));
    let parent = "bank,ops-parent-enable;";
    assert!(rt; divider_flags(alloc, 1, parent)? == Some(Ok(ClkFlags::empty())));
    assert!(rt; divider_flags(alloc, 2, parent)? == Some(Ok(ClkFlags::OPS_PARENT_ENABLE)));
    let formless = "bank,ops-parent-enable = <1>;";
    assert!(rt; divider_flags(alloc, 1, formless)? == Some(Ok(ClkFlags::empty())));
    assert!(rt; divider_flags(alloc, 2, formless)? == Some(Err(DtsFault::MissingProperty(2))));
    Ok(())
}

// A board with these nodes beside its oscillator `o` on line 1 is refused for this fault, in each
// version.
fn are_refused(rt: &impl Abort, alloc: Global, rows: &[(&str, DtsFault)]) -> Result<(), Fail> {
    for version in 1..3 {
        for (nodes, wanted) in rows {
            let source = format!(in alloc;
                "/dts-v1/;/{{ o: o {{ compatible = \"fixed-clock\"; #clock-cells = <0>; clock-frequency = <1>; }};{nodes}}};"
            )?;
            match read(alloc, version, source.as_str()) {
                Some(Ok(_)) => assert!(rt; false, "accepted: {nodes}"),
                Some(Err(fault)) => assert!(rt; fault == *wanted, "{fault} in {nodes}"),
                None => assert!(rt; false, "no tree: {nodes}"),
            }
        }
    }
    Ok(())
}

#[test]
fn nodes_are_refused_at_their_lines(rt: HostRuntime) -> Result<(), Fail> {
    are_refused(
        &rt,
        rt.alloc(),
        &[
            (
                "\nx { compatible = \"what\"; #clock-cells = <0>; };",
                DtsFault::UnknownCompatible(2),
            ),
            (
                "\nx { compatible = \"fixed-clock\"; #clock-cells = <1>; };",
                DtsFault::NoCells(2),
            ),
            (
                "\nx { compatible = \"fixed-clock\"; #clock-cells = <0>; };",
                DtsFault::MissingProperty(2),
            ),
            (
                "\nx { compatible = \"bank,gate-clock\"; #clock-cells = <0>; clocks = <&o>, <&o>; bank,reg = <0>; bank,bit = <0>; };",
                DtsFault::MissingProperty(2),
            ),
            (
                "\nx { compatible = \"bank,gate-clock\"; #clock-cells = <0>; clocks = <0>; bank,reg = <0>; bank,bit = <0>; };",
                DtsFault::BadSpecifier(2),
            ),
            (
                "\nx { compatible = \"fixed-clock\"; #clock-cells = <0>; clock-frequency = <1>; clock-output-names = \"a b\"; };",
                DtsFault::BadName(2),
            ),
            (
                "\nx { compatible = \"fixed-clock\"; #clock-cells = <0>; clock-frequency = <1>; clock-output-names = \"o\"; };",
                DtsFault::TwiceNamed(2),
            ),
            (
                "\nx { clocks = <&o>; clock-names = \"a\", \"b\"; };",
                DtsFault::BadSpecifier(2),
            ),
            ("\nx: x { clocks = <&x>; };", DtsFault::BadSpecifier(2)),
            (
                "\nx { assigned-clock-rates = <1>; };",
                DtsFault::BadAssigned(2),
            ),
            (
                "\nx { assigned-clocks = <&o>; assigned-clock-rates = <1 2>; };",
                DtsFault::BadAssigned(2),
            ),
            (
                "\nx: x { clocks = <&x>; };\ny { compatible = \"what\"; #clock-cells = <0>; };",
                DtsFault::UnknownCompatible(3),
            ),
        ],
    )
}
