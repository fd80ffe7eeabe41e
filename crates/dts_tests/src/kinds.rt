//! Each kind of provider: with all its properties, with each out of its form, and without each, in
//! each version; and its flags of version 2.

use crate::nodes::{said, says};
use std::alloc::Global;
use std::process::Abort;
use std::test::Fail;

/// A property in its form, one out of it, and whether it has to be there.
#[derive(Clone, Copy)]
struct Case {
    good: &'static str,
    bad: &'static str,
    needed: bool,
}

// A property that has to be there.
const fn needed(good: &'static str, bad: &'static str) -> Case {
    Case {
        good,
        bad,
        needed: true,
    }
}

// A property that may be left out.
const fn optional(good: &'static str, bad: &'static str) -> Case {
    Case {
        good,
        bad,
        needed: false,
    }
}

// The head and the good properties, but this one, for which another stands.
fn changed(
    alloc: Global,
    head: &str,
    cases: &[Case],
    place: usize,
    other: &str,
) -> Result<String, Fail> {
    let mut text = String::from_str(alloc, head)?;
    for (k, case) in cases.iter().enumerate() {
        text.push_str(if k == place { other } else { case.good })?;
    }
    Ok(text)
}

// All properties together say what is wanted; each one out of its form is refused, and each one
// left out if it has to be there. It is so in each version.
fn judges(
    rt: &impl Abort,
    alloc: Global,
    head: &str,
    cases: &[Case],
    wanted: &str,
) -> Result<(), Fail> {
    let whole = changed(alloc, head, cases, cases.len(), "")?;
    says(rt, alloc, &[(whole.as_str(), wanted)])?;
    for (k, case) in cases.iter().enumerate() {
        let wrong = changed(alloc, head, cases, k, case.bad)?;
        says(rt, alloc, &[(wrong.as_str(), "MissingProperty")])?;
        let without = changed(alloc, head, cases, k, "")?;
        for version in 1..3 {
            let text = said(alloc, version, without.as_str())?;
            let refused = text.as_str() == "MissingProperty";
            assert!(rt; refused == case.needed, "of {without}");
        }
    }
    Ok(())
}

#[test]
fn each_property_of_an_oscillator_has_its_form(rt: HostRuntime) -> Result<(), Fail> {
    judges(
        &rt,
        rt.alloc(),
        "compatible = \"vendor,osc\", \"fixed-clock\"; #clock-cells = <0x0>; clocks = \"not read\"; bank,critical = <1>; bank,set-rate-ungate = <1>; bank,ops-parent-enable = <1>;",
        &[
            needed(
                "clock-frequency = <24000000>;",
                "clock-frequency = <0 24000000>;",
            ),
            optional(
                "clock-output-names = \"osc\";",
                "clock-output-names = \"osc\", \"b\";",
            ),
            optional("phandle = <7>;", "phandle = \"7\";"),
        ],
        "Binding { cells: 0, wants: Nothing, inputs: [], clocks: [BoundClock { name: \"osc\", identifier: 0, kind: FixedRate { rate: 24000000 } }], flags: ClkFlags(0) }",
    )
}

#[test]
fn each_property_of_a_factor_has_its_form(rt: HostRuntime) -> Result<(), Fail> {
    judges(
        &rt,
        rt.alloc(),
        "compatible = \"fixed-factor-clock\"; #clock-cells = <0>;",
        &[
            needed("clocks = <&l>, <5>;", "clocks = <>;"),
            needed("clock-mult = <0>;", "clock-mult = <&l>;"),
            needed("clock-div = <3>;", "clock-div = [03];"),
            optional(
                "clock-output-names = \"half\";",
                "clock-output-names = \"ha\\\"lf\";",
            ),
            optional("bank,set-rate-gate;", "bank,set-rate-gate = <>;"),
            optional("bank,set-parent-gate;", "bank,set-parent-gate = <1>;"),
            optional("bank,set-rate-parent;", "bank,set-rate-parent = \"\";"),
            optional("bank,ignore-unused;", "bank,ignore-unused = [];"),
            optional("bank,no-reparent;", "bank,no-reparent = &l;"),
            optional("bank,critical;", "bank,critical = <0>;"),
        ],
        "Binding { cells: 0, wants: One, inputs: [Node(1), Number(5)], clocks: [BoundClock { name: \"half\", identifier: 0, kind: Factor { mult: 0, div: 3 } }], flags: ClkFlags(63) }",
    )
}

#[test]
fn each_property_of_a_gate_has_its_form(rt: HostRuntime) -> Result<(), Fail> {
    judges(
        &rt,
        rt.alloc(),
        "compatible = \"bank,gate-clock\"; #clock-cells = <0>; bank,set-parent-gate; bank,ignore-unused;",
        &[
            needed("clocks = <1>;", "clocks = <1>, \"1\";"),
            needed("bank,reg = <3>;", "bank,reg = <3>, <4>;"),
            needed("bank,bit = <31>;", "bank,bit;"),
            optional("bank,set-to-disable;", "bank,set-to-disable = <1>;"),
            optional("clock-output-names = \"g\";", "clock-output-names;"),
            optional("assigned-clocks = <&l 1>;", "assigned-clocks = \"l\";"),
            optional(
                "assigned-clock-parents = <0>, <0>;",
                "assigned-clock-parents = &l;",
            ),
            optional(
                "assigned-clock-rates = <0>, <7>;",
                "assigned-clock-rates = <7 &l>;",
            ),
        ],
        "Binding { cells: 0, wants: One, inputs: [Number(1)], clocks: [BoundClock { name: \"g\", identifier: 0, kind: Gate { word: 3, bit: 31, set_to_disable: true } }], flags: ClkFlags(10) }",
    )
}

#[test]
fn each_property_of_gates_has_its_form(rt: HostRuntime) -> Result<(), Fail> {
    judges(
        &rt,
        rt.alloc(),
        "compatible = \"bank,gates-clock\"; #clock-cells = <1>; bank,set-to-disable = <1>;",
        &[
            needed("clocks = <1>;", "clocks;"),
            needed("bank,reg = <3>;", "bank,reg = \"3\";"),
            needed(
                "clock-output-names = \"a\", \"b\";",
                "clock-output-names = \"a\", <2>;",
            ),
            optional("clock-indices = <4>, <0>;", "clock-indices = <4>;"),
            optional("bank,critical;", "bank,critical = <1>;"),
        ],
        "Binding { cells: 1, wants: One, inputs: [Number(1)], clocks: [BoundClock { name: \"a\", identifier: 4, kind: Gate { word: 3, bit: 4, set_to_disable: false } }, BoundClock { name: \"b\", identifier: 0, kind: Gate { word: 3, bit: 0, set_to_disable: false } }], flags: ClkFlags(32) }",
    )?;
    says(
        &rt,
        rt.alloc(),
        &[(
            "compatible = \"bank,gates-clock\"; #clock-cells = <1>; clocks = <1>; bank,reg = <0>; clock-output-names = \"a\", \"b\";",
            "Binding { cells: 1, wants: One, inputs: [Number(1)], clocks: [BoundClock { name: \"a\", identifier: 0, kind: Gate { word: 0, bit: 0, set_to_disable: false } }, BoundClock { name: \"b\", identifier: 1, kind: Gate { word: 0, bit: 1, set_to_disable: false } }], flags: ClkFlags(0) }",
        )],
    )
}

#[test]
fn each_property_of_a_mux_has_its_form(rt: HostRuntime) -> Result<(), Fail> {
    judges(
        &rt,
        rt.alloc(),
        "compatible = \"bank,mux-clock\"; #clock-cells = <0>; bank,set-rate-gate; bank,no-reparent;",
        &[
            needed("clocks = <&l 2 &l>;", "clocks = [01];"),
            needed("bank,reg = <3>;", "bank,reg = <>;"),
            needed("bank,shift = <4>;", "bank,shift = <4 4>;"),
            needed("bank,width = <1>;", "bank,width = &l;"),
            optional("bank,read-only;", "bank,read-only = \"yes\";"),
            optional("clock-output-names = \"m\";", "clock-output-names = <1>;"),
        ],
        "Binding { cells: 0, wants: Some, inputs: [Node(1), Number(2), Node(1)], clocks: [BoundClock { name: \"m\", identifier: 0, kind: Mux { word: 3, shift: 4, width: 1, read_only: true } }], flags: ClkFlags(17) }",
    )
}

#[test]
fn each_property_of_a_divider_has_its_form(rt: HostRuntime) -> Result<(), Fail> {
    judges(
        &rt,
        rt.alloc(),
        "compatible = \"bank,divider-clock\"; #clock-cells = <0>; bank,set-rate-parent;",
        &[
            needed("clocks = <1>;", "clocks = \"1\";"),
            needed("bank,reg = <3>;", "bank,reg = [03];"),
            needed("bank,shift = <4>;", "bank,shift;"),
            needed("bank,width = <2>;", "bank,width = <2>, <>, <2>;"),
            optional("bank,one-based;", "bank,one-based = <1>;"),
            optional("bank,power-of-two;", "bank,power-of-two = <1>;"),
            optional(
                "clock-output-names = \"d\";",
                "clock-output-names = \"d\", \"d\";",
            ),
        ],
        "Binding { cells: 0, wants: One, inputs: [Number(1)], clocks: [BoundClock { name: \"d\", identifier: 0, kind: Divider { word: 3, shift: 4, width: 2, one_based: true, power_of_two: true } }], flags: ClkFlags(4) }",
    )
}

#[test]
fn each_property_of_a_pll_has_its_form(rt: HostRuntime) -> Result<(), Fail> {
    judges(
        &rt,
        rt.alloc(),
        "compatible = \"bank,pll-clock\"; #clock-cells = <0>;",
        &[
            needed("clocks = <1>;", "clocks = &l;"),
            needed("bank,reg = <3>;", "bank,reg = <3 3>;"),
            needed("bank,shift = <4>;", "bank,shift = <>;"),
            needed("bank,width = <9>;", "bank,width = \"9\";"),
            needed("bank,power = <5>, <31>;", "bank,power = <5>;"),
            needed("bank,n-range = <100 400>;", "bank,n-range = <1 2 3>;"),
            needed("bank,m = <24>;", "bank,m = <&l>;"),
            optional(
                "clock-output-names = \"p\";",
                "clock-output-names = \"p\\\\\";",
            ),
            optional("bank,critical;", "bank,critical = <>;"),
        ],
        "Binding { cells: 0, wants: One, inputs: [Number(1)], clocks: [BoundClock { name: \"p\", identifier: 0, kind: Pll { word: 3, shift: 4, width: 9, power_word: 5, power_bit: 31, least: 100, most: 400, m: 24 } }], flags: ClkFlags(32) }",
    )
}

// Providers of each kind that has flags, and what is said of them up to the bits of their flags.
const PROVIDERS: [(&str, &str); 6] = [
    (
        "compatible = \"fixed-factor-clock\"; #clock-cells = <0>; clocks = <1>; clock-mult = <1>; clock-div = <2>;",
        "Binding { cells: 0, wants: One, inputs: [Number(1)], clocks: [BoundClock { name: \"clk\", identifier: 0, kind: Factor { mult: 1, div: 2 } }]",
    ),
    (
        "compatible = \"bank,gate-clock\"; #clock-cells = <0>; clocks = <1>; bank,reg = <3>; bank,bit = <4>;",
        "Binding { cells: 0, wants: One, inputs: [Number(1)], clocks: [BoundClock { name: \"clk\", identifier: 0, kind: Gate { word: 3, bit: 4, set_to_disable: false } }]",
    ),
    (
        "compatible = \"bank,gates-clock\"; #clock-cells = <1>; clocks = <1>; bank,reg = <3>; clock-output-names = \"a\";",
        "Binding { cells: 1, wants: One, inputs: [Number(1)], clocks: [BoundClock { name: \"a\", identifier: 0, kind: Gate { word: 3, bit: 0, set_to_disable: false } }]",
    ),
    (
        "compatible = \"bank,mux-clock\"; #clock-cells = <0>; clocks = <1>; bank,reg = <3>; bank,shift = <4>; bank,width = <1>;",
        "Binding { cells: 0, wants: Some, inputs: [Number(1)], clocks: [BoundClock { name: \"clk\", identifier: 0, kind: Mux { word: 3, shift: 4, width: 1, read_only: false } }]",
    ),
    (
        "compatible = \"bank,divider-clock\"; #clock-cells = <0>; clocks = <1>; bank,reg = <3>; bank,shift = <4>; bank,width = <2>;",
        "Binding { cells: 0, wants: One, inputs: [Number(1)], clocks: [BoundClock { name: \"clk\", identifier: 0, kind: Divider { word: 3, shift: 4, width: 2, one_based: false, power_of_two: false } }]",
    ),
    (
        "compatible = \"bank,pll-clock\"; #clock-cells = <0>; clocks = <1>; bank,reg = <3>; bank,shift = <4>; bank,width = <9>; bank,power = <5 31>; bank,n-range = <1 2>; bank,m = <3>;",
        "Binding { cells: 0, wants: One, inputs: [Number(1)], clocks: [BoundClock { name: \"clk\", identifier: 0, kind: Pll { word: 3, shift: 4, width: 9, power_word: 5, power_bit: 31, least: 1, most: 2, m: 3 } }]",
    ),
];

// Flags, and their bits in version 1 and in version 2; in version 2 none if one hasn't its form.
const FLAGS: [(&str, u8, Option<u8>); 8] = [
    ("", 0, Some(0)),
    ("bank,critical;", 32, Some(32)),
    ("bank,ops-parent-enable;", 0, Some(64)),
    ("bank,set-rate-ungate;", 0, Some(128)),
    (
        "bank,set-rate-ungate; bank,set-rate-gate; bank,ops-parent-enable; bank,critical;",
        33,
        Some(225),
    ),
    ("bank,ops-parent-enable = <1>;", 0, None),
    ("bank,critical; bank,set-rate-ungate = <>;", 32, None),
    ("bank,set-rate-ungate = \"yes\", &l;", 0, None),
];

#[test]
fn version_2_alone_knows_the_flags_that_keep_clocks_running(rt: HostRuntime) -> Result<(), Fail> {
    let alloc = rt.alloc();
    for (provider, start) in PROVIDERS {
        for (flags, first, second) in FLAGS {
            let source = format!(in alloc; "{provider} {flags}")?;
            let text = said(alloc, 1, source.as_str())?;
            let wanted = format!(in alloc; "{start}, flags: ClkFlags({first}) }}")?;
            assert!(rt; text.as_str() == wanted.as_str(), "of {source}: {text}");
            let text = said(alloc, 2, source.as_str())?;
            let wanted = match second {
                Some(bits) => format!(in alloc; "{start}, flags: ClkFlags({bits}) }}")?,
                None => String::from_str(alloc, "MissingProperty")?,
            };
            assert!(rt; text.as_str() == wanted.as_str(), "of {source}: {text}");
        }
    }
    Ok(())
}
