//! The trees of the tests of planning, and what was worked out for them.

use super::{Row, Seen};

// No clock is held.
const FREE: Seen = Seen {
    clocks: 0,
    one: 0,
    bounds: (0, u64::MAX),
    guarded: false,
    prepared: false,
};

const DIVIDER: &str = "\
fixed ref 100\n\
divider div ref 0 0 3\n";

const MUXES: &str = "\
fixed a 48000000\n\
fixed b 30000000\n\
fixed c 10000000\n\
mux r 0 0 1 2 a b read-only\n\
mux s 0 1 1 2 a b set-parent-gate\n\
mux t 0 2 1 2 a b\n";

const ORPHAN: &str = "\
fixed osc 24000000\n\
fixed src 40000000\n\
gate gs src 0 0\n\
mux m 1 0 1 2 osc gs\n\
gate c m 0 1 critical\n";

pub(super) static ROWS: [Row<'static>; 15] = [
    Row {
        name: "a divider gives the rate below",
        clocks: DIVIDER,
        words: [0, 0, 0],
        links: &[(0, None), (1, Some(0))],
        seen: Seen { clocks: 2, ..FREE },
        rounds: &[(1, 30, Some(25)), (1, 0, Some(13)), (1, 500, Some(100))],
        plans: &[
            (1, 1, Some((&[(1, 13, Some(0))], &[(1, 13)]))),
            (0, 30, None),
        ],
        moves: &[],
    },
    Row {
        name: "a protected divider keeps its rate",
        clocks: DIVIDER,
        words: [3, 0, 0],
        links: &[(0, None), (1, Some(0))],
        seen: Seen {
            one: 1,
            guarded: true,
            clocks: 2,
            ..FREE
        },
        rounds: &[(1, 60, Some(25))],
        plans: &[],
        moves: &[],
    },
    // The request is 30, and a rate between 26 and 30 can't be had.
    Row {
        name: "a plan keeps boundaries",
        clocks: DIVIDER,
        words: [0, 0, 0],
        links: &[(0, None), (1, Some(0))],
        seen: Seen {
            one: 1,
            bounds: (26, 30),
            clocks: 2,
            ..FREE
        },
        rounds: &[(1, 1_000, Some(25))],
        plans: &[(1, 1_000, None)],
        moves: &[],
    },
    Row {
        name: "a power of two is great enough",
        clocks: "fixed ref 10\ndivider div ref 0 0 2 power-of-two\n",
        words: [0, 0, 0],
        links: &[(0, None), (1, Some(0))],
        seen: Seen { clocks: 2, ..FREE },
        rounds: &[(1, 2, Some(2))],
        plans: &[(1, 2, Some((&[(1, 2, Some(0))], &[(1, 2)])))],
        moves: &[],
    },
    Row {
        name: "ranges bound a request",
        clocks: "fixed ref 600\ndivider div ref 0 0 3\n",
        words: [3, 0, 0],
        links: &[(0, None), (1, Some(0))],
        seen: Seen {
            one: 1,
            bounds: (150, 200),
            clocks: 2,
            ..FREE
        },
        rounds: &[(1, 1_000, Some(200)), (1, 0, Some(150))],
        plans: &[(1, 1_000, Some((&[(1, 200, Some(0))], &[(1, 200)])))],
        moves: &[],
    },
    Row {
        name: "a mux takes the closest parent below",
        clocks: "fixed a 48000000\nfixed b 30000000\nmux m 0 0 1 2 a b\n",
        words: [0, 0, 0],
        links: &[(0, None), (1, None), (2, Some(0))],
        seen: Seen { clocks: 3, ..FREE },
        rounds: &[
            (2, 40_000_000, Some(30_000_000)),
            (2, 30_000_000, Some(30_000_000)),
            (2, 29_000_000, None),
        ],
        plans: &[
            (
                2,
                40_000_000,
                Some((&[(2, 30_000_000, Some(1))], &[(2, 30_000_000)])),
            ),
            (2, 29_000_000, None),
        ],
        moves: &[],
    },
    Row {
        name: "the largest rate stays",
        clocks: "fixed f 18446744073709551615\nfactor x f 3 2\nfactor y f 1 2\n",
        words: [0, 0, 0],
        links: &[(0, None), (1, Some(0)), (2, Some(0))],
        seen: Seen { clocks: 3, ..FREE },
        rounds: &[
            (0, 5, Some(u64::MAX)),
            (1, 5, Some(u64::MAX)),
            (2, 5, Some(9_223_372_036_854_775_807)),
        ],
        plans: &[],
        moves: &[],
    },
    // The divider takes 1 before 2, and so it asks the PLL for 150 MHz.
    Row {
        name: "a chain goes up to a pll",
        clocks: "\
fixed osc 24000000\n\
pll vco osc 0 0 9 0 31 100 400 24\n\
divider d vco 1 0 2 set-rate-parent\n\
factor x vco 1 4\n\
factor y vco 1 5\n",
        words: [0x8000_00c8, 1, 0],
        links: &[
            (0, None),
            (1, Some(0)),
            (2, Some(1)),
            (3, Some(1)),
            (4, Some(1)),
        ],
        seen: Seen { clocks: 5, ..FREE },
        rounds: &[
            (2, 150_000_000, Some(150_000_000)),
            (3, 1, Some(50_000_000)),
        ],
        plans: &[(
            2,
            150_000_000,
            Some((
                &[(2, 150_000_000, Some(1)), (1, 150_000_000, Some(0))],
                &[
                    (1, 150_000_000),
                    (4, 30_000_000),
                    (3, 37_500_000),
                    (2, 150_000_000),
                ],
            )),
        )],
        moves: &[],
    },
    Row {
        name: "a walk has the newest child first",
        clocks: "\
fixed ref 100\n\
divider s ref 0 0 3\n\
factor u s 1 2\n\
factor w s 1 4\n\
gate q s 1 0\n",
        words: [0, 0, 0],
        links: &[
            (0, None),
            (1, Some(0)),
            (2, Some(1)),
            (3, Some(1)),
            (4, Some(1)),
        ],
        seen: Seen { clocks: 5, ..FREE },
        rounds: &[(4, 50, Some(100))],
        plans: &[
            (
                1,
                50,
                Some((&[(1, 50, Some(0))], &[(1, 50), (4, 50), (3, 12), (2, 25)])),
            ),
            (4, 50, None),
        ],
        moves: &[],
    },
    Row {
        name: "a prepared mux moves by its rate and by itself",
        clocks: "\
fixed osc 24000000\n\
fixed alt 30000000\n\
gate ga osc 0 0\n\
gate gb alt 0 1\n\
mux m 1 0 1 2 ga gb\n\
gate g m 0 2\n",
        words: [0, 0, 0],
        links: &[
            (0, None),
            (1, None),
            (2, Some(0)),
            (3, Some(1)),
            (4, Some(2)),
            (5, Some(4)),
        ],
        seen: Seen {
            one: 4,
            prepared: true,
            clocks: 6,
            ..FREE
        },
        rounds: &[(4, 30_000_000, Some(30_000_000))],
        plans: &[(
            4,
            30_000_000,
            Some((
                &[(4, 30_000_000, Some(3))],
                &[(4, 30_000_000), (5, 30_000_000)],
            )),
        )],
        moves: &[(
            4,
            3,
            &[(4, 30_000_000, Some(3))],
            &[(4, 30_000_000), (5, 30_000_000)],
        )],
    },
    // The mux `s` may not leave its parent while it is prepared, `r` can't, and `t` may.
    Row {
        name: "a gate flag keeps the parent of a prepared mux",
        clocks: MUXES,
        words: [0, 0, 0],
        links: &[
            (0, None),
            (1, None),
            (2, None),
            (3, Some(0)),
            (4, Some(0)),
            (5, Some(0)),
        ],
        seen: Seen {
            one: 4,
            prepared: true,
            clocks: 6,
            ..FREE
        },
        rounds: &[
            (4, 30_000_000, Some(30_000_000)),
            (3, 30_000_000, Some(48_000_000)),
        ],
        plans: &[
            (4, 30_000_000, None),
            (3, 30_000_000, None),
            (
                5,
                30_000_000,
                Some((&[(5, 30_000_000, Some(1))], &[(5, 30_000_000)])),
            ),
        ],
        moves: &[(5, 1, &[(5, 30_000_000, Some(1))], &[(5, 30_000_000)])],
    },
    Row {
        name: "a mux moves to a pll",
        clocks: "\
fixed osc 24000000\n\
pll p osc 0 0 9 0 31 100 400 24\n\
gate g p 1 0\n\
mux m 2 0 1 2 osc p\n",
        words: [0x64, 0, 0],
        links: &[(0, None), (1, Some(0)), (2, Some(1)), (3, Some(0))],
        seen: Seen { clocks: 4, ..FREE },
        rounds: &[],
        plans: &[],
        moves: &[(3, 1, &[(3, 100_000_000, Some(1))], &[(3, 100_000_000)])],
    },
    // The mux `m` is an orphan, since the parent that its field names isn't registered.
    Row {
        name: "an orphan asks the parents that are there",
        clocks: ORPHAN,
        words: [0, 1, 0],
        links: &[(0, None), (3, None), (4, Some(3))],
        seen: Seen { clocks: 5, ..FREE },
        rounds: &[
            (3, 40_000_000, Some(24_000_000)),
            (3, 20_000_000, None),
            (4, 40_000_000, Some(0)),
        ],
        plans: &[(
            3,
            40_000_000,
            Some((
                &[(3, 24_000_000, Some(0))],
                &[(3, 24_000_000), (4, 24_000_000)],
            )),
        )],
        moves: &[],
    },
    Row {
        name: "an adopted mux asks all its parents",
        clocks: ORPHAN,
        words: [0, 1, 0],
        links: &[
            (0, None),
            (3, None),
            (4, Some(3)),
            (1, None),
            (2, Some(1)),
            (3, Some(2)),
        ],
        seen: Seen { clocks: 5, ..FREE },
        rounds: &[
            (3, 40_000_000, Some(40_000_000)),
            (3, 39_000_000, Some(24_000_000)),
            (4, 1, Some(40_000_000)),
        ],
        plans: &[(
            3,
            39_000_000,
            Some((
                &[(3, 24_000_000, Some(0))],
                &[(3, 24_000_000), (4, 24_000_000)],
            )),
        )],
        moves: &[],
    },
    Row {
        name: "a field that names no parent makes an orphan",
        clocks: "fixed f 5\nfixed e 6\nmux m 0 0 2 2 f e\n",
        words: [3, 0, 0],
        links: &[(0, None), (1, None), (2, None)],
        seen: Seen { clocks: 3, ..FREE },
        rounds: &[(2, 5, Some(5)), (2, 7, Some(6)), (2, 4, None)],
        plans: &[(2, 7, Some((&[(2, 6, Some(1))], &[(2, 6)])))],
        moves: &[(2, 0, &[(2, 5, Some(0))], &[(2, 5)])],
    },
];
