//! The trees of the tests of scripts and orders, and what was worked out for them.

use super::{Row, Still};
use clk_base::{ClockId, Micro, Notice, Policy};

pub(super) const STILL: Still = Still {
    clocks: 0,
    prepared: false,
};

pub(super) const EMPTY: Row<'static> = Row {
    name: "",
    clocks: "",
    words: [0, 0, 0],
    links: &[],
    notifiers: &[],
    seen: STILL,
    sets: &[],
    moves: &[],
    parents: &[],
    adopted: &[],
    sweep: &[],
};

const MIGRATION: &str = "\
fixed osc 24000000\n\
fixed alt 30000000\n\
gate ga osc 0 0\n\
gate gb alt 0 1\n\
mux m 1 0 1 2 ga gb\n\
gate g m 0 2\n";

const ORPHAN: &str = "\
fixed osc 24000000\n\
fixed src 40000000\n\
gate gs src 0 0\n\
mux m 1 0 1 2 osc gs\n\
gate c m 0 1 critical\n";

pub(super) static ROWS: [Row<'static>; 9] = [
    Row {
        name: "notices go down the walk",
        clocks: "fixed osc 24000000\n\
                 pll vco osc 0 0 9 0 31 100 400 24\n\
                 divider d vco 1 0 2 set-rate-parent\n\
                 factor x vco 1 4\n\
                 factor y vco 1 5\n",
        words: [0x8000_00c8, 1, 0],
        links: &[
            (0, None),
            (1, Some(0)),
            (2, Some(1)),
            (3, Some(1)),
            (4, Some(1)),
        ],
        notifiers: &[
            (1, 1, 0, Policy::Accept),
            (4, 1, 0, Policy::Accept),
            (3, 1, 0, Policy::Accept),
            (2, 1, 0, Policy::Accept),
        ],
        seen: Still { clocks: 5, ..STILL },
        sets: &[(
            2,
            150_000_000,
            (
                &[
                    (Notice::Pre(false), 1, 1, 200_000_000, 150_000_000),
                    (Notice::Pre(false), 4, 1, 40_000_000, 30_000_000),
                    (Notice::Pre(false), 3, 1, 50_000_000, 37_500_000),
                    (Notice::Pre(false), 2, 1, 100_000_000, 150_000_000),
                ],
                &[
                    Micro::Visit(ClockId(1)),
                    Micro::Visit(ClockId(4)),
                    Micro::Visit(ClockId(3)),
                    Micro::Visit(ClockId(2)),
                    Micro::End,
                ],
                13,
                0,
            ),
        )],
        sweep: &[4, 3, 2, 1, 0],
        ..EMPTY
    },
    Row {
        name: "a prepared mux moves under holds",
        clocks: MIGRATION,
        links: &[
            (0, None),
            (1, None),
            (2, Some(0)),
            (3, Some(1)),
            (4, Some(2)),
            (5, Some(4)),
        ],
        seen: Still {
            clocks: 6,
            prepared: true,
        },
        sets: &[(
            4,
            30_000_000,
            (
                &[],
                &[
                    Micro::Raise(ClockId(3)),
                    Micro::HoldPrepare(ClockId(3)),
                    Micro::HoldEnable(ClockId(3)),
                    Micro::HoldEnable(ClockId(4)),
                    Micro::Relink(ClockId(4), ClockId(3)),
                    Micro::WriteMux(ClockId(4), 1),
                    Micro::DropEnable(ClockId(4)),
                    Micro::DropEnable(ClockId(2)),
                    Micro::DropPrepare(ClockId(2)),
                    Micro::Lower(ClockId(2)),
                    Micro::Visit(ClockId(4)),
                    Micro::Visit(ClockId(5)),
                    Micro::End,
                ],
                13,
                0,
            ),
        )],
        sweep: &[3, 1, 5, 4, 2, 0],
        ..EMPTY
    },
    Row {
        name: "a mux that nobody prepares is only relinked",
        clocks: MIGRATION,
        links: &[
            (0, None),
            (1, None),
            (2, Some(0)),
            (3, Some(1)),
            (4, Some(2)),
            (5, Some(4)),
        ],
        seen: Still { clocks: 6, ..STILL },
        sets: &[(
            4,
            30_000_000,
            (
                &[],
                &[
                    Micro::Relink(ClockId(4), ClockId(3)),
                    Micro::WriteMux(ClockId(4), 1),
                    Micro::Visit(ClockId(4)),
                    Micro::Visit(ClockId(5)),
                    Micro::End,
                ],
                5,
                0,
            ),
        )],
        sweep: &[3, 1, 5, 4, 2, 0],
        ..EMPTY
    },
    Row {
        name: "a veto leaves no notifier untold",
        clocks: "fixed ref 100\n\
                 divider s ref 0 0 3\n\
                 factor u s 1 2\n\
                 factor w s 1 4\n\
                 gate q s 1 0\n",
        links: &[
            (0, None),
            (1, Some(0)),
            (2, Some(1)),
            (3, Some(1)),
            (4, Some(1)),
        ],
        notifiers: &[
            (3, 1, 10, Policy::Accept),
            (3, 2, 5, Policy::VetoAll),
            (3, 3, 1, Policy::Accept),
            (2, 4, 0, Policy::Accept),
        ],
        seen: Still { clocks: 5, ..STILL },
        sets: &[(
            1,
            50,
            (
                &[
                    (Notice::Pre(false), 3, 1, 25, 12),
                    (Notice::Pre(true), 3, 2, 25, 12),
                    (Notice::Pre(false), 2, 4, 50, 25),
                    (Notice::Abort, 3, 1, 25, 12),
                    (Notice::Abort, 3, 2, 25, 12),
                    (Notice::Abort, 3, 3, 25, 12),
                    (Notice::Abort, 2, 4, 50, 25),
                ],
                &[Micro::End],
                8,
                0,
            ),
        )],
        sweep: &[4, 3, 2, 1, 0],
        ..EMPTY
    },
    // The raise of one PLL weighs 35, and a timeout brings one notice.
    Row {
        name: "a change of parent settles, and weighs a timeout",
        clocks: "fixed osc 24000000\n\
                 pll p osc 0 0 9 0 31 100 400 24\n\
                 gate g p 1 0\n\
                 mux m 2 0 1 2 osc p\n",
        words: [0x64, 0, 0],
        links: &[(0, None), (1, Some(0)), (2, Some(1)), (3, Some(0))],
        notifiers: &[(3, 1, 0, Policy::Accept)],
        seen: Still {
            clocks: 4,
            prepared: true,
        },
        moves: &[(
            3,
            1,
            (
                &[(Notice::Pre(false), 3, 1, 24_000_000, 100_000_000)],
                &[
                    Micro::Raise(ClockId(1)),
                    Micro::HoldPrepare(ClockId(1)),
                    Micro::HoldEnable(ClockId(1)),
                    Micro::HoldEnable(ClockId(3)),
                    Micro::Relink(ClockId(3), ClockId(1)),
                    Micro::WriteMux(ClockId(3), 1),
                    Micro::DropEnable(ClockId(3)),
                    Micro::DropEnable(ClockId(0)),
                    Micro::DropPrepare(ClockId(0)),
                    Micro::Lower(ClockId(0)),
                    Micro::Visit(ClockId(3)),
                    Micro::Settle(ClockId(3)),
                    Micro::End,
                ],
                51,
                1,
            ),
        )],
        sweep: &[3, 2, 1, 0],
        ..EMPTY
    },
    Row {
        name: "an orphan waits for the parent that its field selects",
        clocks: ORPHAN,
        words: [1, 1, 0],
        links: &[(0, None), (3, None), (4, Some(3))],
        seen: Still { clocks: 5, ..STILL },
        parents: &[(2, None), (3, None)],
        adopted: &[(1, &[])],
        sweep: &[0, 4, 3],
        ..EMPTY
    },
    Row {
        name: "an orphan is adopted when its parent comes",
        clocks: ORPHAN,
        words: [1, 1, 0],
        links: &[(0, None), (3, None), (4, Some(3)), (1, None)],
        seen: Still { clocks: 5, ..STILL },
        parents: &[(2, Some(1)), (3, None)],
        adopted: &[(2, &[3])],
        sweep: &[1, 0, 4, 3],
        ..EMPTY
    },
    Row {
        name: "of two orphans that wait for one parent the newest is adopted first",
        clocks: "fixed osc 24000000\n\
                 gate x osc 0 0\n\
                 mux a 1 0 1 2 osc x\n\
                 mux b 1 1 1 2 osc x\n",
        words: [0, 3, 0],
        links: &[(0, None), (2, None), (3, None)],
        seen: Still { clocks: 4, ..STILL },
        parents: &[(1, Some(0)), (2, None)],
        adopted: &[(1, &[3, 2])],
        sweep: &[0, 3, 2],
        ..EMPTY
    },
    Row {
        name: "the sweep goes from the newest child up",
        clocks: "fixed osc 24000000\n\
                 gate g1 osc 0 0\n\
                 gate g2 osc 0 1 ignore-unused\n\
                 gate g3 osc 0 2 critical\n\
                 pll p osc 1 0 9 1 31 100 400 24\n",
        words: [3, 0x8000_0064, 0],
        links: &[
            (0, None),
            (1, Some(0)),
            (2, Some(0)),
            (3, Some(0)),
            (4, Some(0)),
        ],
        seen: Still { clocks: 5, ..STILL },
        sweep: &[4, 3, 2, 1, 0],
        ..EMPTY
    },
];
