//! Trees of clocks that run, or whose parents run, while something is written, and their scripts.

use super::rows::{EMPTY, STILL};
use super::{Row, Still};
use clk_base::{ClockId, Micro, Notice, Policy};

pub(super) static FLAGGED: [Row<'static>; 6] = [
    Row {
        name: "a flagged mux that nobody prepares runs while it moves",
        clocks: "fixed osc 24000000\n\
                 fixed alt 30000000\n\
                 gate ga osc 0 0\n\
                 gate gb alt 0 1\n\
                 mux m 1 0 1 2 ga gb ops-parent-enable\n\
                 gate g m 0 2\n",
        links: &[
            (0, None),
            (1, None),
            (2, Some(0)),
            (3, Some(1)),
            (4, Some(2)),
            (5, Some(4)),
        ],
        seen: Still { clocks: 6, ..STILL },
        moves: &[(
            4,
            3,
            (
                &[],
                &[
                    Micro::Raise(ClockId(4)),
                    Micro::Raise(ClockId(3)),
                    Micro::HoldPrepare(ClockId(4)),
                    Micro::HoldEnable(ClockId(4)),
                    Micro::HoldPrepare(ClockId(3)),
                    Micro::HoldEnable(ClockId(3)),
                    Micro::Relink(ClockId(4), ClockId(3)),
                    Micro::WriteMux(ClockId(4), 1),
                    Micro::DropEnable(ClockId(2)),
                    Micro::DropPrepare(ClockId(2)),
                    Micro::Lower(ClockId(2)),
                    Micro::DropEnable(ClockId(4)),
                    Micro::DropPrepare(ClockId(4)),
                    Micro::Lower(ClockId(4)),
                    Micro::Visit(ClockId(4)),
                    Micro::Visit(ClockId(5)),
                    Micro::Settle(ClockId(4)),
                    Micro::End,
                ],
                18,
                0,
            ),
        )],
        sweep: &[3, 1, 5, 4, 2, 0],
        ..EMPTY
    },
    // Each of the two raises weighs 35, and each lowering 2; a timeout brings one notice.
    Row {
        name: "a flagged move over two PLLs weighs both raises",
        clocks: "fixed osc 24000000\n\
                 pll p osc 0 0 9 0 31 100 400 24\n\
                 pll q osc 1 0 9 1 31 100 400 24\n\
                 mux m 2 0 1 2 p q ops-parent-enable\n",
        words: [0x64, 0xc8, 0],
        links: &[(0, None), (1, Some(0)), (2, Some(0)), (3, Some(1))],
        notifiers: &[(3, 1, 0, Policy::Accept)],
        seen: Still { clocks: 4, ..STILL },
        moves: &[(
            3,
            2,
            (
                &[(Notice::Pre(false), 3, 1, 100_000_000, 200_000_000)],
                &[
                    Micro::Raise(ClockId(3)),
                    Micro::Raise(ClockId(2)),
                    Micro::HoldPrepare(ClockId(3)),
                    Micro::HoldEnable(ClockId(3)),
                    Micro::HoldPrepare(ClockId(2)),
                    Micro::HoldEnable(ClockId(2)),
                    Micro::Relink(ClockId(3), ClockId(2)),
                    Micro::WriteMux(ClockId(3), 1),
                    Micro::DropEnable(ClockId(1)),
                    Micro::DropPrepare(ClockId(1)),
                    Micro::Lower(ClockId(1)),
                    Micro::DropEnable(ClockId(3)),
                    Micro::DropPrepare(ClockId(3)),
                    Micro::Lower(ClockId(3)),
                    Micro::Visit(ClockId(3)),
                    Micro::Settle(ClockId(3)),
                    Micro::End,
                ],
                90,
                1,
            ),
        )],
        sweep: &[2, 3, 1, 0],
        ..EMPTY
    },
    Row {
        name: "a divider runs while it is set",
        clocks: "fixed ref 100\n\
                 gate gr ref 0 0\n\
                 divider d gr 1 0 3 set-rate-ungate\n",
        links: &[(0, None), (1, Some(0)), (2, Some(1))],
        seen: Still { clocks: 3, ..STILL },
        sets: &[(
            2,
            50,
            (
                &[],
                &[
                    Micro::Raise(ClockId(2)),
                    Micro::HoldPrepare(ClockId(2)),
                    Micro::HoldEnable(ClockId(2)),
                    Micro::Visit(ClockId(2)),
                    Micro::DropEnable(ClockId(2)),
                    Micro::DropPrepare(ClockId(2)),
                    Micro::Lower(ClockId(2)),
                    Micro::End,
                ],
                8,
                0,
            ),
        )],
        sweep: &[2, 1, 0],
        ..EMPTY
    },
    // A clock below the divider has no setting, so its own flag feeds nothing.
    Row {
        name: "a divider's parent runs while the divider is set",
        clocks: "fixed ref 100\n\
                 gate gr ref 0 0\n\
                 divider d gr 1 0 3 ops-parent-enable\n\
                 factor f d 1 2 ops-parent-enable set-rate-ungate\n",
        links: &[(0, None), (1, Some(0)), (2, Some(1)), (3, Some(2))],
        seen: Still { clocks: 4, ..STILL },
        sets: &[(
            2,
            50,
            (
                &[],
                &[
                    Micro::Raise(ClockId(1)),
                    Micro::HoldPrepare(ClockId(1)),
                    Micro::HoldEnable(ClockId(1)),
                    Micro::Visit(ClockId(2)),
                    Micro::DropEnable(ClockId(1)),
                    Micro::DropPrepare(ClockId(1)),
                    Micro::Lower(ClockId(1)),
                    Micro::Visit(ClockId(3)),
                    Micro::End,
                ],
                9,
                0,
            ),
        )],
        sweep: &[3, 2, 1, 0],
        ..EMPTY
    },
    Row {
        name: "of both flags the one of the clock itself decides",
        clocks: "fixed ref 100\n\
                 gate gr ref 0 0\n\
                 divider d gr 1 0 3 ops-parent-enable set-rate-ungate\n",
        links: &[(0, None), (1, Some(0)), (2, Some(1))],
        seen: Still {
            clocks: 3,
            prepared: true,
        },
        sets: &[(
            2,
            50,
            (
                &[],
                &[
                    Micro::Raise(ClockId(2)),
                    Micro::HoldPrepare(ClockId(2)),
                    Micro::HoldEnable(ClockId(2)),
                    Micro::Visit(ClockId(2)),
                    Micro::DropEnable(ClockId(2)),
                    Micro::DropPrepare(ClockId(2)),
                    Micro::Lower(ClockId(2)),
                    Micro::End,
                ],
                8,
                0,
            ),
        )],
        sweep: &[2, 1, 0],
        ..EMPTY
    },
    // Each feed of the PLL, with its end, weighs 41: 35 of the raise, 2 of the lowering and 4.
    Row {
        name: "a PLL runs while it is set, and while a divider below it is",
        clocks: "fixed osc 24000000\n\
                 pll vco osc 0 0 9 0 31 100 400 24 set-rate-ungate\n\
                 divider d vco 1 0 2 set-rate-parent ops-parent-enable\n\
                 divider e vco 1 2 2 set-rate-ungate\n",
        words: [0x8000_00c8, 1, 0],
        links: &[(0, None), (1, Some(0)), (2, Some(1)), (3, Some(1))],
        notifiers: &[(2, 1, 0, Policy::Accept)],
        seen: Still { clocks: 4, ..STILL },
        sets: &[(
            2,
            150_000_000,
            (
                &[(Notice::Pre(false), 2, 1, 100_000_000, 150_000_000)],
                &[
                    Micro::Raise(ClockId(1)),
                    Micro::HoldPrepare(ClockId(1)),
                    Micro::HoldEnable(ClockId(1)),
                    Micro::Visit(ClockId(1)),
                    Micro::DropEnable(ClockId(1)),
                    Micro::DropPrepare(ClockId(1)),
                    Micro::Lower(ClockId(1)),
                    Micro::Visit(ClockId(3)),
                    Micro::Raise(ClockId(1)),
                    Micro::HoldPrepare(ClockId(1)),
                    Micro::HoldEnable(ClockId(1)),
                    Micro::Visit(ClockId(2)),
                    Micro::DropEnable(ClockId(1)),
                    Micro::DropPrepare(ClockId(1)),
                    Micro::Lower(ClockId(1)),
                    Micro::End,
                ],
                88,
                0,
            ),
        )],
        sweep: &[3, 2, 1, 0],
        ..EMPTY
    },
];
