//! Phases of two clocks.

ghost use Rattle.std.specs.Prelude.{◌≡◌, length};

use crate::descriptions::osc_and_gate;
use clk_base::{ClockId, Errno};
use clk_phase::{PhaseCore, PhaseReply};
use std::alloc::Global;
use std::process::Abort;
use std::test::Fail;
use tier_lock::Kept;

const OSC: ClockId = ClockId(0);

const GATE: ClockId = ClockId(1);

/// A core with two clocks.
#[derive(Drop)]
pub struct TwoClocks {
    core: PhaseCore,
    ghost clocks: { length core.start.steps ≡ 2 },
}

impl TwoClocks {
    // Makes a call for which there has to be room, on a clock that has to be there.
    fn call(&mut self, rt: &impl Abort, clock: ClockId, set: Option<i32>) -> PhaseReply {
        let has_room = self.core.journal().len() < self.core.total() as usize;
        assert!(rt; has_room && clock.0 < 2);
        match set {
            Some(degrees) => self.core.set(1, clock, degrees),
            None => self.core.get(1, clock),
        }
    }
}

fn with_steps(
    rt: &impl Abort,
    alloc: Global,
    steps: &[u32; 2],
    room: u32,
) -> Result<TwoClocks, Fail> {
    let desc = osc_and_gate(rt, alloc)?;
    assert!(rt; steps[0] <= 360 && steps[1] <= 360);
    let core = PhaseCore::create(alloc, &desc, steps, room)?;
    Ok(TwoClocks { core })
}

// Makes the calls in their order on clocks with so many steps, for which there is just room, and checks
// each answer.
fn check_calls(
    rt: &impl Abort,
    alloc: Global,
    steps: &[u32; 2],
    calls: &[(ClockId, Option<i32>, PhaseReply)],
) -> Result<(), Fail> {
    let count = u32::try_from(calls.len()).ok().ok_or("too many calls")?;
    let mut phases = with_steps(rt, alloc, steps, count)?;
    for (clock, set, reply) in calls {
        assert_eq!(rt; phases.call(rt, *clock, *set), *reply);
    }
    assert_eq!(rt; phases.core.journal().len(), calls.len());
    Ok(())
}

#[test]
fn phases_are_rounded_down_to_steps(rt: HostRuntime) -> Result<(), Fail> {
    let calls = [
        (OSC, Some(100), PhaseReply::Fine),
        (OSC, None, PhaseReply::Phase(90)),
        (OSC, Some(-10), PhaseReply::Fine),
        (OSC, None, PhaseReply::Phase(315)),
        (GATE, Some(102), PhaseReply::Fine),
        (GATE, None, PhaseReply::Phase(102)),
    ];
    check_calls(&rt, rt.alloc(), &[8, 7], &calls)
}

// -2147483648 is 232 degrees after a turn's beginning, and 2147483647 is 127.
#[test]
fn degrees_at_their_bounds(rt: HostRuntime) -> Result<(), Fail> {
    let calls = [
        (OSC, None, PhaseReply::Phase(0)),
        (OSC, Some(i32::MIN), PhaseReply::Fine),
        (OSC, None, PhaseReply::Phase(232)),
        (OSC, Some(i32::MAX), PhaseReply::Fine),
        (OSC, None, PhaseReply::Phase(127)),
        (OSC, Some(-1), PhaseReply::Fine),
        (OSC, None, PhaseReply::Phase(359)),
        (OSC, Some(0), PhaseReply::Fine),
        (OSC, None, PhaseReply::Phase(0)),
        (OSC, Some(359), PhaseReply::Fine),
        (OSC, None, PhaseReply::Phase(359)),
        (OSC, Some(360), PhaseReply::Fine),
        (OSC, None, PhaseReply::Phase(0)),
        (OSC, Some(-361), PhaseReply::Fine),
        (OSC, None, PhaseReply::Phase(359)),
        (OSC, Some(-360), PhaseReply::Fine),
        (OSC, None, PhaseReply::Phase(0)),
    ];
    check_calls(&rt, rt.alloc(), &[360, 0], &calls)
}

#[test]
fn a_clock_without_steps_cannot_be_set(rt: HostRuntime) -> Result<(), Fail> {
    let refused = PhaseReply::Refused(Errno::EINVAL);
    let calls = [
        (GATE, Some(0), refused),
        (GATE, Some(i32::MIN), refused),
        (GATE, Some(i32::MAX), refused),
        (GATE, None, PhaseReply::Phase(0)),
    ];
    check_calls(&rt, rt.alloc(), &[360, 0], &calls)
}

// The one step is at 0 degrees, and of two the second is at 180.
#[test]
fn one_step_and_two(rt: HostRuntime) -> Result<(), Fail> {
    let calls = [
        (OSC, Some(359), PhaseReply::Fine),
        (OSC, None, PhaseReply::Phase(0)),
        (OSC, Some(i32::MIN), PhaseReply::Fine),
        (OSC, None, PhaseReply::Phase(0)),
        (GATE, Some(179), PhaseReply::Fine),
        (GATE, None, PhaseReply::Phase(0)),
        (GATE, Some(180), PhaseReply::Fine),
        (GATE, None, PhaseReply::Phase(180)),
        (GATE, Some(i32::MAX), PhaseReply::Fine),
        (GATE, None, PhaseReply::Phase(0)),
        (GATE, Some(i32::MIN), PhaseReply::Fine),
        (GATE, None, PhaseReply::Phase(180)),
    ];
    check_calls(&rt, rt.alloc(), &[1, 2], &calls)
}

// Of 359 steps the last is at 360 * 358 / 359 degrees, which is a bit less than 359.
#[test]
fn the_most_steps_but_one(rt: HostRuntime) -> Result<(), Fail> {
    let calls = [
        (OSC, Some(359), PhaseReply::Fine),
        (OSC, None, PhaseReply::Phase(358)),
        (OSC, Some(i32::MIN), PhaseReply::Fine),
        (OSC, None, PhaseReply::Phase(232)),
        (OSC, Some(1), PhaseReply::Fine),
        (OSC, None, PhaseReply::Phase(1)),
        (GATE, Some(1), PhaseReply::Fine),
        (GATE, None, PhaseReply::Phase(1)),
    ];
    check_calls(&rt, rt.alloc(), &[359, 360], &calls)
}
