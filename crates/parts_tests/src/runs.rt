//! A long run of calls beside plain lists of holders.

ghost use Rattle.std.specs.Prelude.{◌≡◌};

use crate::beside::Beside;
use crate::clocks::described;
use clk_base::{ClockId, ValidDesc};
use std::alloc::Global;
use std::process::Abort;
use std::test::Fail;

const CLOCKS: u32 = 14;

// The next of a row of numbers that look random.
fn draw(seed: &mut u32) -> u32 {
    *seed = seed.wrapping_mul(1_664_525).wrapping_add(1_013_904_223);
    *seed >> 16
}

// Two fixed clocks, and muxes over clocks in front of them.
const CLOCK_LINES: &str = "\
fixed osc0 24000000\n\
fixed osc1 24000000\n\
mux m2 2 0 1 2 osc1 osc0 set-rate-gate\n\
mux m3 3 0 2 2 m2 osc1\n\
mux m4 4 0 2 2 m3 m2\n\
mux m5 5 0 2 3 m4 m3 m2 set-rate-gate\n\
mux m6 6 0 2 3 m5 m4 m3\n\
mux m7 7 0 2 3 m6 m5 m3\n\
mux m8 8 0 2 3 m7 m6 m4 set-rate-gate\n\
mux m9 9 0 2 3 m8 m7 m4\n\
mux m10 10 0 2 3 m9 m8 m5\n\
mux m11 11 0 2 3 m10 m9 m5 set-rate-gate\n\
mux m12 12 0 2 3 m11 m10 m6\n\
mux m13 13 0 2 3 m12 m11 m6\n";

// One call, and by how many the active and the prepared clocks are to change.
fn turn(beside: &mut Beside, what: u32, c: ClockId) -> (usize, usize)
    ensures { beside.new ≡ beside.old }
{
    match what {
        0 | 1 => (beside.enable(c), 0),
        2 => (beside.disable(c), 0),
        3 | 4 => (0, beside.hold(c)),
        5 => (0, beside.release(c)),
        6 => {
            beside.protect(c);
            (0, 0)
        }
        _ => {
            beside.unprotect(c);
            (0, 0)
        }
    }
}

// One call, after which the kept counts are the plain sums, and so many clocks began or stopped as
// the call told.
fn checked_turn(
    rt: &impl Abort,
    alloc: Global,
    beside: &mut Beside,
    what: u32,
    c: ClockId,
) -> Result<(), Fail>
    ensures { beside.new ≡ beside.old }
{
    let before = beside.held(alloc)?;
    let told = turn(beside, what, c);
    let after = beside.held(alloc)?;
    assert!(rt; before.0.abs_diff(after.0) == told.0);
    assert!(rt; before.1.abs_diff(after.1) == told.1);
    beside.expect_sums(rt, alloc)?;
    Ok(())
}

// Attaches each clock to one in front of it, where that is a possible parent.
fn attach_all(beside: &mut Beside, desc: &ValidDesc)
    requires { desc.now.defs ≡ beside.old }
    ensures { beside.new ≡ beside.old }
{
    for place in 0..CLOCKS {
        let parent = place.saturating_sub(1 + place % 2);
        beside.attach(desc, ClockId(place), ClockId(parent));
    }
}

// Many calls, two of ten of which attach a clock.
fn turns(rt: &impl Abort, alloc: Global, beside: &mut Beside, desc: &ValidDesc) -> Result<(), Fail>
    requires { desc.now.defs ≡ beside.old }
{
    let mut seed = 1;
    for _turn in 0..300 {
        let c = ClockId(draw(&mut seed) % CLOCKS);
        let what = draw(&mut seed) % 10;
        if what < 8 {
            checked_turn(rt, alloc, beside, what, c)?;
        } else {
            beside.attach(desc, c, ClockId(draw(&mut seed) % CLOCKS));
            beside.expect_sums(rt, alloc)?;
        }
    }
    Ok(())
}

#[test]
fn kept_counts_are_plain_sums(rt: HostRuntime) -> Result<(), Fail> {
    let desc = described(&rt, rt.alloc(), CLOCK_LINES, CLOCKS)?;
    let mut beside = Beside::create(rt.alloc(), &desc)?;
    attach_all(&mut beside, &desc);
    turns(&rt, rt.alloc(), &mut beside, &desc)
}
