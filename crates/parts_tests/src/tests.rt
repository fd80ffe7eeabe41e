//! What no contract says: that the calls get on where there is memory.

ghost use Rattle.std.specs.Prelude.{◌≡◌, ◌<◌, length};

use crate::clocks::described;
use clk_base::{ClockId, Handle, Policy};
use notifiers::{ChainFault, Notifiers};
use rate_requests::Requests;
use std::process::Abort;
use std::test::Fail;

const CLOCK: &str = "fixed osc 24000000\n";

// The ids of a clock's chain are these.
fn expect_ids(rt: &impl Abort, chains: &Notifiers, c: ClockId, ids: &[u32]) {
    let chain = chains.chain(c);
    assert!(rt; chain.len() == ids.len());
    for place in 0..ids.len() {
        assert!(rt; chain[place].id == ids[place]);
    }
}

// Adds four notifiers to the first clock, and takes one away.
fn expect_order(rt: &impl Abort, chains: &mut Notifiers) -> Result<(), Fail>
    requires { 0 < length chains.old }
{
    let c = ClockId(0);
    for (id, priority) in [(1u32, 5), (2, 7), (3, 5), (4, -1)] {
        chains.add(c, id, priority, Policy::Accept)?;
    }
    expect_ids(rt, chains, c, &[2, 1, 3, 4]);
    assert!(rt; chains.add(c, 3, 0, Policy::VetoAll) == Err(ChainFault::Exists));
    assert!(rt; chains.remove(c, 1) && !chains.remove(c, 1));
    expect_ids(rt, chains, c, &[2, 3, 4]);
    Ok(())
}

#[test]
fn priorities_fall_and_equals_keep_their_order(rt: HostRuntime) -> Result<(), Fail> {
    let desc = described(&rt, rt.alloc(), CLOCK, 0)?;
    assert!(rt; desc.len() == 1);
    let mut chains = Notifiers::create(rt.alloc(), &desc)?;
    expect_order(&rt, &mut chains)
}

// The handle with another slot, which no call reads.
fn with_other_slot(handle: Handle) -> Handle
    ensures number { result.number ≡ handle.number }
{
    Handle {
        slot: 4_000_000,
        ..handle
    }
}

// Adds two handles of the first clock, gives one a range and takes it out.
fn expect_handles(rt: &impl Abort, requests: &mut Requests) -> Result<(), Fail>
    requires clocks { 0 < requests.old.clocks }
    requires numbers { length requests.old.handles ≡ 0 }
{
    let c = ClockId(0);
    let first = requests.add(1, c)?;
    let second = with_other_slot(requests.add(2, c)?);
    assert!(rt; (first.number, second.number) == (0, 1));
    requests.set_range(first, 100, 200);
    requests.set_counts(second, 3, 2, 1);
    assert!(rt; requests.of(second).prepares == 3);
    assert!(rt; requests.fits(second, 150, 300) && !requests.fits(second, 201, 300));
    assert!(rt; requests.boundaries(c) == (100, 200));
    requests.remove(first);
    assert!(rt; !requests.live(1, first) && requests.live(2, second));
    assert!(rt; requests.boundaries(c) == (0, u64::MAX));
    Ok(())
}

#[test]
fn numbers_rise_and_boundaries_meet(rt: HostRuntime) -> Result<(), Fail> {
    let desc = described(&rt, rt.alloc(), CLOCK, 0)?;
    assert!(rt; desc.len() == 1);
    let mut requests = Requests::create(rt.alloc(), &desc)?;
    expect_handles(&rt, &mut requests)
}
