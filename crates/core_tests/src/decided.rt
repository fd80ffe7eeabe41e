//! A call that was decided over a copy rounds nothing in its own turn: it reads as many words of the bank,
//! however many rates were rounded for it.

ghost use Rattle.std.specs.Prelude.{◌≡◌, true, IfOk};
ghost use Rattle.clk_machine.specs.Copied.{IsDecided};
ghost use Rattle.clk_machine.specs.Run.{now_of};

mod counting;

use crate::clocks::{Given, described_with};
use crate::cores::is_placed;
use bitflags::Flags;
use clk_base::{ClkFlags, ClockId, Handle, Kind, Pause, Place, Sleeping, Turn, ValidDesc};
use clk_io::NoMemory;
use clk_machine::{Core, Decision};
use counting::Counting;
use std::alloc::Global;
use std::cell::Cell;
use std::process::Abort;
use std::sync::Wait;
use std::test::Fail;

// The handle that the first get is answered with.
const FIRST: Handle = Handle {
    number: 0,
    slot: 0,
    driver: 1,
};

// Counts the candidates of a rounding.
#[derive(Drop)]
struct Candidates {
    count: Cell<u32>,
}

impl Pause for Candidates {
    fn pause<R: Wait + Sync>(&self, _rt: &R, _place: Place) {
        self.count.set(self.count.get().saturating_add(1));
    }
}

// A fixed clock of 1 MHz, and a divider below it with 65,536 settings.
fn divided(rt: &impl Abort, alloc: Global, flags: ClkFlags) -> Result<ValidDesc, Fail>
    ensures { IfOk result (λ desc. desc.words ≡ 1) }
{
    let divider = Kind::Divider {
        word: 0,
        shift: 0,
        width: 16,
        one_based: false,
        power_of_two: false,
    };
    let clocks = [
        Given("osc", Kind::FixedRate { rate: 1_000_000 }, &[]),
        Given("asked", divider, &[0]),
    ];
    described_with(rt, alloc, &clocks, flags, 1)
}

// A call of driver 1 that is answered at once.
fn call(rt: &impl Abort, core: &mut Core<Counting>, what: Sleeping) -> Result<(), Fail> {
    assert!(rt; core.credits_left() > 0 && core.quiet() && is_placed(core, &what));
    let turn = core.begin(1, &what)?;
    assert!(rt; matches!(turn, Turn::Done(_)));
    Ok(())
}

// A call of driver 1 begins as it was decided.
fn begin_decided(
    rt: &impl Abort,
    core: &mut Core<Counting>,
    what: &Sleeping,
    decision: Decision,
) -> Result<Turn, NoMemory>
    requires { core.old.told ≡ true → IsDecided (now_of core.old) 1 what.now decision }
{
    assert!(rt; core.credits_left() > 0 && core.quiet() && is_placed(core, what));
    core.begin_as(1, what, decision)
}

// The candidates that are rounded for a request of the divider, and the words that are read in its turn.
fn requested(
    rt: &(impl Abort + Wait + Sync),
    alloc: Global,
    flags: ClkFlags,
) -> Result<(u32, u32), Fail> {
    let reads = Cell::new(0);
    let desc = divided(rt, alloc, flags)?;
    let bank = Counting::new(&reads);
    let mut core = Core::create(alloc, desc, bank, &[0], false, 100)?;
    call(rt, &mut core, Sleeping::Probe(ClockId(0)))?;
    call(rt, &mut core, Sleeping::Probe(ClockId(1)))?;
    call(rt, &mut core, Sleeping::Get(Some(ClockId(1))))?;
    let candidates = Candidates {
        count: Cell::new(0),
    };
    let what = Sleeping::SetRate(FIRST, 17);
    assert!(rt; core.quiet());
    let copy = core.prep_copy()?;
    let decision = copy.decide(rt, 1, &what, &candidates)?;
    reads.set(0);
    let turn = begin_decided(rt, &mut core, &what, decision)?;
    assert!(rt; turn == Turn::Going);
    Ok((candidates.count.get(), reads.get()))
}

#[test]
fn a_decided_call_reads_as_much_for_many_candidates(rt: HostRuntime) -> Result<(), Fail> {
    let few = requested(&rt, rt.alloc(), ClkFlags::empty())?;
    let many = requested(&rt, rt.alloc(), ClkFlags::SET_RATE_PARENT)?;
    assert!(rt; few.0 <= 1);
    assert!(rt; many.0 >= 65_000);
    assert!(rt; many.1 == few.1);
    Ok(())
}
