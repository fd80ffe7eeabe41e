//! Room for the entries of a call's steps: the last credit with which a call goes on, by the weight of
//! its script, and the first with which it is refused.

ghost use Rattle.std.specs.Prelude.{◌≡◌, ◌<◌, true, length, IfOk};
ghost use Rattle.clk_machine.specs.Sound.{IsPlaced};

use crate::clocks::{Given, described};
use clk_base::{
    ClockId, Errno, Handle, Kind, MOST_CREDITS, Policy, Reply, Sleeping, Turn, ValidDesc,
};
use clk_io::NoMemory;
use clk_machine::Core;
use reg_bank::MemBank;
use std::alloc::Global;
use std::process::Abort;
use std::test::Fail;

const OSC: ClockId = ClockId(0);

const PLL: ClockId = ClockId(1);

const GATE: ClockId = ClockId(2);

const MUX: ClockId = ClockId(3);

/// The handle that the first get of driver 1 is answered with.
const FIRST: Handle = Handle {
    number: 0,
    slot: 0,
    driver: 1,
};

// 24 MHz, a PLL over it, a gate below that, and a mux of the two, each with a word of its own.
fn pll_and_mux(rt: &impl Abort, alloc: Global) -> Result<ValidDesc, Fail>
    ensures { IfOk result (λ desc. desc.words ≡ 3) }
{
    let pll = Kind::Pll {
        word: 0,
        shift: 0,
        width: 9,
        power_word: 0,
        power_bit: 31,
        least: 100,
        most: 400,
        m: 24,
    };
    let gate = Kind::Gate {
        word: 1,
        bit: 0,
        set_to_disable: false,
    };
    let mux = Kind::Mux {
        word: 2,
        shift: 0,
        width: 1,
        read_only: false,
    };
    let clocks = [
        Given("osc", Kind::FixedRate { rate: 24_000_000 }, &[]),
        Given("p", pll, &[0]),
        Given("g", gate, &[1]),
        Given("m", mux, &[0, 1]),
    ];
    described(rt, alloc, &clocks, 3)
}

// Whether a call names clocks of the description alone.
fn is_placed(core: &Core<MemBank>, what: &Sleeping) -> bool
    ensures { result ≡ true → IsPlaced core.now.start.defs what.now }
{
    match what {
        Sleeping::Get(Some(clock)) | Sleeping::Probe(clock) | Sleeping::SetParent(_, clock) => {
            (clock.0 as usize) < core.desc().len()
        }
        Sleeping::Prepare(_) | Sleeping::NotifierAdd(_, _, _, _) => true,
        _ => false,
    }
}

// Begins a call of driver 1.
fn begin(rt: &impl Abort, core: &mut Core<MemBank>, what: &Sleeping) -> Result<Turn, NoMemory> {
    assert!(rt; core.credits_left() > 0 && core.quiet() && is_placed(core, what));
    core.begin(1, what)
}

/// A call behind others that are answered at once, and the most credits with which it goes on.
#[derive(Clone, Copy)]
struct Row<'a> {
    before: &'a [Sleeping],
    what: Sleeping,
    most: u32,
}

// A core over these clocks with so many credits.
fn opened(rt: &impl Abort, alloc: Global, credits: u32) -> Result<Core<MemBank>, Fail> {
    let desc = pll_and_mux(rt, alloc)?;
    let bank = MemBank::new(alloc)?;
    assert!(rt; credits <= MOST_CREDITS);
    Ok(Core::create(alloc, desc, bank, &[100, 0, 0], false, credits)?)
}

// Calls that are answered at once.
fn make_all(rt: &impl Abort, core: &mut Core<MemBank>, calls: &[Sleeping]) -> Result<(), NoMemory> {
    for what in calls {
        let turn = begin(rt, core, what)?;
        assert!(rt; turn != Turn::Going);
    }
    Ok(())
}

// The turn of a row's call where the core has so many credits, and whether a change is in flight then.
fn turn_of(rt: &impl Abort, alloc: Global, row: &Row, credits: u32) -> Result<(Turn, bool), Fail> {
    let mut core = opened(rt, alloc, credits)?;
    make_all(rt, &mut core, row.before)?;
    let turn = begin(rt, &mut core, &row.what)?;
    Ok((turn, !core.quiet()))
}

#[test]
fn a_call_has_room_up_to_its_last_credit(rt: HostRuntime) -> Result<(), Fail> {
    let all = [
        Sleeping::Probe(OSC),
        Sleeping::Probe(PLL),
        Sleeping::Probe(GATE),
        Sleeping::Probe(MUX),
        Sleeping::Get(Some(MUX)),
        Sleeping::Prepare(FIRST),
        Sleeping::NotifierAdd(FIRST, 1, 0, Policy::Accept),
    ];
    let gate = [
        Sleeping::Probe(OSC),
        Sleeping::Probe(PLL),
        Sleeping::Probe(GATE),
        Sleeping::Get(Some(GATE)),
    ];
    let orphan = [Sleeping::Probe(PLL)];
    let rows = [
        // a raise of at most one PLL, which is 35, and the end
        Row {
            before: &gate,
            what: Sleeping::Prepare(FIRST),
            most: 4_194_268,
        },
        // a notice, a move of 12 steps with a raise and a lower, a visit with its notice, a settling, the
        // end, and a notice that it is called off
        Row {
            before: &all,
            what: Sleeping::SetParent(FIRST, PLL),
            most: 4_194_253,
        },
        // a registration, the new link of an orphan, its settling, and the end
        Row {
            before: &orphan,
            what: Sleeping::Probe(OSC),
            most: 4_194_300,
        },
    ];
    for row in &rows {
        let last = turn_of(&rt, rt.alloc(), row, row.most)?;
        assert!(rt; last == (Turn::Going, true));
        let refused = turn_of(&rt, rt.alloc(), row, row.most + 1)?;
        assert!(rt; refused == (Turn::Done(Reply::Refused(Errno::ENOSPC)), false));
    }
    Ok(())
}
