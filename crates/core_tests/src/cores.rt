//! A core from its opening to the way back: what no contract says, that the calls get on where there
//! is memory, and in which order one call writes its words.

ghost use Rattle.std.specs.Prelude.{◌≡◌, true, IfOk};
ghost use Rattle.clk_machine.specs.Sound.{IsPlaced};

mod noting;

use crate::clocks::{Given, described};
use clk_base::{ClockId, Handle, Kind, Reply, Sleeping, Turn, ValidDesc};
use clk_io::NoMemory;
use clk_machine::{Core, Row};
use noting::Noting;
use reg_bank::Bank;
use std::alloc::Global;
use std::process::Abort;
use std::test::Fail;

const RATE: u64 = 24_000_000;

const OSC: ClockId = ClockId(0);

const TOP: ClockId = ClockId(1);

const MIDDLE: ClockId = ClockId(2);

const LAST: ClockId = ClockId(3);

// A gate at this bit of word 0.
fn gate(bit: u32) -> Kind {
    Kind::Gate {
        word: 0,
        bit,
        set_to_disable: false,
    }
}

// A fixed clock, and three gates in a row below it, at the bits 0 to 2 of word 0.
fn three_gates(rt: &impl Abort, alloc: Global) -> Result<ValidDesc, Fail>
    ensures { IfOk result (λ desc. desc.words ≡ 1) }
{
    let clocks = [
        Given("osc", Kind::FixedRate { rate: RATE }, &[]),
        Given("top", gate(0), &[0]),
        Given("middle", gate(1), &[1]),
        Given("last", gate(2), &[2]),
    ];
    described(rt, alloc, &clocks, 1)
}

/// Whether a call names clocks of the description alone. No other call than these is asked of.
pub(crate) fn is_placed<B: Bank>(core: &Core<B>, what: &Sleeping) -> bool
    ensures { result ≡ true → IsPlaced core.now.start.defs what.now }
{
    match what {
        Sleeping::Get(Some(clock)) | Sleeping::Probe(clock) => (clock.0 as usize)
            < core.desc().len(),
        Sleeping::Get(None)
        | Sleeping::Prepare(_)
        | Sleeping::Unprepare(_)
        | Sleeping::GetRate(_)
        | Sleeping::SetRate(_, _) => true,
        _ => false,
    }
}

// The handle that the first get is answered with.
const FIRST: Handle = Handle {
    number: 0,
    slot: 0,
    driver: 1,
};

// A call of driver 1 that is answered at once, with this reply.
fn call(
    rt: &impl Abort,
    core: &mut Core<Noting>,
    what: Sleeping,
    reply: Reply,
) -> Result<(), NoMemory> {
    assert!(rt; core.credits_left() > 0 && core.quiet() && is_placed(core, &what));
    let turn = core.begin(1, &what)?;
    assert!(rt; turn == Turn::Done(reply));
    Ok(())
}

// The row of a clock is this one.
fn has_row(rt: &impl Abort, core: &Core<Noting>, clock: ClockId, row: Option<Row>) {
    assert!(rt; (clock.0 as usize) < core.desc().len());
    assert!(rt; core.row(clock) == row);
}

// The word of the registers is this one.
fn has_word(rt: &impl Abort, core: &Core<Noting>, word: u32) {
    assert!(rt; core.word_count() > 0);
    assert!(rt; core.word(0) == word);
}

// The row of a clock whose rate nobody protects.
fn row(enable: u32, prepare: u32, on: Option<bool>) -> Option<Row> {
    Some(Row {
        enable,
        prepare,
        protect: 0,
        rate: RATE,
        on,
    })
}

// Registers all clocks, gets a handle of the last, and prepares it twice.
fn prepare_last(rt: &impl Abort, core: &mut Core<Noting>) -> Result<(), NoMemory> {
    has_row(rt, core, LAST, None);
    has_row(rt, core, OSC, None);
    for clock in [OSC, TOP, MIDDLE, LAST] {
        call(rt, core, Sleeping::Probe(clock), Reply::Fine)?;
    }
    call(rt, core, Sleeping::Get(Some(LAST)), Reply::Handle(FIRST))?;
    call(rt, core, Sleeping::GetRate(FIRST), Reply::Rate(RATE))?;
    call(rt, core, Sleeping::Prepare(FIRST), Reply::Fine)?;
    call(rt, core, Sleeping::Prepare(FIRST), Reply::Fine)?;
    has_row(rt, core, LAST, row(0, 2, Some(false)));
    has_row(rt, core, OSC, row(0, 1, None));
    has_word(rt, core, 0);
    Ok(())
}

// Enables and disables it.
fn run_last(rt: &impl Abort, core: &mut Core<Noting>) {
    assert!(rt; core.credits_left() > 0);
    assert!(rt; core.enable(1, FIRST) == Reply::Fine);
    assert!(rt; core.credits_left() > 0);
    assert!(rt; core.running(1, FIRST) == Reply::Yes);
    has_row(rt, core, LAST, row(1, 2, Some(true)));
    has_row(rt, core, OSC, row(1, 1, None));
    has_word(rt, core, 7);
    assert!(rt; core.credits_left() > 0);
    assert!(rt; core.disable(1, FIRST) == Reply::Fine);
    assert!(rt; core.credits_left() > 0);
    assert!(rt; core.running(1, FIRST) == Reply::No);
}

// Unprepares it once more than it was prepared.
fn leave_last(rt: &impl Abort, core: &mut Core<Noting>) -> Result<(), NoMemory> {
    call(rt, core, Sleeping::Unprepare(FIRST), Reply::Fine)?;
    call(rt, core, Sleeping::Unprepare(FIRST), Reply::Fine)?;
    call(rt, core, Sleeping::Unprepare(FIRST), Reply::Warn)?;
    has_row(rt, core, MIDDLE, row(0, 0, Some(false)));
    has_word(rt, core, 0);
    Ok(())
}

// A core over these clocks with 100 credits.
fn opened(rt: &impl Abort, alloc: Global) -> Result<Core<Noting>, Fail> {
    let desc = three_gates(rt, alloc)?;
    Ok(Core::create(alloc, desc, Noting::new(), &[0], false, 100)?)
}

#[test]
fn a_gate_is_used_and_left(rt: HostRuntime) -> Result<(), Fail> {
    let mut core = opened(&rt, rt.alloc())?;
    prepare_last(&rt, &mut core)?;
    run_last(&rt, &mut core);
    leave_last(&rt, &mut core)?;
    assert!(rt; core.journal().len() == 15);
    assert!(rt; core.credits_left() == 85);
    let bank = core.into_bank();
    // the gates open from the root on, and close from the clock on
    assert!(rt; bank.values == [0, 1, 3, 7, 3, 1, 0, 0]);
    assert!(rt; bank.count == 7);
    Ok(())
}
