//! What a call goes on with that a copy has room for, made before it begins.

ghost use Rattle.std.specs.Prelude.{◌≡◌, false, IsOk, OnErr, OnOk};
ghost use Rattle.clk_machine.specs.Changing.{course_of};
ghost use Rattle.clk_machine.specs.Along.{KeepsShape};
ghost use Rattle.clk_machine.specs.Copied.{AreDecided};
ghost use Rattle.clk_machine.specs.Places.{placed};
ghost use Rattle.clk_machine.specs.Ready.{GoesOut, IsReadyFor};
ghost use Rattle.clk_machine.specs.Sound.{IsPlaced, takes_memory};

use super::words::Words;
use crate::change::change_of;
use crate::decision::Decision;
use crate::machine::Machine;
use clk_base::Sleeping;
use clk_flight::Flight;
use clk_io::NoMemory;
use core_parts::Draft;
use notifiers::Chain;
use std::alloc::Global;

/// A flight that a call can begin with, the draft that a change of rate or parent was worked out in, and
/// the chain by which a notifier is added.
#[derive(Drop)]
pub(super) struct Ready {
    pub(super) flight: Flight,
    pub(super) draft: Draft,
    pub(super) chain: Option<Chain>,
}

impl Ready {
    /// Nothing.
    pub(super) fn none(alloc: Global) -> Ready
        ensures { result.flight.going ≡ false }
    {
        Ready {
            flight: Flight::create(alloc),
            draft: Draft::none(alloc),
            chain: None,
        }
    }
}

/// Makes what a call goes on with in a copy, if it does, and the place that it needs. Of the copy no more
/// changes than the place.
pub(super) fn make_ready(
    machine: &mut Machine<Words>,
    ready: &mut Ready,
    driver: u32,
    what: Sleeping,
) -> Result<(), NoMemory>
    requires machine { machine.old.flight.going ≡ false }
    requires quiet { ready.old.flight.going ≡ false }
    requires place { IsPlaced machine.old.desc.defs what }
    ensures ok { OnOk result (IsReadyFor machine.new driver what ready.new.flight (course_of ready.new.draft) ready.new.chain) }
    ensures same { machine.new ≡ placed machine.old machine.new.table.place }
    ensures err { OnErr result (machine.new ≡ machine.old) }
    ensures memory { takes_memory what ≡ false → IsOk result }
{
    if let Some(change) = change_of(what) {
        return machine.ready_change(&mut ready.flight, &mut ready.draft, driver, change);
    }
    match what {
        Sleeping::Get(Some(clock)) => machine.make_place(clock),
        Sleeping::NotifierAdd(handle, id, priority, policy) => {
            ready.chain = machine.ready_notifier(driver, handle, id, priority, policy)?;
            Ok(())
        }
        Sleeping::Prepare(handle) => machine.ready_prepare(&mut ready.flight, driver, handle),
        Sleeping::Unprepare(handle) => machine.ready_unprepare(&mut ready.flight, driver, handle),
        Sleeping::Probe(clock) => machine.ready_probe(&mut ready.flight, driver, clock),
        Sleeping::Sweep => machine.ready_sweep(&mut ready.flight, driver),
        _ => Ok(()),
    }
}

/// Makes what a call goes on with in a copy as it was decided there: of a call that plans it is made from
/// its plan, if it has one, and nothing is planned anew.
pub(super) fn make_decided(
    machine: &mut Machine<Words>,
    ready: &mut Ready,
    driver: u32,
    what: Sleeping,
    decision: &Decision,
) -> Result<(), NoMemory>
    requires machine { machine.old.flight.going ≡ false }
    requires quiet { ready.old.flight.going ≡ false }
    requires place { IsPlaced machine.old.desc.defs what }
    requires decided { AreDecided machine.old driver what decision.now }
    ensures ok { OnOk result (IsReadyFor machine.new driver what ready.new.flight (course_of ready.new.draft) ready.new.chain) }
    ensures same { machine.new ≡ placed machine.old machine.new.table.place }
    ensures err { OnErr result (machine.new ≡ machine.old) }
    ensures memory { takes_memory what ≡ false → IsOk result }
{
    let Some(change) = change_of(what) else {
        return make_ready(machine, ready, driver, what);
    };
    match decision {
        Decision::Script { plan, .. } => machine.ready_decided(
            &mut ready.flight,
            &mut ready.draft,
            driver,
            change,
            plan,
        ),
        Decision::Reply(_) => Ok(()),
        Decision::Inside => Ok(()),
    }
}

/// A call begins in a copy with what was made for it. Takes no memory.
pub(super) fn set_out(machine: &mut Machine<Words>, ready: &mut Ready, driver: u32, what: Sleeping)
    requires ready { IsReadyFor machine.old driver what ready.old.flight (course_of ready.old.draft) ready.old.chain }
    ensures goes { GoesOut machine.old driver what machine.new }
    ensures ready { machine.new.flight.going ≡ false
        → IsReadyFor machine.new driver what ready.new.flight (course_of ready.new.draft) ready.new.chain }
    ensures same { KeepsShape machine.old machine.new }
{
    if !ready.flight.going() {
        return;
    }
    match what {
        Sleeping::Prepare(_) => machine.set_out(&mut ready.flight),
        Sleeping::Probe(_) => machine.set_out(&mut ready.flight),
        Sleeping::Sweep => machine.set_out(&mut ready.flight),
        Sleeping::Unprepare(handle) => {
            let row = machine.known(driver, handle);
            machine.set_lower(&mut ready.flight, handle, row);
        }
        Sleeping::SetRange(handle, least, most) => {
            let row = machine.known(driver, handle);
            machine.set_along(&mut ready.flight, &mut ready.draft);
            machine.write_range(handle, row, least, most);
        }
        Sleeping::SetRate(_, _) => machine.set_along(&mut ready.flight, &mut ready.draft),
        Sleeping::SetRateExclusive(_, _) => {
            machine.set_along(&mut ready.flight, &mut ready.draft)
        }
        Sleeping::SetParent(_, _) => machine.set_along(&mut ready.flight, &mut ready.draft),
        _ => {}
    }
}
