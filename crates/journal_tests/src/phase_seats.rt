//! Phases behind the lock.

ghost use Rattle.std.specs.Prelude.{◌≡◌, ◌≤◌, ◌<◌, ◌+◌, Some, IfOk, length};
ghost use Rattle.std.specs.Option.{option_map};
ghost use Rattle.shared_log.specs.Entering.{IsReady};

use crate::descriptions::osc_and_gate;
use clk_base::ClockId;
use clk_phase::{PhaseCore, PhaseEntry, PhaseReply, PhaseSeat, Phases};
use std::alloc::Global;
use std::marker::{Brand, PhantomData};
use std::process::Abort;
use std::sync::Wait;
use std::test::Fail;
use std::thread;
use std::thread::Threads;
use tier_lock::Named;

const OSC: ClockId = ClockId(0);

const GATE: ClockId = ClockId(1);

/// A driver of the phases that N names, between two calls.
#[derive(Drop)]
pub struct PhaseWorker<N: Named> {
    seat: PhaseSeat,
    /// Whether each of its calls was answered as it has to be.
    answered: bool,
    of: PhantomData<N>,
    ghost ready: { IsReady N.table seat },
    ghost clocks: { option_map (λ start. length start.steps) seat.fixed ≡ Some 2 },
}

impl<N: Named> PhaseWorker<N> {
    // Sets the phase of the first clock, as every driver does, and asks for it.
    fn work<R: Wait>(&mut self, rt: &R, phases: &Phases)
        requires { phases.now.table ≡ N.table }
    {
        if self.seat.room() < 2 {
            return;
        }
        let set = phases.set(rt, &mut self.seat, OSC, 100);
        let phase = phases.get(rt, &mut self.seat, OSC);
        self.answered = set == PhaseReply::Fine && phase == PhaseReply::Phase(90);
    }
}

fn make_worker<N: Named>(seat: PhaseSeat) -> PhaseWorker<N>
    requires ready { IsReady N.table seat }
    requires clocks { option_map (λ start. length start.steps) seat.fixed ≡ Some 2 }
{
    PhaseWorker {
        seat,
        answered: false,
        of: PhantomData,
    }
}

// All drivers work in threads of their own.
fn work_all<N: Named + Send + Sync, R: Threads + Wait + Sync>(
    rt: &R,
    phases: &Phases,
    workers: &mut [PhaseWorker<N>],
)
    requires named { phases.now.table ≡ N.table }
    requires some { 0 < length workers.old }
{
    thread::for_each_mut(
        rt,
        workers,
        3,
        &|_, worker: &mut PhaseWorker<N>| worker.work(rt, phases),
    );
}

// Three drivers work side by side, and then number 0 asks for the phase.
fn drive<N: Named + Send + Sync, R: Threads + Wait + Sync>(
    rt: &R,
    alloc: Global,
    phases: &Phases,
    boot: &mut PhaseSeat,
) -> Result<(bool, PhaseReply), Fail>
    requires named { phases.now.table ≡ N.table }
    requires ready { IsReady N.table boot.old }
    requires first { (boot.old.number ≡ 0) × (boot.old.made ≡ 1) }
    requires room { boot.old.room ≡ 7 }
    requires clocks { option_map (λ start. length start.steps) boot.old.fixed ≡ Some 2 }
{
    let mut workers = Vec::with_capacity(alloc, 3)?;
    workers.push(make_worker::<N>(phases.seat(boot, 2)))?;
    workers.push(make_worker::<N>(phases.seat(boot, 2)))?;
    workers.push(make_worker::<N>(phases.seat(boot, 2)))?;
    work_all(rt, phases, workers.as_mut_slice());
    let answered = workers.iter().all(|worker| worker.answered);
    Ok((answered, phases.get(rt, boot, OSC)))
}

// Phases of two clocks, with 8 steps and 7.
fn two_clocks(rt: &impl Abort, alloc: Global, room: u32) -> Result<(Phases, PhaseSeat), Fail>
    ensures room { IfOk result (λ r. r.1.room ≡ room) }
    ensures first { IfOk result (λ r. (r.1.number ≡ 0) × (r.1.made ≡ 1)) }
    ensures ready { IfOk result (λ r. IsReady r.0.table r.1) }
    ensures clocks { IfOk result (λ r. option_map (λ start. length start.steps) r.1.fixed ≡ Some 2) }
{
    let desc = osc_and_gate(rt, alloc)?;
    Ok(Phases::create(alloc, &desc, &[8, 7], room)?)
}

#[test]
fn drivers_set_phases_side_by_side(rt: HostRuntime) -> Result<(), Fail> {
    let (phases, mut boot) = two_clocks(&rt, rt.alloc(), 7)?;
    let (answered, phase) = drive::<Brand, HostRuntime>(&rt, rt.alloc(), &phases, &mut boot)?;
    assert!(rt; answered);
    assert_eq!(rt; phase, PhaseReply::Phase(90));
    Ok(())
}

// Ends phases of which one seat was made.
fn close_phases(alloc: Global, phases: Phases, seat: PhaseSeat) -> Result<PhaseCore, Fail>
    requires ready { IsReady phases.table seat }
    requires alone { (seat.number ≡ 0) × (seat.made ≡ 1) }
{
    let mut seats = Vec::with_capacity(alloc, 1)?;
    seats.push(seat)?;
    match phases.close(seats) {
        Ok(core) => Ok(core),
        Err((_, _, no_memory)) => Err(no_memory.into()),
    }
}

#[test]
fn closed_phases_have_all_entries(rt: HostRuntime) -> Result<(), Fail> {
    let (phases, mut boot) = two_clocks(&rt, rt.alloc(), 2)?;
    let reply = phases.set(&rt, &mut boot, GATE, 102);
    assert_eq!(rt; reply, PhaseReply::Fine);
    let reply = phases.get(&rt, &mut boot, GATE);
    assert_eq!(rt; reply, PhaseReply::Phase(102));
    let core = close_phases(rt.alloc(), phases, boot)?;
    let set = PhaseEntry {
        driver: 0,
        clock: GATE,
        set: Some(102),
        reply: PhaseReply::Fine,
    };
    let get = PhaseEntry {
        set: None,
        reply: PhaseReply::Phase(102),
        ..set
    };
    assert_eq!(rt; core.journal(), [set, get].as_slice());
    Ok(())
}
