//! Resets behind the lock.

ghost use Rattle.std.specs.Prelude.{◌≡◌, ◌≤◌, ◌<◌, ◌+◌, Some, IfOk, IfSome, length};
ghost use Rattle.shared_log.specs.Entering.{IsReady};

use crate::resets::{USB, handle};
use clk_base::{Errno, Reply};
use reset_core::{ResetCall, ResetCore, ResetEntry, ResetKind, ResetLine, ResetSeat, Resets};
use std::alloc::Global;
use std::marker::{Brand, PhantomData};
use std::process::Abort;
use std::sync::Wait;
use std::test::Fail;
use std::thread;
use std::thread::Threads;
use tier_lock::Named;

/// A driver of the resets that N names, between two calls.
#[derive(Drop)]
pub struct Worker<N: Named> {
    seat: ResetSeat,
    /// Whether each of its calls was answered as it has to be.
    answered: bool,
    of: PhantomData<N>,
    ghost ready: { IsReady N.table seat },
}

impl<N: Named> Worker<N> {
    // Makes a call, if there is room.
    fn call<R: Wait>(&mut self, rt: &R, resets: &Resets, what: &ResetCall) -> Option<Reply>
        requires { resets.now.table ≡ N.table }
    {
        if self.seat.room() == 0 {
            return None;
        }
        Some(resets.call(rt, &mut self.seat, what))
    }

    // Gets a shared handle, deasserts its line and asserts it again.
    fn work<R: Wait>(&mut self, rt: &R, resets: &Resets)
        requires { resets.now.table ≡ N.table }
    {
        let given = self.call(rt, resets, &ResetCall::Get(USB, ResetKind::Shared));
        let Some(Reply::Handle(handle)) = given else {
            return;
        };
        let deasserted = self.call(rt, resets, &ResetCall::Deassert(handle.number));
        let asserted = self.call(rt, resets, &ResetCall::Assert(handle.number));
        self.answered = deasserted == Some(Reply::Fine) && asserted == Some(Reply::Fine);
    }
}

fn make_worker<N: Named>(seat: ResetSeat) -> Worker<N>
    requires { IsReady N.table seat }
{
    Worker {
        seat,
        answered: false,
        of: PhantomData,
    }
}

// All drivers work in threads of their own.
fn work_all<N: Named + Send + Sync, R: Threads + Wait + Sync>(
    rt: &R,
    resets: &Resets,
    workers: &mut [Worker<N>],
)
    requires named { resets.now.table ≡ N.table }
    requires some { 0 < length workers.old }
{
    thread::for_each_mut(
        rt,
        workers,
        3,
        &|_, worker: &mut Worker<N>| worker.work(rt, resets),
    );
}

// Three drivers work side by side, and then number 0 asks whether the line is asserted.
fn drive<N: Named + Send + Sync, R: Threads + Wait + Sync>(
    rt: &R,
    alloc: Global,
    resets: &Resets,
    boot: &mut ResetSeat,
) -> Result<(bool, Reply), Fail>
    requires named { resets.now.table ≡ N.table }
    requires ready { IsReady N.table boot.old }
    requires first { (boot.old.number ≡ 0) × (boot.old.made ≡ 1) }
    requires room { boot.old.room ≡ 11 }
{
    let mut workers = Vec::with_capacity(alloc, 3)?;
    workers.push(make_worker::<N>(resets.seat(boot, 3)))?;
    workers.push(make_worker::<N>(resets.seat(boot, 3)))?;
    workers.push(make_worker::<N>(resets.seat(boot, 3)))?;
    work_all(rt, resets, workers.as_mut_slice());
    let answered = workers.iter().all(|worker| worker.answered);
    resets.call(rt, boot, &ResetCall::Get(USB, ResetKind::Shared));
    Ok((answered, resets.call(rt, boot, &ResetCall::Asserted(3))))
}

fn two_lines(alloc: Global, room: u32) -> Result<(Resets, ResetSeat), Fail>
    ensures room { IfOk result (λ r. r.1.room ≡ room) }
    ensures first { IfOk result (λ r. (r.1.number ≡ 0) × (r.1.made ≡ 1)) }
    ensures ready { IfOk result (λ r. IsReady r.0.table r.1) }
{
    let lines = [ResetLine { word: 0, bit: 3 }, ResetLine { word: 0, bit: 4 }];
    Ok(Resets::create(alloc, 1, &lines, room)?)
}

#[test]
fn drivers_share_a_line_side_by_side(rt: HostRuntime) -> Result<(), Fail> {
    let (resets, mut boot) = two_lines(rt.alloc(), 11)?;
    let (answered, asserted) = drive::<Brand, HostRuntime>(&rt, rt.alloc(), &resets, &mut boot)?;
    assert!(rt; answered);
    assert_eq!(rt; asserted, Reply::Yes);
    Ok(())
}

// Each seat has the next number and the room that it was given, and number 0 has what is left.
#[test]
fn seats_have_their_numbers_and_rooms(rt: HostRuntime) -> Result<(), Fail> {
    let (resets, mut boot) = two_lines(rt.alloc(), 5)?;
    assert_eq!(rt; (boot.number(), boot.room()), (0, 5));
    let first = resets.seat(&mut boot, 0);
    assert_eq!(rt; (first.number(), first.room()), (1, 0));
    let second = resets.seat(&mut boot, 5);
    assert_eq!(rt; (second.number(), second.room()), (2, 5));
    assert_eq!(rt; (boot.number(), boot.room()), (0, 0));
    Ok(())
}

// Ends resets of which two seats were made.
fn close_resets(
    alloc: Global,
    resets: Resets,
    first: ResetSeat,
    second: ResetSeat,
) -> Result<ResetCore, Fail>
    requires ready { IsReady resets.table first × IsReady resets.table second }
    requires first { (first.number ≡ 0) × (first.made ≡ 2) }
    requires second { second.number ≡ 1 }
    ensures { IfOk result (λ core. core.start ≡ resets.fixed) }
{
    let mut seats = Vec::with_capacity(alloc, 2)?;
    seats.push(first)?;
    seats.push(second)?;
    match resets.close(seats) {
        Ok(core) => Ok(core),
        Err((_, _, no_memory)) => Err(no_memory.into()),
    }
}

#[test]
fn closed_resets_have_all_entries(rt: HostRuntime) -> Result<(), Fail> {
    let (resets, mut boot) = two_lines(rt.alloc(), 2)?;
    let mut seat = resets.seat(&mut boot, 1);
    let get = ResetCall::Get(USB, ResetKind::Exclusive);
    assert_eq!(rt; resets.call(&rt, &mut seat, &get), handle(0, 1));
    let refused = Reply::Refused(Errno::EBUSY);
    assert_eq!(rt; resets.call(&rt, &mut boot, &get), refused);
    let core = close_resets(rt.alloc(), resets, boot, seat)?;
    let entries = [
        ResetEntry {
            driver: 1,
            what: get,
            reply: handle(0, 1),
        },
        ResetEntry {
            driver: 0,
            what: get,
            reply: refused,
        },
    ];
    assert_eq!(rt; core.journal(), entries.as_slice());
    Ok(())
}
