//! Drivers make calls of both tiers side by side, and each is answered.
ghost use Rattle.std.specs.Prelude.{◌≡◌, ◌≤◌, IfOk};
ghost use Rattle.clk_framework.specs.Calls.{IsReady};

use bitflags::Flags;
use clk_base::{
    ClkFlags, ClockDef, ClockId, ClockName, Desc, Errno, Handle, Kind, NoPause, Parents, Reply,
    Sleeping, ValidDesc,
};
use clk_framework::{Driver, Framework, Unnamed};
use reg_bank::{Bank, MemBank};
use std::alloc::Global;
use std::marker::{Brand, PhantomData};
use std::process::Abort;
use std::sync::Wait;
use std::test::Fail;
use std::thread;
use std::thread::Threads;
use tier_lock::Named;

const ROUNDS: u32 = 200;

/// A handle that nobody has.
const NOBODYS: Handle = Handle {
    number: 7,
    slot: 0,
    driver: 0,
};

/// A driver of the framework that N names, between two calls.
#[derive(Drop)]
pub struct Worker<B: Bank, N: Named> {
    driver: Driver<B>,
    /// How many of its calls were answered as they have to be.
    answered: u32,
    of: PhantomData<N>,
    ghost ready: { IsReady N.table driver },
}

impl<B: Bank, N: Named> Worker<B, N> {
    // One call: each tenth is a sleeping one.
    fn call<R: Wait + Sync>(&mut self, rt: &R, framework: &Framework<B, N>, round: u32) {
        if self.driver.room() == 0 || self.answered >= ROUNDS {
            return;
        }
        let reply = if round % 10 == 0 {
            framework.call(rt, &mut self.driver, &Sleeping::Get(None), &NoPause)
        } else {
            Ok(framework.running(rt, &mut self.driver, NOBODYS))
        };
        if reply == Ok(Reply::Refused(Errno::ENOENT)) {
            self.answered += 1;
        }
    }
}

// All calls of one driver.
fn work<B: Bank, N: Named, R: Wait + Sync>(
    rt: &R,
    framework: &Framework<B, N>,
    worker: &mut Worker<B, N>,
) {
    for round in 0..ROUNDS {
        worker.call(rt, framework, round);
    }
}

fn make_worker<B: Bank, N: Named>(driver: Driver<B>) -> Worker<B, N>
    requires { IsReady N.table driver }
{
    Worker {
        driver,
        answered: 0,
        of: PhantomData,
    }
}

// All drivers work, each in a piece of its own.
fn work_all<B: Bank + Send, N: Named + Send + Sync, R: Threads + Wait + Sync>(
    rt: &R,
    framework: &Framework<B, N>,
    workers: &mut [Worker<B, N>],
) {
    let run = |_: usize, worker: &mut Worker<B, N>| work(rt, framework, worker);
    thread::for_each_mut(rt, workers, 3, &run);
}

// Three drivers work side by side.
fn drive<B: Bank + Send, N: Named + Send + Sync, R: Threads + Wait + Sync>(
    rt: &R,
    alloc: Global,
    unnamed: Unnamed<B>,
    boot: &mut Driver<B>,
) -> Result<u32, Fail>
    requires named { unnamed.lock.table ≡ N.table }
    requires ready { IsReady N.table boot.old }
    requires first { (boot.old.number ≡ 0) × (boot.old.made ≡ 1) }
    requires room { 600 ≤ boot.old.room }
{
    let framework = Framework::<B, N>::of(unnamed);
    let mut workers = Vec::with_capacity(alloc, 3)?;
    workers.push(make_worker::<B, N>(framework.driver(boot, ROUNDS)))?;
    workers.push(make_worker::<B, N>(framework.driver(boot, ROUNDS)))?;
    workers.push(make_worker::<B, N>(framework.driver(boot, ROUNDS)))?;
    work_all(rt, &framework, workers.as_mut_slice());
    let mut answered = 0u32;
    for worker in &workers {
        answered = answered.saturating_add(worker.answered);
    }
    Ok(answered)
}

// One fixed clock.
fn one_clock(rt: &impl Abort, alloc: Global) -> Result<ValidDesc, Fail>
    ensures { IfOk result (λ desc. desc.words ≡ 1) }
{
    let mut desc = Desc::new(alloc);
    desc.add(ClockDef {
        name: ClockName::new(String::from_str(alloc, "osc")?),
        kind: Kind::FixedRate { rate: 24_000_000 },
        flags: ClkFlags::empty(),
        parents: Parents::new(Vec::new(alloc)),
    })?;
    let complete = desc.has_all_parents();
    assert!(rt; complete);
    Ok(desc.check(alloc, 1)?)
}

#[test]
fn drivers_are_answered_side_by_side(rt: HostRuntime) -> Result<(), Fail> {
    let desc = one_clock(&rt, rt.alloc())?;
    let bank = MemBank::new(rt.alloc())?;
    let (unnamed, mut boot) = Unnamed::create(rt.alloc(), desc, bank, &[0], false, 1_000)?;
    let answered = drive::<MemBank, Brand, HostRuntime>(&rt, rt.alloc(), unnamed, &mut boot)?;
    assert_eq!(rt; answered, 600);
    Ok(())
}
