//! The baton lies under a mutex, and drivers run side by side.
ghost use Rattle.std.specs.Prelude.{◌≡◌, ◌+◌, ◌<◌, ◌≤◌, false, true, Some, length};
ghost use Rattle.std.specs.Option.{option_map};

use crate::append::append;
use crate::roll::Roll;
use std::alloc::Global;
use std::marker::{Brand, PhantomData};
use std::sync::{Mutex, Wait};
use std::test::Fail;
use std::thread;
use std::thread::Threads;
use tier_lock::{Baton, Lock, Named, Pass};

const ROUNDS: u32 = 300;

/// What the mutex has: the baton of the lock that N names. It is there whenever the mutex is free.
#[derive(Drop)]
pub struct Desk<N: Named> {
    baton: Option<Baton<Roll>>,
    of: PhantomData<N>,
    ghost fits: { option_map (λ b. b.table) baton ≡ Some N.table },
}

impl<N: Named> Desk<N> {
    // Adds a line of the prepare tier with the baton, and puts it back.
    fn prepare<R: Wait>(
        &mut self,
        rt: &R,
        lock: &Lock<Roll>,
        pass: &mut Pass<Roll>,
        number: u32,
    ) -> bool
        requires named { lock.now.table ≡ N.table }
        requires lock { pass.old.table ≡ lock.now.table }
        requires idle { pass.old.turn ≡ false }
        requires empty_handed { pass.old.baton ≡ false }
        requires room { 0 < pass.old.room }
        ensures lock { pass.new.table ≡ pass.old.table }
        ensures idle { pass.new.turn ≡ false }
        ensures empty_handed { pass.new.baton ≡ false }
        ensures number { pass.new.number ≡ pass.old.number }
    {
        let Some(baton) = self.baton.take() else {
            unreachable!()
        };
        lock.lend(pass, baton);
        let done = append(rt, lock, pass, number, true);
        self.baton = Some(lock.hand_back(pass));
        done
    }
}

/// A driver of the lock that N names, between two calls.
#[derive(Drop)]
pub struct Worker<N: Named> {
    pass: Pass<Roll>,
    done: u32,
    of: PhantomData<N>,
    ghost fits: { pass.table ≡ N.table },
    ghost idle: { pass.turn ≡ false },
    ghost empty_handed: { pass.baton ≡ false },
}

// Each tenth line is of the prepare tier.
fn work<N: Named, R: Wait>(rt: &R, lock: &Lock<Roll>, desk: &Mutex<Desk<N>>, worker: &mut Worker<N>)
    requires { lock.now.table ≡ N.table }
{
    for number in 0..ROUNDS {
        if worker.pass.room() == 0 {
            return;
        }
        let pass = &mut worker.pass;
        let added = if number % 10 == 0 {
            desk.lock(rt).prepare(rt, lock, pass, number)
        } else {
            append(rt, lock, pass, number, false)
        };
        if added && worker.done < ROUNDS {
            worker.done += 1;
        }
    }
}

// All drivers work in threads of their own.
fn work_all<N: Named + Send + Sync, R: Threads + Wait + Sync>(
    rt: &R,
    lock: &Lock<Roll>,
    desk: &Mutex<Desk<N>>,
    workers: &mut [Worker<N>],
)
    requires named { lock.now.table ≡ N.table }
    requires some { 0 < length workers.old }
{
    thread::for_each_mut(
        rt,
        workers,
        4,
        &|_, worker: &mut Worker<N>| work(rt, lock, desk, worker),
    );
}

fn make_desk<N: Named>(baton: Baton<Roll>) -> Desk<N>
    requires { baton.table ≡ N.table }
{
    Desk {
        baton: Some(baton),
        of: PhantomData,
    }
}

fn make_worker<N: Named>(pass: Pass<Roll>) -> Worker<N>
    requires fits { pass.table ≡ N.table }
    requires idle { pass.turn ≡ false }
    requires empty_handed { pass.baton ≡ false }
{
    Worker {
        pass,
        done: 0,
        of: PhantomData,
    }
}

// Whether each driver's numbers stand in their order, from 0 on.
fn in_order(roll: &Roll) -> bool {
    let mut next = [0u32; 4];
    for line in &roll.lines {
        let driver = line.driver as usize;
        if driver >= 4 || line.number != next[driver] || line.number == u32::MAX {
            return false;
        }
        next[driver] += 1;
    }
    true
}

// Three drivers work side by side. Then number 0 looks at what they added: how many lines, how many of the prepare tier, and their order.
fn drive<N: Named + Send + Sync, R: Threads + Wait + Sync>(
    rt: &R,
    alloc: Global,
    lock: &Lock<Roll>,
    boot: &mut Pass<Roll>,
    baton: Baton<Roll>,
) -> Result<(usize, usize, bool), Fail>
    requires named { lock.now.table ≡ N.table }
    requires lock { boot.old.table ≡ N.table }
    requires baton { baton.table ≡ N.table }
    requires first { (boot.old.number ≡ 0) × (boot.old.made ≡ 1) }
    requires idle { boot.old.turn ≡ false }
    requires room { 900 ≤ boot.old.room }
{
    let one = lock.split(boot, ROUNDS);
    let two = lock.split(boot, ROUNDS);
    let three = lock.split(boot, ROUNDS);
    let mut workers = Vec::with_capacity(alloc, 3)?;
    workers.push(make_worker::<N>(one))?;
    workers.push(make_worker::<N>(two))?;
    workers.push(make_worker::<N>(three))?;
    let desk = Mutex::new(make_desk::<N>(baton));
    work_all(rt, lock, &desk, workers.as_mut_slice());
    let guard = lock.take(rt, boot);
    let lines = guard.value.lines.len();
    let prepares = guard
        .value
        .lines
        .iter()
        .filter(|line| line.prepares)
        .count();
    let ordered = in_order(&guard.value);
    lock.give_back(boot, guard);
    Ok((lines, prepares, ordered))
}

#[test]
fn drivers_share_the_baton(rt: HostRuntime) -> Result<(), Fail> {
    let roll = Roll::new(rt.alloc(), 900);
    let (lock, mut boot, baton) = Lock::create(rt.alloc(), roll)?;
    let seen = drive::<Brand, HostRuntime>(&rt, rt.alloc(), &lock, &mut boot, baton)?;
    assert!(rt; seen == (900, 90, true));
    Ok(())
}
