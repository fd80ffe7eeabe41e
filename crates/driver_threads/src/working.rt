//! Drivers that work side by side.

ghost use Rattle.std.specs.Prelude.{◌≡◌, ◌∷◌, Some, All, map, IfOk};
ghost use Rattle.driver_threads.specs.Going.{MayRun};
ghost use Rattle.driver_threads.specs.Workers.{Worked, HaveWorked};

use crate::worker::Worker;
use clk_base::{Answer, Pause};
use clk_framework::{Driver, Framework};
use clk_io::NoMemory;
use drv_scripts::Listed;
use reg_bank::Bank;
use std::alloc::Global;
use std::sync::Wait;
use std::thread;
use std::thread::Threads;
use tier_lock::Named;

/// Each driver runs its script, in a piece of its own.
pub(crate) fn work_all<
    B: Bank + Send,
    N: Named + Send + Sync,
    R: Threads + Wait + Sync,
    Q: Pause + Sync,
>(rt: &R, alloc: Global, framework: &Framework<B, N>, workers: &mut [Worker<'_, B>], pause: &Q)
    requires { All (λ w. MayRun N.table w.driver w.commands.now) workers.old }
    ensures { HaveWorked (map (λ w. w.driver) workers.old) (map (λ w. w.commands.now) workers.old) (map (λ w. w.driver) workers.new) (map (λ w. w.answers) workers.new) }
{
    if workers.is_empty() {
        return;
    }
    let pieces = workers.len();
    let run = |_: usize, worker: &mut Worker<'_, B>|
        requires { MayRun N.table worker.old.driver worker.old.commands.now }
        ensures { Worked worker.old.driver worker.old.commands.now worker.new.driver worker.new.answers }
    { worker.work(rt, alloc, framework, pause) };
    thread::for_each_mut(rt, workers, pieces, &run);
}

/// All drivers, and their answers, where each has run its script: driver 0 and its answers come first.
pub(crate) fn gather<B: Bank>(
    alloc: Global,
    first: Driver<B>,
    own: Vec<Answer>,
    workers: Vec<Worker<'_, B>>,
) -> Result<(Vec<Driver<B>>, Vec<Listed<Answer>>), NoMemory>
    ensures drivers { IfOk result (λ all. all.0.items ≡ first ∷ map (λ w. w.driver) workers.entry.items) }
    ensures answers { IfOk result (λ all. map Some all.1.items ≡ Some own.items ∷ map (λ w. w.answers) workers.entry.items) }
{
    let mut drivers = Vec::new(alloc);
    drivers.push(first)?;
    let mut answers = Vec::new(alloc);
    answers.push(Listed::new(own))?;
    for worker in workers {
        let (driver, made) = worker.into_parts();
        let Some(made) = made else {
            return Err(NoMemory);
        };
        drivers.push(driver)?;
        answers.push(made)?;
    }
    Ok((drivers, answers))
}
