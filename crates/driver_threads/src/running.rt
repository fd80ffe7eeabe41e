//! Running boot, and then each driver on a thread of its own.

ghost use Rattle.std.specs.Prelude.{◌≡◌, map, IfOk};
ghost use Rattle.driver_threads.specs.Runs.{CanStart, HasRunOnThreads};
ghost use Rattle.driver_threads.specs.Workers.{AllDone};

use crate::making::make_workers;
use crate::script::run_script;
use crate::working::{gather, work_all};
use clk_base::{Answer, Command, Pause};
use clk_framework::{Driver, Framework, Unnamed};
use clk_io::NoMemory;
use clk_machine::Core;
use drv_scripts::{Listed, Script};
use reg_bank::Bank;
use std::alloc::Global;
use std::marker::Brand;
use std::sync::Wait;
use std::thread::Threads;
use tier_lock::Named;

// Driver 0 runs boot and makes the others, and they run. These are all drivers and their answers.
fn run_all<B: Bank + Send, N: Named + Send + Sync, R: Threads + Wait + Sync, Q: Pause + Sync>(
    rt: &R,
    alloc: Global,
    framework: &Framework<B, N>,
    first: Driver<B>,
    boot: &[Command],
    drivers: &[Script],
    pause: &Q,
) -> Result<(Vec<Driver<B>>, Vec<Listed<Answer>>), NoMemory>
    requires { CanStart N.table first boot.now drivers.now }
    ensures { IfOk result (λ all. AllDone first boot.now (map (λ s. s.commands) drivers.now) all.0.items all.1.items) }
{
    let mut first = first;
    let own = run_script(rt, alloc, framework, &mut first, boot, pause)?;
    let mut workers = make_workers(alloc, framework, &mut first, drivers)?;
    work_all(rt, alloc, framework, workers.as_mut_slice(), pause);
    gather(alloc, first, own, workers)
}

// The framework that N names runs them, and gives its core.
fn run_named<B: Bank + Send, N: Named + Send + Sync, R: Threads + Wait + Sync, Q: Pause + Sync>(
    rt: &R,
    alloc: Global,
    unnamed: Unnamed<B>,
    first: Driver<B>,
    boot: &[Command],
    drivers: &[Script],
    pause: &Q,
) -> Result<(Core<B>, Vec<Listed<Answer>>), NoMemory>
    requires named { unnamed.lock.table ≡ N.table }
    requires starts { CanStart N.table first boot.now drivers.now }
    ensures { IfOk result (λ ran. HasRunOnThreads first.fixed boot.now drivers.now ran.1.items ran.0) }
{
    let framework = Framework::<B, N>::of(unnamed);
    let (all, answers) = run_all(rt, alloc, &framework, first, boot, drivers, pause)?;
    let core = framework.close(all).core;
    Ok((core, answers))
}

/// Runs the commands of boot, and then those of each driver, each driver on a thread of its own where
/// one can be made. The framework is closed then and gives its core; the answers are those of boot
/// and then those of each driver.
///
/// A driver that meets want of memory stops, and the others end; then there is no core.
pub fn run_on_threads<B: Bank + Send, R: Threads + Wait + Sync, Q: Pause + Sync>(
    rt: &R,
    alloc: Global,
    unnamed: Unnamed<B>,
    first: Driver<B>,
    boot: &[Command],
    drivers: &[Script],
    pause: &Q,
) -> Result<(Core<B>, Vec<Listed<Answer>>), NoMemory>
    // The driver is number 0 of this framework and has made no call; it has a credit for each command, and the commands name clocks of the description.
    requires { CanStart unnamed.lock.table first boot.now drivers.now }
    // The core began at the opening that the driver knew, and its journal is a legal run from there, in which boot and then each driver has its calls once, in its order, answered so.
    ensures { IfOk result (λ ran. HasRunOnThreads first.fixed boot.now drivers.now ran.1.items ran.0) }
{
    run_named::<B, Brand, R, Q>(rt, alloc, unnamed, first, boot, drivers, pause)
}
