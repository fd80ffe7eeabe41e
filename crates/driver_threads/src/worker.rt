//! A driver with its script, for a thread of its own.

ghost use Rattle.std.specs.Prelude.{◌≡◌, Some, None, MatchResult};
ghost use Rattle.driver_threads.specs.Going.{MayRun};
ghost use Rattle.driver_threads.specs.Workers.{Worked};

use crate::script::run_script;
use clk_base::{Answer, Command, Pause};
use clk_framework::{Driver, Framework};
use clk_io::NoMemory;
use drv_scripts::Listed;
use reg_bank::Bank;
use std::alloc::Global;
use std::sync::Wait;
use tier_lock::Named;

/// A driver with its commands, and its answers once it has run them. It has none where memory ran out.
#[derive(Drop)]
pub(crate) struct Worker<'s, B: Bank> {
    pub(crate) driver: Driver<B>,
    pub(crate) commands: &'s [Command],
    pub(crate) answers: Option<Listed<Answer>>,
}

// The answers, if all were made.
fn all_made(ran: Result<Vec<Answer>, NoMemory>) -> Option<Listed<Answer>>
    ensures { MatchResult ran (λ answers. result ≡ Some answers.items) (λ _. result ≡ None) }
{
    match ran {
        Ok(answers) => Some(Listed::new(answers)),
        Err(NoMemory) => None,
    }
}

impl<'s, B: Bank> Worker<'s, B> {
    // A driver that has run none of its commands.
    pub(crate) fn new(driver: Driver<B>, commands: &'s [Command]) -> Worker<'s, B>
        ensures driver { result.driver ≡ driver }
        ensures commands { result.commands.now ≡ commands.now }
    {
        Worker {
            driver,
            commands,
            answers: None,
        }
    }

    // The driver, and its answers.
    pub(crate) fn into_parts(self) -> (Driver<B>, Option<Listed<Answer>>)
        ensures { result ≡ (self.entry.driver, self.entry.answers) }
    {
        let Worker {
            driver,
            commands: _,
            answers,
        } = self;
        (driver, answers)
    }

    // Runs the commands.
    pub(crate) fn work<N: Named, R: Wait + Sync, Q: Pause>(
        &mut self,
        rt: &R,
        alloc: Global,
        framework: &Framework<B, N>,
        pause: &Q,
    )
        requires { MayRun N.table self.old.driver self.old.commands.now }
        ensures { Worked self.old.driver self.old.commands.now self.new.driver self.new.answers }
    {
        let ran = run_script(rt, alloc, framework, &mut self.driver, self.commands, pause);
        self.answers = all_made(ran);
    }
}
