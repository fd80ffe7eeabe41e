//! How far a driver has come in its commands.

ghost use Rattle.std.specs.Prelude.{◌≡◌, ◌+◌, [], ◌∷◌, length, drop, is_none, MatchOption, IfOk, OnOk};
ghost use Rattle.clk_model.specs.Follows.{call_of, handle_of};

use crate::called::call_of;
use crate::variables::{handle_of, keep_reply, variable_count};
use clk_base::{Answer, Command, Handle, Reply};
use clk_io::NoMemory;
use std::alloc::Global;

/// How far a driver has come in its commands: what its variables hold, and the answers so far, one a
/// command.
#[derive(Drop)]
pub(crate) struct Standing {
    pub(crate) held: Vec<Option<Handle>>,
    pub(crate) answers: Vec<Answer>,
}

impl Standing {
    ghost use Rattle.driver_runs.specs.Standing.{left_of, PassesOver, IsNew, IsAnswered};

    /// A driver that has answered none of its commands but those that are skipped at once.
    pub(crate) fn new(alloc: Global, commands: &[Command]) -> Result<Standing, NoMemory>
        ensures { IfOk result (IsNew commands.now) }
    {
        let held = vec![in alloc; None; variable_count(commands)]?;
        let answers = Vec::new(alloc);
        let mut standing = Standing { held, answers };
        standing.pass_over(commands)?;
        Ok(standing)
    }

    /// The command that is answered next.
    pub(crate) fn next<'c>(&self, commands: &'c [Command]) -> Option<&'c Command>
        ensures { MatchOption result (left_of commands.now self.now ≡ [])
            (λ c. left_of commands.now self.now ≡ c.now ∷ drop (length self.now.answers.items + 1) commands.now) }
    {
        commands.get(self.answers.len())
    }

    // Whether a command makes no call.
    fn skips(&self, command: &Command) -> bool
        ensures { result ≡ is_none (call_of (handle_of self.now.held.items command.now) command.now.act) }
    {
        call_of(handle_of(self.held.as_slice(), command), command.act).is_none()
    }

    // Passes over the commands that are skipped.
    fn pass_over(&mut self, commands: &[Command]) -> Result<(), NoMemory>
        ensures { OnOk result (PassesOver commands.now self.old self.new) }
    {
        'skipped: while let Some(command) = self.next(commands) {
            if !self.skips(command) {
                return Ok(());
            }
            self.answers.push(Answer::Skip)?;
        }
        Ok(())
    }

    /// The next command is answered so, and the skipped ones behind it are passed over.
    pub(crate) fn answer(
        &mut self,
        commands: &[Command],
        command: &Command,
        reply: Reply,
    ) -> Result<(), NoMemory>
        requires { left_of commands.now self.old ≡ command.now ∷ drop (length self.old.answers.items + 1) commands.now }
        ensures { OnOk result (IsAnswered commands.now self.old command.now reply self.new) }
    {
        keep_reply(self.held.as_mut_slice(), command, reply);
        self.answers.push(Answer::Reply(reply))?;
        self.pass_over(commands)
    }

    /// The answers by themselves.
    pub(crate) fn into_answers(self) -> Vec<Answer>
        ensures { result ≡ self.answers }
    {
        let Standing { held: _, answers } = self;
        answers
    }
}
