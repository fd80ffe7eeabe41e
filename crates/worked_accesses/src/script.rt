//! A driver with its commands.

use clk_base::{Command, Handle, Reply};
use clk_io::NoMemory;
use driver_runs::{Called, call_of, handle_of, keep_reply, variable_count};
use std::alloc::Global;

/// A driver that goes through its commands: how many it has gone through, and what its variables hold.
#[derive(Drop)]
pub(crate) struct Player<'b> {
    commands: &'b [Command],
    done: usize,
    held: Vec<Option<Handle>>,
}

impl<'b> Player<'b> {
    /// A driver that has gone through none.
    pub(crate) fn new(alloc: Global, commands: &'b [Command]) -> Result<Player<'b>, NoMemory> {
        let held = vec![in alloc; None; variable_count(commands)]?;
        Ok(Player {
            commands,
            done: 0,
            held,
        })
    }

    /// The call of the next command that isn't skipped.
    pub(crate) fn call(&mut self) -> Option<Called> {
        let commands = self.commands;
        for place in self.done..commands.len() {
            self.done = place;
            let command = &commands[place];
            let held = handle_of(self.held.as_slice(), command);
            if let Some(called) = call_of(held, command.act) {
                return Some(called);
            }
        }
        self.done = commands.len();
        None
    }

    /// The call of that command was answered so.
    pub(crate) fn answer(&mut self, reply: Reply) {
        if let Some(command) = self.commands.get(self.done) {
            keep_reply(self.held.as_mut_slice(), command, reply);
            self.done += 1;
        }
    }
}
