//! The handles that a driver's variables hold.

ghost use Rattle.std.specs.Prelude.{◌≡◌};
ghost use Rattle.clk_model.specs.Follows.{variable_count, handle_of, with_variable, held_after};

use clk_base::{Act, Command, Handle, Reply};

/// How many variables commands use.
pub fn variable_count(commands: &[Command]) -> usize
    // One more than the greatest number of a variable, and 0 where there is none.
    ensures { result ≡ variable_count commands.now }
{
    let mut count = 0usize;
    for command in commands {
        if let Some(var) = command.var {
            count = count.max(var as usize + 1);
        }
    }
    count
}

/// The handle that a command's variable holds.
pub fn handle_of(held: &[Option<Handle>], command: &Command) -> Option<Handle>
    // It is what stands at the variable's number; none of a command without a variable.
    ensures { result ≡ handle_of held.now command.now }
{
    match command.var {
        Some(var) => match held.get(var as usize) {
            Some(handle) => *handle,
            None => None,
        },
        None => None,
    }
}

// Gives a command's variable a handle or none.
fn set_variable(held: &mut [Option<Handle>], command: &Command, handle: Option<Handle>)
    ensures { held.new ≡ with_variable held.old command.now handle }
{
    if let Some(var) = command.var {
        if (var as usize) < held.len() {
            held[var as usize] = handle;
        }
    }
}

/// Leaves in the variables what a command's reply leaves there.
pub fn keep_reply(held: &mut [Option<Handle>], command: &Command, reply: Reply)
    // A handle fills the variable of a get, an ok of a put empties it, and all else stays.
    ensures { held.new ≡ held_after held.old command.now command.now.act reply }
{
    match (command.act, reply) {
        (Act::Get(_), Reply::Handle(handle)) => set_variable(held, command, Some(handle)),
        (Act::Put, Reply::Fine) => set_variable(held, command, None),
        _ => {}
    }
}
