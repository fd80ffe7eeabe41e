//! Counting a run's commands, and the answers that are neither `warn`, `skip` nor `err`.

ghost use Rattle.std.specs.Prelude.{◌≡◌, ◌≤◌, length, count_by, is_some, string_bytes, IfOk};
ghost use Rattle.clk_io.specs.Counts.{CountsPrintFault};
ghost use Rattle.clk_io.specs.Gathers.{Gathers};
ghost use Rattle.clk_model.specs.Begin.{most_credits};
ghost use Rattle.clk_run.specs.Texts.{command_count, is_ok_reply, is_ok_answer, ok_count, counts_text};

use clk_base::{Answer, Reply};
use clk_io::{Gathered, NoMemory, PrintFault, Sink};
use drv_scripts::{Listed, Script};
use std::alloc::Global;

/// How many commands these drivers have.
pub(crate) fn command_count(drivers: &[Script]) -> usize
    requires { command_count drivers.now ≤ most_credits }
    ensures { result ≡ command_count drivers.now }
{
    let mut count = 0usize;
    for script in drivers {
        count += script.commands.as_slice().len();
    }
    count
}

// Whether a reply is neither a warning nor a refusal.
fn is_ok_reply(reply: Reply) -> bool
    ensures { result ≡ is_ok_reply reply }
{
    match reply {
        Reply::Warn => false,
        Reply::Refused(_) => false,
        Reply::Fine => true,
        Reply::Yes => true,
        Reply::No => true,
        Reply::Handle(_) => true,
        Reply::Rate(_) => true,
        Reply::Clock(_) => true,
    }
}

// Whether an answer is such a reply.
fn is_ok_answer(answer: Answer) -> bool
    ensures { result ≡ is_ok_answer answer }
{
    match answer {
        Answer::Skip => false,
        Answer::Reply(reply) => is_ok_reply(reply),
    }
}

// How many answers of a driver are such.
fn own_ok_count(answers: &[Answer]) -> usize
    ensures { result ≡ count_by is_ok_answer answers.now }
{
    answers
        .iter()
        .filter(|answer| is_ok_answer(**answer))
        .count()
}

// How many answers of all drivers are such.
fn ok_count(answers: &[Listed<Answer>]) -> usize
    requires { ok_count answers.now ≤ most_credits }
    ensures { result ≡ ok_count answers.now }
{
    let mut count = 0usize;
    for own in answers {
        count += own_ok_count(own.as_slice());
    }
    count
}

// The lines of the three numbers.
fn counts_text(
    alloc: Global,
    drivers: usize,
    commands: usize,
    good: usize,
) -> Result<String, NoMemory>
    ensures { IfOk result (λ text. string_bytes text ≡ counts_text drivers commands good) }
{
    Ok(format!(in alloc; "drivers {drivers}\ncommands {commands}\nok {good}\n")?)
}

/// Prints how many drivers there are, how many commands they have, and how many of their answers are
/// neither `warn`, `skip` nor `err`.
pub(crate) fn print_counts<K: Sink>(
    alloc: Global,
    drivers: &[Script],
    answers: &[Listed<Answer>],
    gathered: &mut Gathered,
    out: &mut K,
) -> Result<(), PrintFault>
    requires commands { command_count drivers.now ≤ most_credits }
    requires good { ok_count answers.now ≤ most_credits }
    ensures gathers { Gathers (K.written out.old) (K.written out.new) gathered.old gathered.new
        (counts_text (length drivers.now) (command_count drivers.now) (ok_count answers.now)) result }
    ensures tells { is_some (K.written out.new) ≡ is_some (K.written out.old) }
    ensures later { K.faults out.old ≤ K.faults out.new }
    ensures counts { CountsPrintFault (K.faults out.old) (K.faults out.new) result }
{
    let commands = command_count(drivers);
    let good = ok_count(answers);
    let text = counts_text(alloc, drivers.len(), commands, good)?;
    gathered.print(text.as_bytes(), out)
}
