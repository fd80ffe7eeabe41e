//! Prints the answers of a driver's commands.

ghost use Rattle.std.specs.Prelude.{◌≡◌, ◌≤◌, ◌+◌, Some, is_some, IfErr};
ghost use Rattle.clk_io.specs.Counts.{CountsPrintFault};
ghost use Rattle.clk_io.specs.Gathers.{Gathers, StaysGathered};
ghost use Rattle.clk_model.specs.Text.{answer_line, answer_words, answers_text, spaced};

use crate::reply::ReplyText;
use clk_base::{Answer, ValidDesc};
use clk_io::{Gathered, PrintFault, Sink};
use std::alloc::Global;
use std::fmt;

/// Prints a line for each answer, as `DRIVER.K REPLY` or `DRIVER.K skip`: K counts the driver's
/// commands from 1. A clock outside of the description has the empty name.
pub fn print_answers<K: Sink>(
    alloc: Global,
    desc: &ValidDesc,
    driver: &str,
    answers: &[Answer],
    gathered: &mut Gathered,
    out: &mut K,
) -> Result<(), PrintFault>
    ensures gathers { Gathers (K.written out.old) (K.written out.new) gathered.old gathered.new
        (answers_text desc.now.defs driver.now answers.now) result }
    ensures stays { IfErr result (StaysGathered (K.written out.old) (K.written out.new) gathered.old gathered.new
        (answers_text desc.now.defs driver.now answers.now)) }
    ensures tells { is_some (K.written out.new) ≡ is_some (K.written out.old) }
    ensures later { K.faults out.old ≤ K.faults out.new }
    ensures counts { CountsPrintFault (K.faults out.old) (K.faults out.new) result }
{
    for (index, answer) in answers.iter().enumerate() {
        print_answer(alloc, desc, driver, index + 1, *answer, gathered, out)?;
    }
    Ok(())
}

// An answer, printed with the names of this description's clocks.
#[derive(Drop)]
struct AnswerText<'a> {
    desc: &'a ValidDesc,
    answer: Answer,
}

impl<'a> fmt::Display for AnswerText<'a> {
    ghost output = { λ text. Some (spaced (answer_words text.desc.now.defs text.answer)) };

    fn fmt<W: fmt::Write>(&self, f: &mut fmt::Formatter<W>) -> fmt::Result {
        match self.answer {
            Answer::Skip => write!(f, "skip"),
            Answer::Reply(reply) => {
                let text = ReplyText {
                    desc: self.desc,
                    reply,
                };
                write!(f, "{text}")
            }
        }
    }
}

// Prints the line of the command with this number.
fn print_answer<K: Sink>(
    alloc: Global,
    desc: &ValidDesc,
    driver: &str,
    number: usize,
    answer: Answer,
    gathered: &mut Gathered,
    out: &mut K,
) -> Result<(), PrintFault>
    ensures gathers { Gathers (K.written out.old) (K.written out.new) gathered.old gathered.new
        (answer_line desc.now.defs driver.now number answer) result }
    ensures stays { IfErr result (StaysGathered (K.written out.old) (K.written out.new) gathered.old gathered.new
        (answer_line desc.now.defs driver.now number answer)) }
    ensures tells { is_some (K.written out.new) ≡ is_some (K.written out.old) }
    ensures later { K.faults out.old ≤ K.faults out.new }
    ensures counts { CountsPrintFault (K.faults out.old) (K.faults out.new) result }
{
    let answer = AnswerText { desc, answer };
    let line = format!(in alloc; "{driver}.{number} {answer}\n")?;
    gathered.print(line.as_bytes(), out)
}
