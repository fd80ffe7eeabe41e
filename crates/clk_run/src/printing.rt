//! Printing the calls of a run: its journal, where it is asked for, and the answers.

ghost use Rattle.std.specs.Prelude.{◌≡◌, ◌+◌, ◌≤◌, [], length, map, drop, is_some, string_bytes, if◌then◌else◌, IfOk};
ghost use Rattle.clk_io.specs.Counts.{CountsPrintFault};
ghost use Rattle.clk_io.specs.Gathers.{Gathers};
ghost use Rattle.clk_model.specs.Begin.{most_credits};
ghost use Rattle.clk_model.specs.Text.{journal_text, all_answers_text};
ghost use Rattle.clk_run.specs.Texts.{shows_journal, counts_answers, names_of, command_count, ok_count, told_text, calls_text};

use crate::counting::print_counts;
use clk_base::{Answer, Entry, ValidDesc};
use clk_cli::{Cli, Mode};
use clk_io::{Gathered, NoMemory, PrintFault, Sink};
use clk_journal::{print_answers, print_entries};
use drv_scripts::{Listed, Script};
use std::alloc::Global;

// Whether the journal is printed.
fn shows_journal(cli: &Cli) -> bool
    ensures { result ≡ shows_journal cli.now }
{
    match cli.mode {
        Mode::Check => false,
        Mode::Sim | Mode::Bench(_) => cli.journal,
        Mode::Run => true,
    }
}

// The names of boot and of the drivers.
fn names_of(alloc: Global, drivers: &[Script]) -> Result<Vec<String>, NoMemory>
    ensures { IfOk result (λ names. map string_bytes names.items ≡ names_of drivers.now) }
{
    let mut names = Vec::new(alloc);
    names.push(String::from_str(alloc, "boot")?)?;
    for script in drivers {
        let name = String::from_str(alloc, script.name.as_str())?;
        names.push(name)?;
    }
    Ok(names)
}

// Prints the journal, where it is shown.
fn print_journal<K: Sink>(
    alloc: Global,
    desc: &ValidDesc,
    shown: bool,
    drivers: &[Script],
    journal: &[Entry],
    gathered: &mut Gathered,
    out: &mut K,
) -> Result<(), PrintFault>
    ensures gathers { Gathers (K.written out.old) (K.written out.new) gathered.old gathered.new
        (if shown then journal_text desc.now.defs (names_of drivers.now) journal.now else []) result }
    ensures tells { is_some (K.written out.new) ≡ is_some (K.written out.old) }
    ensures later { K.faults out.old ≤ K.faults out.new }
    ensures counts { CountsPrintFault (K.faults out.old) (K.faults out.new) result }
{
    if !shown {
        return Ok(());
    }
    let names = names_of(alloc, drivers)?;
    print_entries(alloc, desc, names.as_slice(), journal, gathered, out)
}

// Prints the answers of drivers, each with its name.
fn print_drivers<K: Sink>(
    alloc: Global,
    desc: &ValidDesc,
    drivers: &[Script],
    answers: &[Listed<Answer>],
    gathered: &mut Gathered,
    out: &mut K,
) -> Result<(), PrintFault>
    requires many { length answers.now ≡ length drivers.now }
    ensures gathers { Gathers (K.written out.old) (K.written out.new) gathered.old gathered.new (all_answers_text desc.now.defs (map (λ s. s.name) drivers.now) answers.now) result }
    ensures tells { is_some (K.written out.new) ≡ is_some (K.written out.old) }
    ensures later { K.faults out.old ≤ K.faults out.new }
    ensures counts { CountsPrintFault (K.faults out.old) (K.faults out.new) result }
{
    for (index, script) in drivers.iter().enumerate() {
        print_answers(
            alloc,
            desc,
            script.name.as_str(),
            answers[index].as_slice(),
            gathered,
            out,
        )?;
    }
    Ok(())
}

// Prints the answers of boot and of each driver.
fn print_scripts<K: Sink>(
    alloc: Global,
    desc: &ValidDesc,
    drivers: &[Script],
    answers: &[Listed<Answer>],
    gathered: &mut Gathered,
    out: &mut K,
) -> Result<(), PrintFault>
    requires many { length answers.now ≡ length drivers.now + 1 }
    ensures gathers { Gathers (K.written out.old) (K.written out.new) gathered.old gathered.new (all_answers_text desc.now.defs (names_of drivers.now) answers.now) result }
    ensures tells { is_some (K.written out.new) ≡ is_some (K.written out.old) }
    ensures later { K.faults out.old ≤ K.faults out.new }
    ensures counts { CountsPrintFault (K.faults out.old) (K.faults out.new) result }
{
    print_answers(alloc, desc, "boot", answers[0].as_slice(), gathered, out)?;
    print_drivers(alloc, desc, drivers, &answers[1..], gathered, out)
}

// Whether a command counts the answers in place of printing each.
fn counts_answers(mode: Mode) -> bool
    ensures { result ≡ counts_answers mode }
{
    match mode {
        Mode::Check | Mode::Sim | Mode::Run => false,
        Mode::Bench(_) => true,
    }
}

// Prints the answers of boot and of each driver, or how many those of the drivers are.
fn print_told<K: Sink>(
    alloc: Global,
    desc: &ValidDesc,
    counted: bool,
    drivers: &[Script],
    answers: &[Listed<Answer>],
    gathered: &mut Gathered,
    out: &mut K,
) -> Result<(), PrintFault>
    requires many { length answers.now ≡ length drivers.now + 1 }
    requires commands { command_count drivers.now ≤ most_credits }
    requires good { ok_count (drop 1 answers.now) ≤ most_credits }
    ensures gathers { Gathers (K.written out.old) (K.written out.new) gathered.old gathered.new (told_text counted desc.now.defs drivers.now answers.now) result }
    ensures tells { is_some (K.written out.new) ≡ is_some (K.written out.old) }
    ensures later { K.faults out.old ≤ K.faults out.new }
    ensures counts { CountsPrintFault (K.faults out.old) (K.faults out.new) result }
{
    if counted {
        return print_counts(alloc, drivers, &answers[1..], gathered, out);
    }
    print_scripts(alloc, desc, drivers, answers, gathered, out)
}

/// Prints the journal where the words ask for it, and then the answers of boot and of each driver, or
/// under `bench` how many those of the drivers are.
pub(crate) fn print_calls<K: Sink>(
    alloc: Global,
    desc: &ValidDesc,
    cli: &Cli,
    drivers: &[Script],
    journal: &[Entry],
    answers: &[Listed<Answer>],
    gathered: &mut Gathered,
    out: &mut K,
) -> Result<(), PrintFault>
    requires many { length answers.now ≡ length drivers.now + 1 }
    requires commands { command_count drivers.now ≤ most_credits }
    requires good { ok_count (drop 1 answers.now) ≤ most_credits }
    ensures gathers { Gathers (K.written out.old) (K.written out.new) gathered.old gathered.new (calls_text desc.now.defs cli.now drivers.now journal.now answers.now) result }
    ensures tells { is_some (K.written out.new) ≡ is_some (K.written out.old) }
    ensures later { K.faults out.old ≤ K.faults out.new }
    ensures counts { CountsPrintFault (K.faults out.old) (K.faults out.new) result }
{
    let shown = shows_journal(cli);
    print_journal(alloc, desc, shown, drivers, journal, gathered, out)?;
    let counted = counts_answers(cli.mode);
    print_told(alloc, desc, counted, drivers, answers, gathered, out)
}
