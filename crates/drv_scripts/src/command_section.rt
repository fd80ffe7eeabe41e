//! The commands of a driver's section.

ghost use Rattle.std.specs.Prelude.{◌≡◌, ◌+◌, ◌-◌, ◌<◌, ◌≤◌, ◌^◌, length, map, IfOk, IfErr, Some, None, true, false, position};
ghost use Rattle.std.specs.List.{list_any};
ghost use Rattle.std.specs.Option.{option_map, option_to_list};
ghost use Rattle.std.specs.Str.{bytes_eq};
ghost use Rattle.bundle_text.specs.Faults.{Tells};
ghost use Rattle.dts_clocks.specs.Consumers.{seen_name};
ghost use Rattle.drv_scripts.specs.Commands.{has_variable, variable_of, after_command, known_command, is_full, known_fault, said_before, variables_before, command_fault, command_at, commands_of};
ghost use Rattle.drv_scripts.specs.Judged.{Reads, ReadsLine};
ghost use Rattle.drv_scripts.specs.Said.{said_command};
ghost use Rattle.drv_scripts.specs.Steps.{TakesCommand, TakesLine};

use crate::command_line::{CommandLine, command_line};
use crate::named::act_in;
use crate::stop::{Stop, stopped};
use crate::variables::Variables;
use bundle_text::{Reason, TextLines};
use clk_base::{Command, ValidDesc};
use clk_io::{NoMemory, push_some};
use dts_clocks::ConsumerName;
use std::alloc::Global;

// The most commands of a driver, and of all drivers.
const MOST_OWN: usize = 65_536;

const MOST_ALL: usize = 1_048_576;

// One command more is one too many behind so many of the driver and of those before it.
#[tactic(auto, unfolding(crate::specs::Commands::is_full))]
fn is_full(own: usize, before: usize) -> bool
    requires few { own ≤ 65536 }
    requires fewer { before ≤ 1048576 }
    ensures { result ≡ is_full own before }
{
    own >= MOST_OWN || before + own >= MOST_ALL
}

// A command uses a variable that it or an earlier `get` names, or none.
#[tactic(auto, unfolding(crate::specs::Commands::has_variable))]
fn has_variable<'a>(variables: &Variables<'a>, said: &CommandLine<'a>) -> bool
    requires { length variables.now ≤ 65536 }
    ensures { result ≡ has_variable variables.now (said_command said.now) }
{
    match *said {
        CommandLine::Acts { var, .. } => variables.has(var),
        CommandLine::Moves { var, .. } => variables.has(var),
        _ => true,
    }
}

// The number of the variable that a command uses, which a `get` adds if it is new.
#[tactic(auto, unfolding(crate::specs::Commands::variable_of))]
fn variable_of<'a>(
    variables: &mut Variables<'a>,
    said: &CommandLine<'a>,
) -> Result<Option<u32>, NoMemory>
    requires { length variables.old < 65536 }
    ensures { IfOk result (λ var. (var ≡ variable_of variables.old (said_command said.now)) × (variables.new ≡ after_command variables.old (said_command said.now))) }
{
    match *said {
        CommandLine::Gets { var, .. } => {
            let number = variables.add(var)?;
            Ok(Some(number))
        }
        CommandLine::Acts { var, .. } => Ok(variables.number(var)),
        CommandLine::Moves { var, .. } => Ok(variables.number(var)),
        CommandLine::Registers { .. } => Ok(None),
        CommandLine::Sweeps => Ok(None),
    }
}

// The command that a line at a place says, one more than may be where the driver is full.
fn take_command<'a>(
    desc: &ValidDesc,
    names: Option<&[ConsumerName]>,
    variables: &mut Variables<'a>,
    at: usize,
    full: bool,
    said: &CommandLine<'a>,
) -> Result<Command, Stop>
    requires room { length variables.old ≤ 65536 }
    requires free { full ≡ false → length variables.old < 65536 }
    requires line { at + 1 < 2 ^ 32 }
    ensures { TakesCommand desc.now.defs (option_map (λ own. map seen_name own.now) names.entry) variables.old full at (said_command said.now) variables.new result }
{
    if !has_variable(variables, said) {
        return Err(stopped(at, Reason::UnknownName));
    }
    let Some(act) = act_in(desc, names, said) else {
        return Err(stopped(at, Reason::UnknownName));
    };
    if full {
        return Err(stopped(at, Reason::TooManyCommands));
    }
    let var = variable_of(variables, said)?;
    Ok(Command {
        line: at as u32 + 1,
        var,
        act,
    })
}

// The command of the line at a place, behind so many of the section and so many before it.
fn read_command<'a>(
    alloc: Global,
    lines: &TextLines<'a>,
    desc: &ValidDesc,
    names: Option<&[ConsumerName]>,
    variables: &mut Variables<'a>,
    from: usize,
    at: usize,
    own: usize,
    before: usize,
) -> Result<Option<Command>, Stop>
    requires variables { variables.old ≡ variables_before lines.now from at }
    requires own { own ≡ length (said_before lines.now from at) }
    requires room { length variables.old ≤ own }
    requires few { own ≤ 65536 }
    requires fewer { before ≤ 1048576 }
    requires order { from ≤ at }
    requires line { at + 1 < 2 ^ 32 }
    ensures read { ReadsLine (command_fault desc.now.defs (option_map (λ own. map seen_name own.now) names.entry) before lines.now from at) at
        (TakesLine desc.now.defs (option_map (λ own. map seen_name own.now) names.entry) lines.now from at own variables.new) result }
    ensures few { IfOk result (λ found. own + length (option_to_list found) ≤ 65536) }
    ensures fewer { IfOk result (λ found. before + own ≤ 1048576 → before + own + length (option_to_list found) ≤ 1048576) }
{
    let words = lines.said_words(alloc, at)?;
    if words.is_empty() {
        return Ok(None);
    }
    let said = match command_line(&words) {
        Ok(said) => said,
        Err(reason) => return Err(stopped(at, reason)),
    };
    let command = take_command(desc, names, variables, at, is_full(own, before), &said)?;
    Ok(Some(command))
}

/// The commands of the lines from one place up to another, which are those of a driver, so many
/// commands of other drivers standing before them. The driver may have the names of a consumer.
pub(crate) fn read_commands(
    alloc: Global,
    lines: &TextLines,
    desc: &ValidDesc,
    names: Option<&[ConsumerName]>,
    from: usize,
    to: usize,
    before: usize,
) -> Result<Vec<Command>, Stop>
    requires order { from ≤ to }
    requires within { to ≤ length lines.now }
    requires few { length lines.now < 2 ^ 31 }
    requires fewer { before ≤ 1048576 }
    ensures read { Reads (command_fault desc.now.defs (option_map (λ own. map seen_name own.now) names.entry) before lines.now from) from to
        (λ commands. commands.items ≡ commands_of desc.now.defs (option_map (λ own. map seen_name own.now) names.entry) lines.now from (to - from)) result }
    ensures few { IfOk result (λ commands. length commands.items ≤ 65536) }
    ensures fewer { IfOk result (λ commands. before + length commands.items ≤ 1048576) }
{
    let mut variables = Variables::new(alloc);
    let mut commands = Vec::new(alloc);
    for at in from..to {
        let own = commands.len();
        let command = read_command(
            alloc,
            lines,
            desc,
            names,
            &mut variables,
            from,
            at,
            own,
            before,
        )?;
        push_some(&mut commands, command)?;
    }
    Ok(commands)
}
