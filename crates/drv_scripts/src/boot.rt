//! Boot's commands.

ghost use Rattle.std.specs.Prelude.{◌≡◌, ℕ, ◌<◌, ◌++◌, length, map, get_or, slice_set, true, false, Some, None, if◌then◌else◌, IfOk, OnOk};
ghost use Rattle.std.specs.List.{flat_map};
ghost use Rattle.dts_clocks.specs.Assigned.{seen_assigned};
ghost use Rattle.drv_scripts.specs.Spelled.{is_late, probe, probes_without, on_variable, held_for, step_commands, assigned_commands};

use crate::bundle::LateLine;
use clk_base::{Act, ClockId, Command};
use clk_io::{NoMemory, push_some};
use dts_clocks::{Assigned, AssignedStep};
use std::alloc::Global;

// Marks a clock, if it is one of those that may be marked.
fn mark(marks: &mut Vec<bool>, clock: ClockId)
    ensures { marks.new.items ≡ slice_set marks.old.items clock.0 true }
{
    let place = clock.0 as usize;
    if place < marks.len() {
        marks[place] = true;
    }
}

// Which of so many clocks are late ones.
fn late_marks(alloc: Global, clocks: u32, late: &[LateLine]) -> Result<Vec<bool>, NoMemory>
    ensures size { IfOk result (λ marks. length marks.items ≡ clocks) }
    ensures marks { IfOk result (λ marks. (c : ℕ) → c < clocks → get_or marks.items c false ≡ is_late late.now c) }
{
    let mut marks = vec![in alloc; false; clocks as usize]?;
    for line in late {
        mark(&mut marks, line.clock);
    }
    Ok(marks)
}

// The command that registers a clock, unless it is a late one.
fn probe_unless(late: bool, clock: u32) -> Option<Command>
    ensures { result ≡ (if late then None else Some (probe clock)) }
{
    if late {
        return None;
    }
    Some(Command {
        line: 0,
        var: None,
        act: Act::Probe(ClockId(clock)),
    })
}

// The commands that register so many clocks, but for the late ones.
fn probes(alloc: Global, clocks: u32, late: &[LateLine]) -> Result<Vec<Command>, NoMemory>
    ensures { IfOk result (λ commands. commands.items ≡ probes_without late.now clocks) }
{
    let marks = late_marks(alloc, clocks, late)?;
    let mut commands = Vec::new(alloc);
    for clock in 0..clocks {
        let probe = probe_unless(marks[clock as usize], clock);
        push_some(&mut commands, probe)?;
    }
    Ok(commands)
}

// A command of boot on its variable.
fn on_variable(act: Act) -> Command
    ensures { result ≡ on_variable act }
{
    Command {
        line: 0,
        var: Some(0),
        act,
    }
}

// The commands that get a clock, do this with it, and put the handle back.
fn push_held(commands: &mut Vec<Command>, clock: ClockId, act: Act) -> Result<(), NoMemory>
    ensures { OnOk result (commands.new.items ≡ commands.old.items ++ held_for clock act) }
{
    commands.extend_from_slice(&[
        on_variable(Act::Get(Some(clock))),
        on_variable(act),
        on_variable(Act::Put),
    ])?;
    Ok(())
}

// The commands for an assigned clock.
fn push_step(commands: &mut Vec<Command>, step: AssignedStep) -> Result<(), NoMemory>
    ensures { OnOk result (commands.new.items ≡ commands.old.items ++ step_commands step) }
{
    match step {
        AssignedStep::Parent { clock, parent } => push_held(
            commands,
            clock,
            Act::SetParent(parent),
        ),
        AssignedStep::Rate { clock, rate } => push_held(commands, clock, Act::SetRate(rate as u64)),
    }
}

// The commands for what a node assigns.
fn push_steps(commands: &mut Vec<Command>, steps: &[AssignedStep]) -> Result<(), NoMemory>
    ensures { OnOk result (commands.new.items ≡ commands.old.items ++ flat_map step_commands steps.now) }
{
    for step in steps {
        push_step(commands, *step)?;
    }
    Ok(())
}

/// Boot's commands: each clock but the late ones is registered, and then what nodes assign is done,
/// a node's parents before its rates.
pub(crate) fn boot_commands(
    alloc: Global,
    clocks: u32,
    late: &[LateLine],
    assigned: &[Assigned],
) -> Result<Vec<Command>, NoMemory>
    ensures { IfOk result (λ commands. commands.items ≡ probes_without late.now clocks ++ assigned_commands (map seen_assigned assigned.now)) }
{
    let mut commands = probes(alloc, clocks, late)?;
    for node in assigned {
        push_steps(&mut commands, node.steps.as_slice())?;
    }
    Ok(commands)
}
