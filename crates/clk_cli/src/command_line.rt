//! The command line as `clap` reads it.

ghost use Rattle.std.specs.Prelude.{◌≡◌, false, IfOk};
ghost use Rattle.clap.specs.Simple.{app_of};
ghost use Rattle.clap.specs.Walk.{rule_of};
ghost use Rattle.clk_cli.specs.CommandLine.{flag, bare, command, clkbench};

use clap::{Arg, ArgAction, Command};
use std::alloc::{AllocError, Global};

// A flag.
fn flag<'a>(alloc: Global, id: &'a str, long: &'a str) -> Arg<'a>
    ensures rule { rule_of result ≡ flag id.now long.now }
    ensures own { result.global ≡ false }
{
    Arg::new(alloc, id).long(long).action(ArgAction::SetTrue)
}

// The command's name.
fn command<'a>(alloc: Global) -> Arg<'a>
    ensures rule { rule_of result ≡ command }
    ensures own { result.global ≡ false }
{
    Arg::new(alloc, "command").required(true)
}

// The command line before it has arguments.
fn bare<'a>(alloc: Global) -> Command<'a>
    ensures { app_of result ≡ bare }
{
    Command::new(alloc, "clkbench")
        .no_binary_name(true)
        .disable_help_flag(true)
        .disable_version_flag(true)
}

/// Two flags, the command and its count.
pub(crate) fn command_line<'a>(alloc: Global) -> Result<Command<'a>, AllocError>
    ensures { IfOk result (λ c. app_of c ≡ clkbench) }
{
    bare(alloc)
        .arg(flag(alloc, "journal", "journal"))?
        .arg(flag(alloc, "ignore_unused", "ignore-unused"))?
        .arg(command(alloc))?
        .arg(Arg::new(alloc, "count"))
}
