//! What the words behind the program's name mean.

ghost use Rattle.std.specs.Prelude.{◌≡◌, IfOk};
ghost use Rattle.std.specs.Option.{option_map};
ghost use Rattle.clap.specs.Matches.{found_of};
ghost use Rattle.clap.specs.Values.{kind_of};
ghost use Rattle.clap.specs.Walk.{first_of, rows_of};
ghost use Rattle.clk_cli.specs.Meaning.{texts, count_of, mode_of, is_given, cli_of, read_rows, fault_told, cli_told, meaning};

use crate::cli::{Cli, CliFault, Mode};
use crate::command_line::command_line;
use bundle_text::small_number_up_to;
use clap::error::ErrorKind;
use clap::{ArgMatches, Error};
use std::alloc::Global;

// ---- the command and its count

// The number from 1 to 64 that decimal digits write without a leading zero.
fn count_of(text: &str) -> Option<u32>
    ensures { result ≡ count_of text.now }
{
    match text.as_bytes() {
        [b'0', ..] => None,
        _ => small_number_up_to(64, text),
    }
}

// The command of this name, with its count where one is given.
fn mode_of(name: &str, count: Option<&str>) -> Option<Mode>
    ensures { result ≡ mode_of name.now (option_map (λ text. text.now) count.entry) }
{
    match count {
        None if name == "check" => Some(Mode::Check),
        None if name == "sim" => Some(Mode::Sim),
        None if name == "run" => Some(Mode::Run),
        Some(count) if name == "bench" => Some(Mode::Bench(count_of(count)?)),
        _ => None,
    }
}

// ---- the matches

// Whether a flag with this value is given.
fn is_given(value: Option<&str>) -> bool
    ensures { result ≡ is_given (option_map (λ text. text.now) value.entry) }
{
    match value {
        Some(text) => text == "true",
        None => false,
    }
}

// The first value of this id.
fn first_of<'a>(id: &str, matches: &ArgMatches<'a>) -> Option<&'a str>
    ensures { option_map (λ text. text.now) result ≡ first_of id.now (rows_of (found_of matches.now)) }
{
    matches.get_str(id)
}

// What the matches say.
fn read_matches(matches: &ArgMatches<'_>) -> Option<Cli>
    ensures { result ≡ read_rows (rows_of (found_of matches.now)) }
{
    let journal = is_given(first_of("journal", matches));
    let ignore_unused = is_given(first_of("ignore_unused", matches));
    let name = first_of("command", matches)?;
    let mode = mode_of(name, first_of("count", matches))?;
    Some(Cli {
        mode,
        journal,
        ignore_unused,
    })
}

// ---- the words

// What an error of `clap` tells.
fn fault_in(error: &Error) -> CliFault
    ensures { result ≡ fault_told (kind_of error.now) }
{
    match error.kind() {
        ErrorKind::OutOfMemory => CliFault::NoMemory,
        _ => CliFault::Usage,
    }
}

// What `clap`'s answer says.
fn cli_in(answer: Result<ArgMatches<'_>, Error>) -> Result<Cli, CliFault>
    ensures { result ≡ cli_told answer.entry }
{
    match answer {
        Ok(matches) => match read_matches(&matches) {
            Some(cli) => Ok(cli),
            None => Err(CliFault::Usage),
        },
        Err(error) => Err(fault_in(&error)),
    }
}

/// Reads the words behind the program's name: a command, behind `bench` a count, and the flags
/// `--journal` and `--ignore-unused` anywhere in front of a `--`.
///
/// # Errors
///
/// `Usage` where the words mean nothing, and `NoMemory`.
pub fn words<'w>(alloc: Global, words: &'w [&'w str]) -> Result<Cli, CliFault>
    ensures ok { IfOk result (λ cli. meaning (texts words.now) ≡ Some cli) }
    ensures usage { result ≡ Err CliFault.Usage → meaning (texts words.now) ≡ None }
{
    let Ok(command) = command_line(alloc) else {
        return Err(CliFault::NoMemory);
    };
    cli_in(command.try_get_matches_from(words))
}
