//! What names mean to a driver.

ghost use Rattle.std.specs.Prelude.{◌≡◌, map, position, string_bytes};
ghost use Rattle.std.specs.Option.{option_map};
ghost use Rattle.std.specs.Str.{bytes_eq};
ghost use Rattle.dts_clocks.specs.Consumers.{seen_name};
ghost use Rattle.drv_scripts.specs.Commands.{clock_of_name, clock_for, act_in};
ghost use Rattle.drv_scripts.specs.Said.{said_command};

use crate::command_line::CommandLine;
use clk_base::{Act, ClockId, ValidDesc};
use dts_clocks::ConsumerName;

// Where the first of a consumer's names is this one.
fn place_of_name(names: &[ConsumerName], name: &str) -> Option<usize>
    ensures { result ≡ position (λ n. bytes_eq (string_bytes n.name) name.now) names.now }
{
    names.iter().position(|own| own.name.as_str() == name)
}

// The clock that a consumer's first specifier of this name means, if any.
fn clock_of_name(names: &[ConsumerName], name: &str) -> Option<ClockId>
    ensures { result ≡ clock_of_name (map seen_name names.now) name.now }
{
    let place = place_of_name(names, name)?;
    match names.get(place) {
        Some(own) => own.clock,
        None => None,
    }
}

// The clock that a name means to a driver, which may have the names of a consumer.
#[tactic(auto, unfolding(crate::specs::Commands::clock_for))]
fn clock_for(desc: &ValidDesc, names: Option<&[ConsumerName]>, name: &str) -> Option<ClockId>
    ensures { result ≡ clock_for desc.now.defs (option_map (λ own. map seen_name own.now) names.entry) name.now }
{
    match names {
        Some(names) => clock_of_name(names, name),
        None => desc.find(name),
    }
}

/// What a command asks for. There is nothing where it names a clock that isn't there.
#[tactic(auto, unfolding(crate::specs::Commands::act_in))]
pub(crate) fn act_in(
    desc: &ValidDesc,
    names: Option<&[ConsumerName]>,
    said: &CommandLine,
) -> Option<Act>
    ensures { result ≡ act_in desc.now.defs (option_map (λ own. map seen_name own.now) names.entry) (said_command said.now) }
{
    match *said {
        CommandLine::Gets { name, .. } => Some(Act::Get(clock_for(desc, names, name))),
        CommandLine::Acts { act, .. } => Some(act),
        CommandLine::Moves { name, .. } => {
            let clock = desc.find(name)?;
            Some(Act::SetParent(clock))
        }
        CommandLine::Registers { name } => {
            let clock = desc.find(name)?;
            Some(Act::Probe(clock))
        }
        CommandLine::Sweeps => Some(Act::Sweep),
    }
}
