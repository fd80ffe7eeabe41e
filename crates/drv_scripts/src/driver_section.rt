//! The section of a driver.

ghost use Rattle.std.specs.Prelude.{◌≡◌, List, ℕ, ◌+◌, ◌-◌, ◌∷◌, ◌<◌, ◌≤◌, ◌^◌, [], length, map, position, string_bytes, IfOk};
ghost use Rattle.std.specs.Option.{option_map};
ghost use Rattle.std.specs.Str.{bytes_eq};
ghost use Rattle.bundle_sections.specs.Headers.{driver};
ghost use Rattle.dts_clocks.specs.Consumers.{seen_name, seen_consumer};
ghost use Rattle.drv_scripts.specs.Judged.{Reads};
ghost use Rattle.drv_scripts.specs.Sections.{with_clocks, section_from, names_at, section_fault, scripts_between};

use crate::bundle::{DriverName, Script};
use crate::command_section::read_commands;
use crate::listed::Listed;
use crate::stop::{Stop, stopped};
use bundle_text::{Reason, TextLines};
use clk_base::ValidDesc;
use dts_clocks::{Consumer, ConsumerName};
use std::alloc::Global;

// Where the first consumer has this path.
fn place_of_path(consumers: &[Consumer], path: &str) -> Option<usize>
    ensures { result ≡ position (λ c. bytes_eq (string_bytes c.path) path.now) consumers.now }
{
    consumers
        .iter()
        .position(|consumer| consumer.path.as_str() == path)
}

// The names that the path of a header gives a driver, if it has one, or nothing where no consumer
// has the path.
#[tactic(auto, unfolding(crate::specs::Sections::names_at))]
fn names_at<'a>(consumers: &'a [Consumer], path: Option<&str>) -> Option<Option<&'a [ConsumerName]>>
    ensures { option_map (option_map (λ own. map seen_name own.now)) result ≡ names_at (map seen_consumer consumers.now) (option_map (λ p. p.now) path.entry) }
{
    let Some(path) = path else {
        return Some(None);
    };
    let place = place_of_path(consumers, path)?;
    match consumers.get(place) {
        Some(consumer) => Some(Some(consumer.names.as_slice())),
        None => None,
    }
}

/// The driver whose header stands at a place, with the commands up to another, so many commands of
/// other drivers standing before it.
pub(crate) fn read_driver(
    alloc: Global,
    lines: &TextLines,
    desc: &ValidDesc,
    consumers: &[Consumer],
    name: &str,
    path: Option<&str>,
    place: usize,
    end: usize,
    before: usize,
) -> Result<Script, Stop>
    requires order { place < end }
    requires within { end ≤ length lines.now }
    requires few { length lines.now < 2 ^ 31 }
    requires fewer { before ≤ 1048576 }
    ensures read { (drivers : List (List ℕ)) → let a = with_clocks lines.now desc.now.defs (map seen_consumer consumers.now) drivers in
        let says = driver name.now (option_map (λ p. p.now) path.entry) in
        Reads (section_fault a before (section_from says place end)) place end
        (λ script. script ∷ [] ≡ scripts_between a says (place + 1) end) result }
    ensures few { IfOk result (λ script. length script.commands ≤ 65536) }
    ensures fewer { IfOk result (λ script. before + length script.commands ≤ 1048576) }
{
    let Some(names) = names_at(consumers, path) else {
        return Err(stopped(place, Reason::UnknownName));
    };
    let commands = read_commands(alloc, lines, desc, names, place + 1, end, before)?;
    let name = DriverName::new(String::from_str(alloc, name)?);
    Ok(Script {
        name,
        commands: Listed::new(commands),
    })
}
