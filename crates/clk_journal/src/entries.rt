//! Prints the entries of a journal.

ghost use Rattle.std.specs.Prelude.{◌≡◌, ◌≤◌, ◌+◌, is_some, map, string_bytes, IfErr};
ghost use Rattle.clk_io.specs.Counts.{CountsPrintFault};
ghost use Rattle.clk_io.specs.Gathers.{Gathers, StaysGathered};
ghost use Rattle.clk_model.specs.Text.{entry_text, journal_text};

use crate::event::{EventText, TurnText};
use crate::names::driver_name;
use clk_base::{Entry, ValidDesc};
use clk_io::{Gathered, PrintFault, Sink};
use std::alloc::Global;

/// Prints the line of an entry, as `N DRIVER EVENT = RESULT`. The names are those of the drivers,
/// boot's first; a driver behind the last one, and a clock outside of the description, has the empty
/// name.
pub fn print_entry<K: Sink>(
    alloc: Global,
    desc: &ValidDesc,
    names: &[String],
    number: usize,
    entry: &Entry,
    gathered: &mut Gathered,
    out: &mut K,
) -> Result<(), PrintFault>
    ensures gathers { Gathers (K.written out.old) (K.written out.new) gathered.old gathered.new
        (entry_text desc.now.defs (map string_bytes names.now) number entry.now) result }
    ensures stays { IfErr result (StaysGathered (K.written out.old) (K.written out.new) gathered.old gathered.new
        (entry_text desc.now.defs (map string_bytes names.now) number entry.now)) }
    ensures tells { is_some (K.written out.new) ≡ is_some (K.written out.old) }
    ensures later { K.faults out.old ≤ K.faults out.new }
    ensures counts { CountsPrintFault (K.faults out.old) (K.faults out.new) result }
{
    let driver = driver_name(names, entry.driver);
    let event = EventText {
        desc,
        event: entry.event,
    };
    let turn = TurnText {
        desc,
        turn: entry.turn,
    };
    let line = format!(in alloc; "{number} {driver} {event} = {turn}\n")?;
    gathered.print(line.as_bytes(), out)
}

/// Prints a line for each entry of a journal, numbered from 1.
pub fn print_entries<K: Sink>(
    alloc: Global,
    desc: &ValidDesc,
    names: &[String],
    entries: &[Entry],
    gathered: &mut Gathered,
    out: &mut K,
) -> Result<(), PrintFault>
    ensures gathers { Gathers (K.written out.old) (K.written out.new) gathered.old gathered.new
        (journal_text desc.now.defs (map string_bytes names.now) entries.now) result }
    ensures stays { IfErr result (StaysGathered (K.written out.old) (K.written out.new) gathered.old gathered.new
        (journal_text desc.now.defs (map string_bytes names.now) entries.now)) }
    ensures tells { is_some (K.written out.new) ≡ is_some (K.written out.old) }
    ensures later { K.faults out.old ≤ K.faults out.new }
    ensures counts { CountsPrintFault (K.faults out.old) (K.faults out.new) result }
{
    for (index, entry) in entries.iter().enumerate() {
        print_entry(alloc, desc, names, index + 1, entry, gathered, out)?;
    }
    Ok(())
}
