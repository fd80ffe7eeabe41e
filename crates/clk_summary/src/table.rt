//! Prints the table.

ghost use Rattle.std.specs.Prelude.{◌≡◌, ℕ, List, ◌+◌, ◌-◌, ◌<◌, ◌≤◌, ◌++◌, true, Some, length, slice_get, flat_map, is_some, IfErr, IfSome};
ghost use Rattle.std.specs.Option.{option_map};
ghost use Rattle.clk_base.specs.Levels.{depth};
ghost use Rattle.clk_io.specs.Counts.{CountsPrintFault};
ghost use Rattle.clk_io.specs.Gathers.{Gathers, StaysGathered};
ghost use Rattle.clk_machine.specs.Run.{now_of};
ghost use Rattle.clk_model.specs.State.{registered};
ghost use Rattle.clk_model.specs.Summary.{lines_within, summary, summary_line};
ghost use Rattle.clk_model.specs.Tree.{roots, orphans};
ghost use Rattle.clk_summary.specs.Rows.{tops};
ghost use Rattle.clk_summary.specs.Tables.{GathersLines, IsSummary, StaysLines, StaysSummary};

use crate::row::RowText;
use clk_base::{ClockId, depth};
use clk_io::{Gathered, PrintFault, Sink};
use clk_machine::Core;
use clk_tree::Tree;
use reg_bank::Bank;
use std::alloc::Global;

/// What stands in each column.
const HEADER: &str =
    "clock                             enable prepare protect                 rate   hw\n";

/// Prints the summary of a core: a header, and then a line for each registered clock, in preorder
/// from the roots and then from the orphans, the newest attached first. A clock that isn't
/// registered has no line. No memory is taken but for the line at hand.
///
/// Of a core whose bank doesn't tell its words the clause says that the lines behind the header are
/// those of clocks that were registered, and not what their rows tell.
pub fn print_summary<B: Bank, K: Sink>(
    alloc: Global,
    core: &Core<B>,
    gathered: &mut Gathered,
    out: &mut K,
) -> Result<(), PrintFault>
    // Where the bank tells its words the summary of the core's state was gathered or written, else a
    // table of clocks that were registered; after a fault a front of it was written.
    ensures gathers { (text : List ℕ) × IsSummary core.now text × Gathers (K.written out.old) (K.written out.new) gathered.old gathered.new text result }
    // Out of memory, the lines so far are gathered or written and none is lost; after a write that
    // failed nothing is gathered.
    ensures stays { IfErr result (StaysSummary core.now (K.written out.old) (K.written out.new) gathered.old gathered.new) }
    ensures tells { is_some (K.written out.new) ≡ is_some (K.written out.old) }
    ensures later { K.faults out.old ≤ K.faults out.new }
    ensures counts { CountsPrintFault (K.faults out.old) (K.faults out.new) result }
{
    gathered.print(HEADER.as_bytes(), out)?;
    print_tops(alloc, core, gathered, out)
}

// Prints the trees of the roots and then of the orphans.
fn print_tops<B: Bank, K: Sink>(
    alloc: Global,
    core: &Core<B>,
    gathered: &mut Gathered,
    out: &mut K,
) -> Result<(), PrintFault>
    ensures gathers { core.now.told ≡ true
        → Gathers (K.written out.old) (K.written out.new) gathered.old gathered.new
        (flat_map (lines_within depth (now_of core.now) 0) (tops (now_of core.now))) result }
    ensures lines { GathersLines core.now (K.written out.old) (K.written out.new) gathered.old gathered.new result }
    ensures stays { core.now.told ≡ true
        → IfErr result (StaysGathered (K.written out.old) (K.written out.new) gathered.old gathered.new
        (flat_map (lines_within depth (now_of core.now) 0) (tops (now_of core.now)))) }
    ensures lines_stay { IfErr result (StaysLines core.now (K.written out.old) (K.written out.new) gathered.old gathered.new) }
    ensures tells { is_some (K.written out.new) ≡ is_some (K.written out.old) }
    ensures later { K.faults out.old ≤ K.faults out.new }
    ensures counts { CountsPrintFault (K.faults out.old) (K.faults out.new) result }
{
    let mut at = core.tree().top(0);
    for place in 0..core.desc().len() {
        let Some(clock) = at else {
            return Ok(());
        };
        print_tree(alloc, core, 0, clock, gathered, out)?;
        at = next_top(core.tree(), clock, place + 1);
    }
    Ok(())
}

// The root or orphan at this place, which is the one behind this clock. Only behind the last of the
// roots and of the orphans it is searched for.
fn next_top(tree: &Tree, clock: ClockId, place: usize) -> Option<ClockId>
    ensures next { (k : ℕ) → k + 1 ≡ place → slice_get (roots tree.now.defs tree.now.order ++ orphans tree.now.defs tree.now.order tree.now.clocks) k ≡ Some clock.0
        → option_map (λ d. d.0) result ≡ slice_get (roots tree.now.defs tree.now.order ++ orphans tree.now.defs tree.now.order tree.now.clocks) place }
    ensures inside { IfSome result (λ d. d.0 < length tree.now.defs) }
{
    match tree.next_sibling(clock) {
        Some(next) => Some(next),
        None => tree.top(place),
    }
}

// Prints the line of a registered clock on this level and of all below it.
fn print_tree<B: Bank, K: Sink>(
    alloc: Global,
    core: &Core<B>,
    level: u32,
    clock: ClockId,
    gathered: &mut Gathered,
    out: &mut K,
) -> Result<(), PrintFault>
    requires { clock.0 < length core.now.start.defs }
    ensures gathers { core.now.told ≡ true → registered (now_of core.now).clocks clock.0 ≡ true
        → Gathers (K.written out.old) (K.written out.new) gathered.old gathered.new
        (lines_within (depth - level) (now_of core.now) level clock.0) result }
    ensures lines { GathersLines core.now (K.written out.old) (K.written out.new) gathered.old gathered.new result }
    ensures stays { core.now.told ≡ true → registered (now_of core.now).clocks clock.0 ≡ true
        → IfErr result (StaysGathered (K.written out.old) (K.written out.new) gathered.old gathered.new
        (lines_within (depth - level) (now_of core.now) level clock.0)) }
    ensures lines_stay { IfErr result (StaysLines core.now (K.written out.old) (K.written out.new) gathered.old gathered.new) }
    ensures tells { is_some (K.written out.new) ≡ is_some (K.written out.old) }
    ensures later { K.faults out.old ≤ K.faults out.new }
    ensures counts { CountsPrintFault (K.faults out.old) (K.faults out.new) result }
{
    if level >= depth() {
        return Ok(());
    }
    let mut at = core.tree().first_child(clock);
    print_line(alloc, core, level, clock, gathered, out)?;
    for _place in 0..core.desc().len() {
        let Some(child) = at else {
            return Ok(());
        };
        print_tree(alloc, core, level + 1, child, gathered, out)?;
        at = core.tree().next_sibling(child);
    }
    Ok(())
}

// Prints the line of a registered clock.
fn print_line<B: Bank, K: Sink>(
    alloc: Global,
    core: &Core<B>,
    level: u32,
    clock: ClockId,
    gathered: &mut Gathered,
    out: &mut K,
) -> Result<(), PrintFault>
    requires { clock.0 < length core.now.start.defs }
    ensures gathers { core.now.told ≡ true → (now_of core.now).defs ≡ core.now.start.defs → registered (now_of core.now).clocks clock.0 ≡ true
        → Gathers (K.written out.old) (K.written out.new) gathered.old gathered.new (summary_line (now_of core.now) level clock.0) result }
    ensures lines { GathersLines core.now (K.written out.old) (K.written out.new) gathered.old gathered.new result }
    ensures stays { (text : List ℕ) → IfErr result (StaysGathered (K.written out.old) (K.written out.new) gathered.old gathered.new text) }
    ensures tells { is_some (K.written out.new) ≡ is_some (K.written out.old) }
    ensures later { K.faults out.old ≤ K.faults out.new }
    ensures counts { CountsPrintFault (K.faults out.old) (K.faults out.new) result }
{
    let Some(row) = core.row(clock) else {
        return Ok(());
    };
    let name = core.desc().def(clock).name.as_str();
    let text = RowText { level, name, row };
    let line = format!(in alloc; "{text}")?;
    gathered.print(line.as_bytes(), out)
}
