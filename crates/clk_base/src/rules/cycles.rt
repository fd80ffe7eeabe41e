//! The rule that no clock is among its own possible ancestors.

ghost use Rattle.std.specs.Prelude.{◌≡◌, ℕ, ◌<◌, ◌^◌, length, All, IfOk, OnOk};
ghost use Rattle.clk_base.specs.Description.{EachClock, FindsFirst, parents_of};
ghost use Rattle.clk_base.specs.Levels.{depth as most_levels, reaches_within};
ghost use Rattle.clk_base.specs.Places.{places};
ghost use Rattle.clk_base.specs.Tables.{TellsEnds, IsListed, with_place, with_places};
ghost use Rattle.clk_base.specs.Valid.{has_its_parents, keeps_acyclic};

use crate::clock::{ClockDef, ClockId};
use clk_io::NoMemory;
use std::alloc::Global;

/// The first clock among its own possible ancestors. It is looked for at the clocks alone whose lines
/// of possible parents don't end.
pub(super) fn first_own_ancestor(
    alloc: Global,
    defs: &[ClockDef],
    ends: &[bool],
) -> Result<Option<ClockId>, NoMemory>
    requires fits { length defs.now < 2 ^ 32 }
    requires parents { EachClock defs.now (has_its_parents defs.now) }
    requires ends { TellsEnds defs.now most_levels ends.now }
    ensures { IfOk result (λ found. (words : ℕ) → FindsFirst defs.now (keeps_acyclic words defs.now) found) }
{
    for (i, ended) in ends.iter().enumerate() {
        if *ended {
            continue;
        }
        let c = ClockId(i as u32);
        if is_own_ancestor(alloc, defs, c)? {
            return Ok(Some(c));
        }
    }
    Ok(None)
}

// Whether a line of possible parents leads from the clock back to it: marks the possible ancestors,
// each once.
fn is_own_ancestor(alloc: Global, defs: &[ClockDef], c: ClockId) -> Result<bool, NoMemory>
    requires inside { c.0 < length defs.now }
    requires parents { EachClock defs.now (has_its_parents defs.now) }
    ensures { IfOk result (λ own. own ≡ reaches_within (parents_of defs.now) (length defs.now) c.0 c.0) }
{
    let mut marked = vec![in alloc; false; defs.len()]?;
    let mut reached: Vec<ClockId> = Vec::new(alloc);
    mark_all(
        &mut marked,
        &mut reached,
        defs[c.0 as usize].parents.as_slice(),
    )?;
    let mut at = 0;
    while at < reached.len() {
        let next = reached[at];
        mark_all(
            &mut marked,
            &mut reached,
            defs[next.0 as usize].parents.as_slice(),
        )?;
        at += 1;
    }
    Ok(marked[c.0 as usize])
}

// Marks clocks that aren't marked, and lists them behind those that are.
fn mark_all(
    marked: &mut Vec<bool>,
    reached: &mut Vec<ClockId>,
    clocks: &[ClockId],
) -> Result<(), NoMemory>
    requires inside { All (λ p. p.0 < length marked.old.items) clocks.now }
    requires listed { IsListed marked.old.items (places reached.old.items) }
    ensures each { length marked.new.items ≡ length marked.old.items }
    ensures listed { OnOk result (IsListed marked.new.items (places reached.new.items)) }
    ensures reached { OnOk result (places reached.new.items ≡ with_places (places reached.old.items) (places clocks.now)) }
{
    for clock in clocks {
        mark(marked, reached, *clock)?;
    }
    Ok(())
}

// Marks a clock, unless it is marked, and lists it behind those that are.
fn mark(marked: &mut Vec<bool>, reached: &mut Vec<ClockId>, clock: ClockId) -> Result<(), NoMemory>
    requires inside { clock.0 < length marked.old.items }
    requires listed { IsListed marked.old.items (places reached.old.items) }
    ensures each { length marked.new.items ≡ length marked.old.items }
    ensures listed { OnOk result (IsListed marked.new.items (places reached.new.items)) }
    ensures reached { OnOk result (places reached.new.items ≡ with_place (places reached.old.items) clock.0) }
{
    let place = clock.0 as usize;
    if marked[place] {
        return Ok(());
    }
    reached.push(clock)?;
    marked[place] = true;
    Ok(())
}
