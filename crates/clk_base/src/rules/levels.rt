//! The rule on the length of lines of possible parents.

ghost use Rattle.std.specs.Prelude.{◌≡◌, ℕ, suc, ◌<◌, ◌^◌, length, All, IfOk};
ghost use Rattle.std.specs.List.{list_all};
ghost use Rattle.clk_base.specs.Description.{Description, EachClock, FindsFirst};
ghost use Rattle.clk_base.specs.Levels.{depth as most_levels};
ghost use Rattle.clk_base.specs.Valid.{has_its_parents, keeps_levels};
ghost use Rattle.clk_base.specs.Tables.{TellsEnds, flag_at};

use crate::clock::{ClockDef, ClockId};
use clk_io::NoMemory;
use std::alloc::Global;

/// The most clocks that a line of possible parents may have in a valid description.
pub fn depth() -> u32
    ensures { result ≡ most_levels }
{
    64
}

/// For each clock, whether every line of possible parents that begins at it has at most as many
/// clocks as a line may have.
pub(super) fn lines_end(alloc: Global, defs: &[ClockDef]) -> Result<Vec<bool>, NoMemory>
    requires { EachClock defs.now (has_its_parents defs.now) }
    ensures { IfOk result (λ ends. TellsEnds defs.now most_levels ends.items) }
{
    let mut ends = vec![in alloc; false; defs.len()]?;
    for level in 0..depth() {
        ends = one_level_more(alloc, defs, &ends)?;
    }
    Ok(ends)
}

// The same for one clock more, over what is told for fewer.
fn one_level_more(alloc: Global, defs: &[ClockDef], above: &[bool]) -> Result<Vec<bool>, NoMemory>
    requires parents { EachClock defs.now (has_its_parents defs.now) }
    requires each { length above.now ≡ length defs.now }
    ensures { (levels : ℕ) → TellsEnds defs.now levels above.now → IfOk result (λ ends. TellsEnds defs.now (suc levels) ends.items) }
{
    let mut ends = Vec::new(alloc);
    for def in defs {
        ends.push(all_end(above, def.parents.as_slice()))?;
    }
    Ok(ends)
}

// Whether all these clocks are told of.
fn all_end(above: &[bool], parents: &[ClockId]) -> bool
    requires { All (λ p. p.0 < length above.now) parents.now }
    ensures { result ≡ list_all (λ p. flag_at above.now p.0) parents.now }
{
    for p in parents {
        if !above[p.0 as usize] {
            return false;
        }
    }
    true
}

/// The first clock from which a line of possible parents is too long.
pub(super) fn first_endless(ends: &[bool]) -> Option<ClockId>
    requires { length ends.now < 2 ^ 32 }
    ensures { (words : ℕ) (defs : Description) → TellsEnds defs most_levels ends.now → FindsFirst defs (keeps_levels words defs) result }
{
    let place = ends.iter().position(|ended| !*ended)?;
    Some(ClockId(place as u32))
}
