//! The rule on the work of rounding.

ghost use Rattle.std.specs.Prelude.{◌≡◌, ℕ, suc, ◌+◌, ◌*◌, ◌<◌, ◌≤◌, ◌^◌, min, length, slice_index, All, IsTrue, IfOk};
ghost use Rattle.std.specs.List.{sum_by};
ghost use Rattle.clk_base.specs.Description.{Description, EachClock, FindsFirst};
ghost use Rattle.clk_base.specs.Levels.{depth as most_levels};
ghost use Rattle.clk_base.specs.Tables.{TellsWork, too_much};
ghost use Rattle.clk_base.specs.Valid.{has_its_parents, has_ranges, keeps_counts, keeps_ranges, keeps_work};
ghost use Rattle.clk_base.specs.Work.{divisor_count, work_of};

use super::levels::depth;
use crate::clock::{ClockDef, ClockId, Kind};
use crate::flags::ClkFlags;
use bitflags::Flags;
use clk_io::NoMemory;
use std::alloc::Global;

const MOST_WORK: u64 = 1_048_576;

// More work than this isn't told apart.
const TOO_MUCH: u64 = MOST_WORK + 1;

/// The first clock with too much work.
pub(super) fn first_too_much(alloc: Global, defs: &[ClockDef]) -> Result<Option<ClockId>, NoMemory>
    requires fits { length defs.now < 2 ^ 32 }
    requires parents { EachClock defs.now (has_its_parents defs.now) }
    requires counts { EachClock defs.now (keeps_counts 0 defs.now) }
    requires ranges { EachClock defs.now (keeps_ranges 0 defs.now) }
    ensures { IfOk result (λ found. (words : ℕ) → FindsFirst defs.now (keeps_work words defs.now) found) }
{
    let works = work_table(alloc, defs)?;
    Ok(first_above(&works))
}

// The first clock of a table with too much work.
fn first_above(works: &[u64]) -> Option<ClockId>
    requires { length works.now < 2 ^ 32 }
    ensures { (words : ℕ) (defs : Description) → TellsWork defs most_levels works.now → FindsFirst defs (keeps_work words defs) result }
{
    let place = works.iter().position(|work| *work > MOST_WORK)?;
    Some(ClockId(place as u32))
}

// The work of each clock, cut where it is too much.
fn work_table(alloc: Global, defs: &[ClockDef]) -> Result<Vec<u64>, NoMemory>
    requires parents { EachClock defs.now (has_its_parents defs.now) }
    requires counts { EachClock defs.now (keeps_counts 0 defs.now) }
    requires ranges { EachClock defs.now (keeps_ranges 0 defs.now) }
    ensures { IfOk result (λ works. TellsWork defs.now most_levels works.items) }
{
    let mut works = vec![in alloc; 0u64; defs.len()]?;
    for level in 0..depth() {
        works = one_level_more(alloc, defs, &works)?;
    }
    Ok(works)
}

// The work where lines of possible parents are cut after one clock more, over what is told for fewer.
fn one_level_more(alloc: Global, defs: &[ClockDef], above: &[u64]) -> Result<Vec<u64>, NoMemory>
    requires parents { EachClock defs.now (has_its_parents defs.now) }
    requires counts { EachClock defs.now (keeps_counts 0 defs.now) }
    requires ranges { EachClock defs.now (keeps_ranges 0 defs.now) }
    requires each { length above.now ≡ length defs.now }
    requires small { All (λ work. work ≤ too_much) above.now }
    ensures { (levels : ℕ) → TellsWork defs.now levels above.now → IfOk result (λ works. TellsWork defs.now (suc levels) works.items) }
{
    let mut works = Vec::new(alloc);
    for def in defs {
        let parents = def.parents.as_slice();
        let passes_on = Flags::contains(&def.flags, ClkFlags::SET_RATE_PARENT);
        let work = work_of(def.kind, passes_on, parents.len(), sum_of(above, parents));
        works.push(work.min(TOO_MUCH))?;
    }
    Ok(works)
}

// The sum of the work of clocks.
fn sum_of(above: &[u64], parents: &[ClockId]) -> u64
    requires inside { All (λ p. p.0 < length above.now) parents.now }
    requires small { All (λ work. work ≤ too_much) above.now }
    requires few { length parents.now ≤ 64 }
    ensures sum { result ≡ sum_by (λ p. slice_index above.now p.0) parents.now }
    ensures small { result ≤ 64 * too_much }
{
    let mut sum = 0;
    for p in parents {
        sum += above[p.0 as usize];
    }
    sum
}

// The work of a clock by its kind, whether it passes requests on, how many possible parents it has,
// and the sum of their work.
fn work_of(kind: Kind, passes_on: bool, parents: usize, above: u64) -> u64
    requires ranges { IsTrue (has_ranges kind parents) }
    requires few { parents ≤ 64 }
    requires small { above ≤ 64 * too_much }
    ensures { result ≡ work_of kind passes_on parents above }
{
    match kind {
        Kind::FixedRate { .. } | Kind::Pll { .. } => 1,
        Kind::Factor { .. } | Kind::Gate { .. } => { if passes_on { 1 + above } else { 1 } }
        Kind::Mux { read_only, .. } => {
            if passes_on {
                1 + above
            } else if read_only {
                1
            } else {
                1 + parents as u64
            }
        }
        Kind::Divider {
            width,
            one_based,
            ..
        } => {
            if passes_on {
                1 + divisor_count(width, one_based) * (1 + above)
            } else {
                1
            }
        }
    }
}

// How many divisors are valid for a divider's field.
fn divisor_count(width: u32, one_based: bool) -> u64
    requires { width ≤ 16 }
    ensures count { result ≡ divisor_count width one_based }
    ensures few { result ≤ 2 ^ 16 }
{
    let settings = 1u64 << width;
    if one_based { settings - 1 } else { settings }
}
