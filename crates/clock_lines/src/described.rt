//! The description of the clocks that were read, once all names are known.

ghost use Rattle.std.specs.Prelude.{◌≡◌, ◌<◌, ◌+◌, ◌^◌, [], ◌∷◌, ◌++◌, true, false, map, length, Some, None, IfOk, MatchResult, if◌then◌else◌};
ghost use Rattle.bundle_text.specs.Words.{texts};
ghost use Rattle.clk_base.specs.Description.{has_name};
ghost use Rattle.clock_lines.specs.Section.{place_of, finds_parents, clock_in};
ghost use Rattle.clock_lines.specs.Steps.{StandApart, HaveLines, FindParents, Lacks, LacksOf, places_in};

use crate::gathered::{Gathered, PlacedLine};
use bundle_text::{BundleFault, Reason};
use clk_base::{AddFault, ClockDef, ClockId, Desc, Parents};
use clk_io::NoMemory;
use std::alloc::Global;

// The places of the clocks with these names, where each name is a clock's.
fn parents_of<'a>(
    alloc: Global,
    gathered: &Gathered<'a>,
    names: &[&'a str],
) -> Result<Option<Parents>, NoMemory>
    requires { length gathered.now < 2 ^ 32 }
    ensures { IfOk result (λ found. found ≡ places_in gathered.now (texts names.now)) }
{
    let mut found = Vec::new(alloc);
    for name in names {
        let Some(place) = gathered.place_of(name) else {
            return Ok(None);
        };
        found.push(ClockId(place))?;
    }
    Ok(Some(Parents::new(found)))
}

// The record of a clock, where its parents are found.
#[tactic(auto, unfolding(crate::specs::Section::finds_parents, crate::specs::Section::clock_in))]
fn def_of<'a>(
    alloc: Global,
    gathered: &Gathered<'a>,
    clock: &PlacedLine<'a>,
) -> Result<Option<ClockDef>, NoMemory>
    requires { length gathered.now < 2 ^ 32 }
    ensures { IfOk result (λ def. def ≡ (if finds_parents gathered.now clock.now then Some (clock_in gathered.now clock.now) else None)) }
{
    let Some(parents) = parents_of(alloc, gathered, clock.parents())? else {
        return Ok(None);
    };
    let def = clock.def(alloc, parents)?;
    Ok(Some(def))
}

// The description with a clock whose name no clock of it has.
fn with_def(desc: Desc, def: ClockDef) -> Result<Desc, NoMemory>
    requires few { length desc < 4294967295 }
    requires apart { has_name desc def.name ≡ false }
    ensures { IfOk result (λ after. after ≡ desc ++ def ∷ []) }
{
    let mut desc = desc;
    match desc.add(def) {
        Ok(_) => Ok(desc),
        Err(AddFault::TwiceNamed) => unreachable!(),
        Err(AddFault::NoMemory) => Err(NoMemory),
    }
}

// The description with the clock of a line, where its parents are found. The section begins at a
// place of the text.
fn with_clock<'a>(
    alloc: Global,
    gathered: &Gathered<'a>,
    from: usize,
    desc: Desc,
    clock: &PlacedLine<'a>,
) -> Result<Desc, BundleFault>
    requires names { length gathered.now < 2 ^ 32 }
    requires few { length desc < 4294967295 }
    requires apart { has_name desc clock.now.clock.name ≡ false }
    requires line { from + clock.now.place + 1 < 2 ^ 32 }
    ensures { MatchResult result
        (λ after. (finds_parents gathered.now clock.now ≡ true) × (after ≡ desc ++ clock_in gathered.now clock.now ∷ []))
        (LacksOf from gathered.now clock.now) }
{
    let Some(def) = def_of(alloc, gathered, clock)? else {
        return Err(BundleFault::at_place(from + clock.place(), Reason::UnknownName));
    };
    let desc = with_def(desc, def)?;
    Ok(desc)
}

/// The description of the clocks, or the first clock with a parent that no clock has for its name.
pub(crate) fn describe<'a>(
    alloc: Global,
    gathered: &Gathered<'a>,
    from: usize,
) -> Result<Desc, BundleFault>
    requires few { length gathered.now < 4294967295 }
    requires apart { StandApart gathered.now }
    requires lines { HaveLines from gathered.now }
    ensures { MatchResult result
        (λ desc. FindParents gathered.now (length gathered.now) × (desc ≡ map (clock_in gathered.now) gathered.now))
        (Lacks from gathered.now) }
{
    let mut desc = Desc::new(alloc);
    for clock in gathered.clocks() {
        desc = with_clock(alloc, gathered, from, desc, clock)?;
    }
    Ok(desc)
}

/// The lines of the clocks, counted from 1.
pub(crate) fn line_numbers(
    alloc: Global,
    gathered: &Gathered,
    from: usize,
) -> Result<Vec<u32>, NoMemory>
    requires lines { HaveLines from gathered.now }
    ensures { IfOk result (λ lines. lines.items ≡ map (λ placed. from + placed.place + 1) gathered.now) }
{
    let mut lines = Vec::new(alloc);
    for clock in gathered.clocks() {
        lines.push((from + clock.place() + 1) as u32)?;
    }
    Ok(lines)
}
