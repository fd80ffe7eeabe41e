//! The script of a prepare or an unprepare that goes on, and whether there is room for its entries.

ghost use Rattle.std.specs.Prelude.{◌≡◌, ◌+◌, ◌*◌, [], ◌∷◌, nat_le, IfOk};
ghost use Rattle.clk_base.specs.declared.call.Micro.TheVariants.{End};
ghost use Rattle.clk_model.specs.Begin.{most_credits};

use clk_base::{MOST_CREDITS, Micro};
use clk_io::NoMemory;
use std::alloc::Global;

/// A script of this step and the end. Its one refusal is that memory runs out.
pub fn ending(alloc: Global, first: Micro) -> Result<Vec<Micro>, NoMemory>
    ensures { IfOk result (λ steps. steps.items ≡ first ∷ End ∷ []) }
{
    let mut steps = Vec::with_capacity(alloc, 2)?;
    steps.push_reserved(first);
    steps.push_reserved(Micro::End);
    Ok(steps)
}

/// Whether there is room for so many entries after so many.
pub fn fits(used: u64, weight: u64) -> bool
    ensures { result ≡ nat_le (used + weight) most_credits }
{
    used.saturating_add(weight) <= u64::from(MOST_CREDITS)
}

/// How many entries a raise of one PLL comes to at most: 32 polls, and two steps.
const MOST_FOR_A_PLL: u64 = 34;

/// How many entries the last step of a raise or a lower and the end come to.
const LAST_ENTRIES: u64 = 2;

/// How many entries a raise of a path's PLLs and the end come to at most, if a line has so many
/// PLLs.
pub fn most_to_raise(plls: u32) -> u64
    ensures { result ≡ 34 * plls + 2 }
{
    MOST_FOR_A_PLL * u64::from(plls) + LAST_ENTRIES
}

/// How many entries a lower of a path's PLLs and the end come to at most, if a line has so many
/// PLLs.
pub fn most_to_lower(plls: u32) -> u64
    ensures { result ≡ plls + 2 }
{
    u64::from(plls) + LAST_ENTRIES
}
