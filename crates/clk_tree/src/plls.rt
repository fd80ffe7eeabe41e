//! The greatest number of PLLs on a line of possible parents.

ghost use Rattle.std.specs.Prelude.{◌≡◌, ℕ, suc, ◌+◌, ◌<◌, ◌≤◌, length, map, if◌then◌else◌, slice_index, All, IfOk};
ghost use Rattle.kind_math.specs.Choices.{greatest_of};
ghost use Rattle.clk_model.specs.Kinds.{is_pll};
ghost use Rattle.clk_model.specs.Script.{plls};
ghost use Rattle.clk_tree.specs.PllCounts.{TellsPlls};

use clk_base::{ClockId, Kind, ValidDesc, depth};
use clk_io::NoMemory;
use std::alloc::Global;

/// The greatest number of PLLs on one line of possible parents.
pub(crate) fn most_plls(alloc: Global, desc: &ValidDesc) -> Result<u32, NoMemory>
    ensures { IfOk result (λ most. most ≡ plls desc.now.defs) }
{
    let mut counts = vec![in alloc; 0u32; desc.len()]?;
    for level in 0..depth() {
        counts = one_level_more(alloc, desc, &counts)?;
    }
    Ok(greatest(&counts))
}

// The numbers on lines of one clock more, over those on lines of fewer.
fn one_level_more(alloc: Global, desc: &ValidDesc, above: &[u32]) -> Result<Vec<u32>, NoMemory>
    requires each { length above.now ≡ length desc.now.defs }
    requires small { (c : ℕ) → slice_index above.now c ≤ 64 }
    ensures { (levels : ℕ) → TellsPlls desc.now.defs levels above.now
        → IfOk result (λ counts. TellsPlls desc.now.defs (suc levels) counts.items) }
{
    let mut counts = Vec::new(alloc);
    for place in 0..desc.len() {
        let def = desc.def(ClockId(place as u32));
        let most = greatest_above(above, def.parents.as_slice());
        counts.push(with_own(def.kind, most))?;
    }
    Ok(counts)
}

// A number of PLLs, and one more for a PLL.
fn with_own(kind: Kind, above: u32) -> u32
    requires { above ≤ 64 }
    ensures { result ≡ (if is_pll kind then 1 else 0) + above }
{
    if matches!(kind, Kind::Pll { .. }) {
        1 + above
    } else {
        above
    }
}

// The greatest of the numbers of these clocks.
fn greatest_above(above: &[u32], parents: &[ClockId]) -> u32
    requires inside { All (λ p. p.0 < length above.now) parents.now }
    requires small { (c : ℕ) → slice_index above.now c ≤ 64 }
    ensures greatest { result ≡ greatest_of (map (λ p. slice_index above.now p.0) parents.now) }
    ensures small { result ≤ 64 }
{
    let mut most = 0;
    for p in parents {
        most = most.max(above[p.0 as usize]);
    }
    most
}

// The greatest of some numbers.
fn greatest(numbers: &[u32]) -> u32
    ensures { result ≡ greatest_of numbers.now }
{
    let mut most = 0;
    for number in numbers {
        most = most.max(*number);
    }
    most
}
