//! What counts begin with.

ghost use Rattle.std.specs.Prelude.{◌≡◌, ℕ, ◌<◌, false, None, length, replicate, slice_index_or, IfOk};
ghost use Rattle.clk_base.specs.Flags.{sets_rate_gate};

use bitflags::Flags;
use clk_base::{ClkFlags, ClockId, ValidDesc};
use clk_io::NoMemory;
use std::alloc::Global;

/// No link for so many clocks.
pub(crate) fn no_links(alloc: Global, clocks: usize) -> Result<Vec<Option<ClockId>>, NoMemory>
    ensures { IfOk result (λ links. links.items ≡ replicate clocks None) }
{
    let mut links = Vec::new(alloc);
    for _clock in 0..clocks {
        links.push(None)?;
    }
    Ok(links)
}

/// No holder for so many clocks.
pub(crate) fn no_holders(alloc: Global, clocks: usize) -> Result<Vec<u32>, NoMemory>
    ensures { IfOk result (λ holders. holders.items ≡ replicate clocks 0) }
{
    let holders = vec![in alloc; 0u32; clocks]?;
    Ok(holders)
}

// Whether a clock protects its rate while it is prepared.
fn is_gated(desc: &ValidDesc, clock: ClockId) -> bool
    requires { clock.0 < length desc.now.defs }
    ensures { result ≡ sets_rate_gate desc.now.defs clock.0 }
{
    Flags::contains(&desc.def(clock).flags, ClkFlags::SET_RATE_GATE)
}

/// For each clock, whether it protects its rate while it is prepared.
pub(crate) fn gated_clocks(alloc: Global, desc: &ValidDesc) -> Result<Vec<bool>, NoMemory>
    ensures size { IfOk result (λ gated. length gated.items ≡ length desc.now.defs) }
    ensures flags { IfOk result (λ gated. (d : ℕ) → d < length desc.now.defs
        → slice_index_or gated.items d false ≡ sets_rate_gate desc.now.defs d) }
{
    let mut gated = Vec::new(alloc);
    for place in 0..desc.len() {
        gated.push(is_gated(desc, ClockId(place as u32)))?;
    }
    Ok(gated)
}
