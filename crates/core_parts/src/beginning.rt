//! What a core begins with: no handle, no holder, no notifier and no hold.

ghost use Rattle.std.specs.Prelude.{◌≡◌, ℕ, ◌<◌, [], None, length, replicate, IfOk};
ghost use Rattle.clk_base.specs.Flags.{sets_rate_gate};
ghost use Rattle.counts_core.specs.Counted.{AreCounts, is_gated};
ghost use Rattle.notifiers.specs.Chains.{Tells};

use crate::held::Held;
use clk_base::ValidDesc;
use clk_io::NoMemory;
use counts_core::Counts;
use notifiers::Notifiers;
use rate_requests::Requests;
use std::alloc::Global;

/// No handle, no holder and no notifier of the clocks of a description. Its one refusal is that memory
/// runs out.
pub fn nobody(alloc: Global, desc: &ValidDesc) -> Result<(Requests, Counts, Notifiers), NoMemory>
    ensures clocks { IfOk result (λ made. made.0.clocks ≡ length desc.now.defs) }
    ensures handles { IfOk result (λ made. made.0.handles ≡ []) }
    ensures gated { IfOk result (λ made. (c : ℕ) → is_gated made.1 c ≡ sets_rate_gate desc.now.defs c) }
    ensures links { IfOk result (λ made. made.1.links ≡ replicate (length desc.now.defs) None) }
    ensures enables { IfOk result (λ made. made.1.enables ≡ replicate (length desc.now.defs) 0) }
    ensures prepares { IfOk result (λ made. made.1.prepares ≡ replicate (length desc.now.defs) 0) }
    ensures exclusives { IfOk result (λ made. made.1.exclusives ≡ replicate (length desc.now.defs) 0) }
    ensures stands { IfOk result (λ made. AreCounts made.1) }
    ensures chains { IfOk result (λ made. made.2 ≡ replicate (length desc.now.defs) []) }
    ensures told { IfOk result (λ made. Tells made.2 []) }
{
    let handles = Requests::create(alloc, desc)?;
    let counts = Counts::create(alloc, desc)?;
    let notifiers = Notifiers::create(alloc, desc)?;
    Ok((handles, counts, notifiers))
}

/// No hold of so many clocks for a change: of prepares, and of enables. Its one refusal is that memory
/// runs out.
pub fn no_holds(alloc: Global, clocks: usize) -> Result<(Held, Held), NoMemory>
    ensures prepares { IfOk result (λ made. made.0 ≡ replicate clocks 0) }
    ensures enables { IfOk result (λ made. made.1 ≡ replicate clocks 0) }
{
    let prepares = Held::create(alloc, clocks)?;
    let enables = Held::create(alloc, clocks)?;
    Ok((prepares, enables))
}
