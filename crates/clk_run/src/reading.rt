//! Reading a bundle.

ghost use Rattle.std.specs.Prelude.{IfOk, IfErr};
ghost use Rattle.bundle_text.specs.Faults.{Tells};
ghost use Rattle.drv_scripts.specs.Placed.{IsSound};
ghost use Rattle.drv_scripts.specs.Verdict.{Accepts, Refuses};

use drv_scripts::{Bundle, BundleFault, read_bundle};
use std::alloc::Global;

/// The bundle that bytes spell, or the first reason why they spell none, with its line.
pub fn check_bundle(alloc: Global, bytes: &[u8]) -> Result<Bundle, BundleFault>
    // What is read is the bundle that the bytes spell.
    ensures accepted { IfOk result (Accepts bytes.now) }
    // Its parts fit together.
    ensures sound { IfOk result IsSound }
    // Other bytes spell none: this is the first line at fault, and what is wrong with it. Want of memory says nothing of the bytes.
    ensures refused { IfErr result (Tells (Refuses bytes.now)) }
{
    read_bundle(alloc, bytes)
}
