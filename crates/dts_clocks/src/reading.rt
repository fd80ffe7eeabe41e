//! From a tree to what it says of clocks.

ghost use Rattle.std.specs.Prelude.{IfOk, IfErr};
ghost use Rattle.clk_base.specs.Description.{name_of, EachClock};
ghost use Rattle.bundle_text.specs.Names.{is_clock_name};
ghost use Rattle.clk_base.specs.Valid.{has_its_parents};
ghost use Rattle.dts_bindings.specs.Versions.{all_known};
ghost use Rattle.dts_tree.specs.Tree.{seen};
ghost use Rattle.dts_clocks.specs.Loaded.{seen_loaded};
ghost use Rattle.dts_clocks.specs.Verdict.{Accepts, IsFaultOf};

use crate::chart::Chart;
use crate::fault::DtsFault;
use crate::first_pass::read_bindings;
use crate::loaded::Loaded;
use crate::loading::load;
use crate::specifiers::Named;
use dts_tree::DtsTree;
use std::alloc::Global;

/// Reads what a tree says of clocks in a bundle of this version, 1 or 2, or why it is refused.
pub fn read_desc(alloc: Global, tree: &DtsTree, version: u32) -> Result<Loaded, DtsFault>
    ensures loaded { IfOk result (λ loaded. Accepts (all_known version (seen tree.now)) (seen_loaded loaded)) }
    ensures parents { IfOk result (λ loaded. EachClock loaded.desc (has_its_parents loaded.desc)) }
    ensures names { IfOk result (λ loaded. EachClock loaded.desc (λ c. is_clock_name (name_of loaded.desc c))) }
    ensures fault { IfErr result (λ fault. IsFaultOf (all_known version (seen tree.now)) fault) }
{
    let chart = Chart::new(alloc, &tree.nodes, version)?;
    let bindings = read_bindings(alloc, &chart)?;
    let chart = Named::new(alloc, chart, &bindings)?;
    let loaded = load(alloc, &chart, &bindings)?;
    Ok(loaded)
}
