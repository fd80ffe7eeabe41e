//! The check of a description.

ghost use Rattle.std.specs.Prelude.{◌≡◌, ◌<◌, ◌↔◌, ◌&&◌, nat_lt, length, IsTrue, OnOk, IfOk, IfErr};
ghost use Rattle.std.specs.List.{list_all};
ghost use Rattle.clk_base.specs.Description.{EachClock};
ghost use Rattle.clk_base.specs.Valid.{can_have_parents, has_its_parents, IsValid};
ghost use Rattle.clk_base.specs.Checked.{IsFault};

use crate::clock::{ClockDef, ClockId, Kind};
use crate::desc::Desc;
use crate::fault::DescFault;
use crate::rules::refuse_broken;
use crate::valid_desc::ValidDesc;
use std::alloc::Global;

impl Desc {
    /// Whether each clock has as many possible parents as its kind can have, and each is a clock of the
    /// description.
    pub fn has_all_parents(&self) -> bool
        ensures { IsTrue result ↔ EachClock self.now (has_its_parents self.now) }
    {
        have_parents(self.as_slice())
    }

    /// The description as a valid one for a register bank of so many words, or the first clock that
    /// breaks the first of the rules that is broken. After a refusal the description is gone. Want
    /// of memory may come at any description.
    pub fn check(self, alloc: Global, words: u32) -> Result<ValidDesc, DescFault>
        // Each clock has as many possible parents as its kind can have, and each is a clock of the
        // description.
        requires { EachClock self (has_its_parents self) }
        // What is made is the description, checked for so many words.
        ensures ok { IfOk result (λ desc. desc ≡ record { defs = self; words = words }) }
        // It is valid for so many words.
        ensures valid { OnOk result (IsValid words self) }
        // A fault names the first clock that breaks the first rule that a clock breaks; want of
        // memory says nothing.
        ensures err { IfErr result (IsFault words self) }
    {
        refuse_broken(alloc, self.as_slice(), words)?;
        Ok(ValidDesc::new(self, words))
    }
}

// Whether each of the clocks has its parents.
fn have_parents(defs: &[ClockDef]) -> bool
    ensures { IsTrue result ↔ EachClock defs.now (has_its_parents defs.now) }
{
    for def in defs {
        if !has_its_parents(def, defs.len()) {
            return false;
        }
    }
    true
}

// Whether a clock has as many possible parents as its kind can have, each with a place below a number.
fn has_its_parents(def: &ClockDef, clocks: usize) -> bool
    ensures { result ≡ (can_have_parents def.now.kind (length def.now.parents) && list_all (λ p. nat_lt p clocks) def.now.parents) }
{
    let parents = def.parents.as_slice();
    can_have_parents(def.kind, parents.len()) && are_below(parents, clocks)
}

// Whether a clock of this kind can have so many possible parents.
fn can_have_parents(kind: Kind, parents: usize) -> bool
    ensures { result ≡ can_have_parents kind parents }
{
    match kind {
        Kind::FixedRate { .. } => parents == 0,
        Kind::Mux { .. } => parents > 0,
        Kind::Factor { .. } | Kind::Gate { .. } | Kind::Divider { .. } | Kind::Pll { .. } => {
            parents == 1
        }
    }
}

// Whether the places of all these clocks are below a number.
fn are_below(clocks: &[ClockId], most: usize) -> bool
    ensures { result ≡ list_all (λ p. nat_lt p.0 most) clocks.now }
{
    clocks.iter().all(|p| (p.0 as usize) < most)
}
