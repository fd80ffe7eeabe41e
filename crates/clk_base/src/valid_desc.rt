//! A description that was checked.

ghost use Rattle.std.specs.Prelude.{◌≡◌, ◌<◌, ◌↔◌, [], length, IsTrue, IfOk};

use crate::clock::{ClockDef, ClockId};
use crate::desc::Desc;
use clk_io::NoMemory;
use std::alloc::Global;
use std::marker::Model;

/// A valid description, seen by contracts as its clocks and the number of words of the register
/// bank that it was checked for. `Desc::check` makes it.
#[derive(Debug, Drop)]
pub struct ValidDesc {
    desc: Desc,
    words: u32,
}

impl Model for ValidDesc {
    ghost use Rattle.clk_base.specs.Checked.{Checked};

    ghost Value = { Checked };

    ghost use Rattle.clk_base.specs.Valid.{IsValid};

    ghost view = { λ v. record { defs = v.desc; words = v.words } };

    ghost invariant = { λ v. IsValid v.words v.desc };
}

impl ValidDesc {
    ghost use Rattle.clk_base.specs.Description.{def_of, clock_named};
    ghost use Rattle.clk_base.specs.Valid.{IsValid};
    ghost use Rattle.clk_base.specs.Checked.{Checked};

    /// A checked description.
    pub(crate) fn new(desc: Desc, words: u32) -> ValidDesc
        requires { IsValid words desc }
        ensures { result ≡ record { defs = desc; words = words } }
    {
        ValidDesc { desc, words }
    }

    /// The number of clocks.
    pub fn len(&self) -> usize
        ensures len { result ≡ length self.now.defs }
        ensures valid { IsValid self.now.words self.now.defs }
    {
        self.desc.len()
    }

    /// Whether there is no clock.
    pub fn is_empty(&self) -> bool
        ensures { IsTrue result ↔ (self.now.defs ≡ []) }
    {
        self.desc.is_empty()
    }

    /// The number of words of the bank that the description was checked for.
    pub fn words(&self) -> u32
        ensures words { result ≡ self.now.words }
        ensures valid { IsValid self.now.words self.now.defs }
    {
        self.words
    }

    /// A clock's record. Takes no memory.
    pub fn def(&self, c: ClockId) -> &ClockDef
        requires { c.0 < length self.now.defs }
        ensures def { result.now ≡ def_of self.now.defs c.0 }
        ensures valid { IsValid self.now.words self.now.defs }
    {
        self.desc.def(c)
    }

    /// The clock of this name. Takes no memory.
    pub fn find(&self, name: &str) -> Option<ClockId>
        ensures clock { result ≡ clock_named self.now.defs name.now }
        ensures valid { IsValid self.now.words self.now.defs }
    {
        self.desc.find(name)
    }

    /// An equal description. Want of memory is its one refusal.
    pub fn copy(&self, alloc: Global) -> Result<ValidDesc, NoMemory>
        ensures { IfOk result (λ desc. desc ≡ self.now) }
    {
        let desc = self.desc.copy(alloc)?;
        Ok(ValidDesc {
            desc,
            words: self.words,
        })
    }
}
