//! A description of a clock tree while it is made.

ghost use Rattle.std.specs.Prelude.{◌≡◌, ◌+◌, ◌<◌, ◌^◌, ◌↔◌, [], ◌∷◌, ◌++◌, length, IsTrue, IfOk, OnErr, vec_len, vec_capacity};

use crate::clock::{ClockDef, ClockId};
use crate::fault::AddFault;
use clk_io::NoMemory;
use indexmap::IndexSet;
use std::alloc::Global;
use std::marker::Model;

/// A list of clocks with distinct names, in registration order, seen by contracts as the list of
/// their records.
#[derive(Debug)]
pub struct Desc {
    alloc: Global,
    defs: Vec<ClockDef>,
    /// The names of the clocks, in their order.
    names: IndexSet<String>,
}

// A description is let go here, and not in each crate that drops one.
impl Drop for Desc {
    fn drop(self) {
        let Desc {
            alloc: _,
            defs: _,
            names: _,
        } = self;
    }
}

impl Model for Desc {
    ghost use Rattle.clk_base.specs.Description.{Description};

    ghost Value = { Description };

    ghost use Rattle.clk_base.specs.Named.{IsNamed};

    ghost view = { λ d. d.defs.items };

    ghost invariant = { λ d. IsNamed d.names.keys d.defs.items };
}

impl Desc {
    ghost use Rattle.clk_base.specs.Description.{def_of, has_name, clock_named, HasDistinctNames};

    /// An empty description. Takes no memory.
    pub fn new(alloc: Global) -> Desc
        ensures { result ≡ [] }
    {
        Desc {
            alloc,
            defs: Vec::new(alloc),
            names: IndexSet::new(alloc),
        }
    }

    /// The number of clocks.
    pub fn len(&self) -> usize
        ensures len { result ≡ length self.now }
        ensures fits { length self.now < 2 ^ 32 }
        ensures names { HasDistinctNames self.now }
    {
        self.defs.len()
    }

    /// Whether there is no clock.
    pub fn is_empty(&self) -> bool
        ensures { IsTrue result ↔ (self.now ≡ []) }
    {
        self.defs.is_empty()
    }

    /// A clock's record.
    pub fn def(&self, c: ClockId) -> &ClockDef
        requires { c.0 < length self.now }
        ensures { result.now ≡ def_of self.now c.0 }
    {
        &self.defs[c.0 as usize]
    }

    /// Adds a clock at the end. Its possible parents may be places that a later call fills. Refused
    /// where a clock has the name, and for want of memory.
    pub fn add(&mut self, def: ClockDef) -> Result<ClockId, AddFault>
        requires { length self.old < 4294967295 }
        ensures ok { IfOk result (λ c. (c.0 ≡ length self.old) × (self.new ≡ self.old ++ def ∷ [])) }
        ensures twice_named { (result ≡ Err AddFault.TwiceNamed) ↔ IsTrue (has_name self.old def.name) }
        ensures err { OnErr result (self.new ≡ self.old) }
    {
        if self.names.contains(def.name.as_str()) {
            return Err(AddFault::TwiceNamed);
        }
        let place = self.defs.len() as u32;
        let name = String::from_str(self.alloc, def.name.as_str())?;
        self.defs.reserve(1)?;
        self.names.insert(name)?;
        push_reserved(&mut self.defs, def);
        Ok(ClockId(place))
    }

    /// The clock of this name. Takes no memory.
    pub fn find(&self, name: &str) -> Option<ClockId>
        ensures { result ≡ clock_named self.now name.now }
    {
        let place = self.names.get_index_of(name)?;
        Some(ClockId(place as u32))
    }

    /// The clocks' records, in their order.
    pub fn as_slice(&self) -> &[ClockDef]
        ensures defs { result.now ≡ self.now }
        ensures fits { length self.now < 2 ^ 32 }
        ensures names { HasDistinctNames self.now }
    {
        self.defs.as_slice()
    }

    /// An equal description. Want of memory is its one refusal.
    pub fn copy(&self, alloc: Global) -> Result<Desc, NoMemory>
        ensures { IfOk result (λ desc. desc ≡ self.now) }
    {
        let mut copied = Desc::new(alloc);
        for def in self.defs.iter() {
            let def = def.copy(alloc)?;
            match copied.add(def) {
                Ok(_) => {}
                Err(AddFault::TwiceNamed) => unreachable!(),
                Err(AddFault::NoMemory) => return Err(NoMemory),
            }
        }
        Ok(copied)
    }
}

// A push that finds room.
fn push_reserved(defs: &mut Vec<ClockDef>, def: ClockDef)
    requires { vec_len defs.old < vec_capacity defs.old }
    ensures { defs.new.items ≡ defs.old.items ++ def ∷ [] }
{
    match defs.push(def) {
        Ok(()) => {}
        Err(_) => unreachable!(),
    }
}
