//! What sections behind the bank's say.

use crate::bundle::{LateLine, LockLine, Script};
use clk_io::NoMemory;
use std::alloc::Global;

/// What a section behind the bank's says.
#[derive(Drop)]
pub(crate) enum Part {
    /// Nothing that stays.
    Nothing,
    /// Locks of PLLs.
    Locks(Vec<LockLine>),
    /// Clocks that aren't registered at boot.
    Late(Vec<LateLine>),
    /// A driver.
    Driver(Script),
    /// Turns of drivers.
    Turns(Vec<u32>),
}

impl Part {
    ghost use Rattle.std.specs.Prelude.{◌≡◌};
    ghost use Rattle.drv_scripts.specs.Parts.{part_drivers};
    ghost use Rattle.drv_scripts.specs.Sections.{count_of};

    /// How many commands it has.
    pub(crate) fn count(&self) -> usize
        ensures { result ≡ count_of (part_drivers self.now) }
    {
        match self {
            Part::Driver(script) => script.commands.as_slice().len(),
            _ => 0,
        }
    }
}

/// What several of these sections say, each kind in the order of the sections.
#[derive(Drop)]
pub(crate) struct Others {
    pub(crate) locks: Vec<LockLine>,
    pub(crate) late: Vec<LateLine>,
    pub(crate) drivers: Vec<Script>,
    pub(crate) order: Vec<u32>,
}

impl Others {
    ghost use Rattle.std.specs.Prelude.{◌≡◌, OnOk};
    ghost use Rattle.drv_scripts.specs.Parts.{Adds, IsEmpty};

    /// Nothing.
    pub(crate) fn new(alloc: Global) -> Others
        ensures { IsEmpty result }
    {
        Others {
            locks: Vec::new(alloc),
            late: Vec::new(alloc),
            drivers: Vec::new(alloc),
            order: Vec::new(alloc),
        }
    }

    /// What one section more says.
    pub(crate) fn add(&mut self, part: Part) -> Result<(), NoMemory>
        ensures { OnOk result (Adds self.old part self.new) }
    {
        match part {
            Part::Nothing => Ok(()),
            Part::Locks(more) => Ok(self.locks.extend_from_slice(&more)?),
            Part::Late(more) => Ok(self.late.extend_from_slice(&more)?),
            Part::Driver(script) => Ok(self.drivers.push(script)?),
            Part::Turns(drivers) => Ok(self.order.extend_from_slice(&drivers)?),
        }
    }
}
