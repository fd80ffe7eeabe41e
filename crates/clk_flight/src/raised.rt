//! The PLLs that a change has raised.

ghost use Rattle.std.specs.Prelude.{◌≡◌, ◌==◌, ◌<◌, ◌≤◌, [], ◌∷◌, not, filter, length, slice_get, vec_capacity, OnOk, OnErr};
ghost use Rattle.std.specs.List.{list_any};
ghost use Rattle.std.specs.Option.{option_map};
ghost use Rattle.clk_model.specs.Lists.{is_in, without};
ghost use Rattle.clk_flight.specs.Moves.{others};

use clk_base::ClockId;
use clk_io::NoMemory;
use std::alloc::Global;
use std::marker::Model;

/// The PLLs that a change has raised and that nothing holds yet. To contracts they are a list, the
/// last raised first, and room for so many. No call but `start` takes memory.
#[derive(Drop)]
pub(crate) struct Raised {
    clocks: Vec<ClockId>,
}

impl Model for Raised {
    ghost use Rattle.std.specs.Prelude.{map, reverse, vec_capacity};
    ghost use Rattle.clk_flight.specs.Parts.{RaisedState};

    ghost Value = { RaisedState };

    ghost view = { λ r. record { plls = reverse (map (λ c. c.0) r.clocks.items); room = vec_capacity r.clocks } };
}

// Whether the clock of this number is in the list.
fn has(clocks: &[ClockId], number: u32) -> bool
    ensures { result ≡ list_any (λ c. c.0 == number) clocks.now }
{
    clocks.iter().any(|other| other.0 == number)
}

// The list without the clock of this number.
fn drop_all(clocks: &mut Vec<ClockId>, number: u32)
    ensures items { clocks.new.items ≡ filter (λ c. not (c.0 == number)) clocks.old.items }
    ensures capacity { vec_capacity clocks.new ≡ vec_capacity clocks.old }
{
    clocks.retain(|other| other.0 != number);
}

impl Raised {
    /// No PLL, and no room.
    pub(crate) fn new(alloc: Global) -> Raised
        ensures { result.plls ≡ [] }
    {
        Raised {
            clocks: Vec::new(alloc),
        }
    }

    /// No PLL, and room for as many as are asked for.
    pub(crate) fn start(&mut self, room: usize) -> Result<(), NoMemory>
        ensures plls { OnOk result (self.new.plls ≡ []) }
        ensures room { OnOk result (room ≤ self.new.room) }
        ensures err { OnErr result (self.new.plls ≡ self.old.plls) }
        ensures kept { self.old.room ≤ self.new.room }
    {
        self.clocks.reserve(room)?;
        self.clocks.clear();
        Ok(())
    }

    /// How many there are.
    pub(crate) fn len(&self) -> usize
        ensures { result ≡ length self.now.plls }
    {
        self.clocks.len()
    }

    /// The one that was raised last.
    pub(crate) fn last(&self) -> Option<ClockId>
        ensures { option_map (λ c. c.0) result ≡ slice_get self.now.plls 0 }
    {
        self.clocks.last().copied()
    }

    /// Whether a PLL is among them.
    pub(crate) fn contains(&self, pll: ClockId) -> bool
        ensures { result ≡ is_in pll.0 self.now.plls }
    {
        has(&self.clocks, pll.0)
    }

    /// A PLL is raised.
    pub(crate) fn push(&mut self, pll: ClockId)
        requires { length self.old.plls < self.old.room }
        ensures plls { self.new.plls ≡ pll.0 ∷ self.old.plls }
        ensures room { self.new.room ≡ self.old.room }
    {
        self.clocks.push_reserved(pll);
    }

    /// The one that was raised last is raised no more.
    pub(crate) fn pop(&mut self)
        ensures plls { self.new.plls ≡ others self.old.plls }
        ensures room { self.new.room ≡ self.old.room }
    {
        let _last = self.clocks.pop();
    }

    /// A PLL counts as raised no more.
    pub(crate) fn let_go(&mut self, pll: ClockId)
        ensures plls { self.new.plls ≡ without (pll.0 ∷ []) self.old.plls }
        ensures room { self.new.room ≡ self.old.room }
    {
        drop_all(&mut self.clocks, pll.0);
    }

    /// None is raised.
    pub(crate) fn clear(&mut self)
        ensures plls { self.new.plls ≡ [] }
        ensures room { self.new.room ≡ self.old.room }
    {
        self.clocks.clear();
    }
}
