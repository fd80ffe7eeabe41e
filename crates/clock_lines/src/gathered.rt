//! The clocks of the lines that were read so far.

ghost use Rattle.std.specs.Prelude.{◌≡◌, ◌<◌, ◌^◌, [], ◌∷◌, ◌++◌, false, length, position, IfOk};
ghost use Rattle.std.specs.Str.{bytes_eq};
ghost use Rattle.bundle_text.specs.Words.{texts};
ghost use Rattle.clock_lines.specs.Section.{names_of, is_named};
ghost use Rattle.clock_lines.specs.Shown.{shown};

use crate::clock_line::LineClock;
use clk_base::{ClkFlags, ClockDef, ClockName, Kind, Parents};
use clk_io::NoMemory;
use indexmap::IndexSet;
use std::alloc::Global;
use std::marker::Model;

/// A clock and the place of its line, its name and its parents borrowed from the text. Contracts
/// see what the line says.
#[derive(Drop)]
pub(crate) struct PlacedLine<'a> {
    place: usize,
    name: &'a str,
    kind: Kind,
    flags: ClkFlags,
    parents: Vec<&'a str>,
}

impl<'a> Model for PlacedLine<'a> {
    ghost use Rattle.bundle_text.specs.Words.{texts};
    ghost use Rattle.clock_lines.specs.Said.{PlacedClock};

    ghost Value = { PlacedClock };

    ghost view = { λ p. record {
      place = p.place;
      clock = record { name = p.name.now; kind = p.kind; flags = p.flags; parents = texts p.parents.items };
    } };
}

impl<'a> PlacedLine<'a> {
    /// The place of the line.
    pub(crate) fn place(&self) -> usize
        ensures { result ≡ self.now.place }
    {
        self.place
    }

    /// The names of the clock's parents.
    pub(crate) fn parents(&self) -> &[&'a str]
        ensures { texts result.now ≡ self.now.clock.parents }
    {
        self.parents.as_slice()
    }

    /// The clock with these parents.
    pub(crate) fn def(&self, alloc: Global, parents: Parents) -> Result<ClockDef, NoMemory>
        ensures { IfOk result (λ def. def ≡ record {
          name = self.now.clock.name;
          kind = self.now.clock.kind;
          flags = self.now.clock.flags;
          parents = parents;
        }) }
    {
        let name = ClockName::new(String::from_str(alloc, self.name)?);
        Ok(ClockDef {
            name,
            kind: self.kind,
            flags: self.flags,
            parents,
        })
    }
}

/// The clocks so far, in order, seen by contracts as what their lines say.
#[derive(Drop)]
pub(crate) struct Gathered<'a> {
    clocks: Vec<PlacedLine<'a>>,
    /// The names of the clocks, in their order.
    names: IndexSet<&'a str>,
}

impl<'a> Model for Gathered<'a> {
    ghost use Rattle.std.specs.Prelude.{◌≡◌, List};
    ghost use Rattle.bundle_text.specs.Words.{texts};
    ghost use Rattle.clock_lines.specs.Said.{PlacedClock};
    ghost use Rattle.clock_lines.specs.Section.{names_of};

    ghost Value = { List PlacedClock };

    ghost view = { λ g. g.clocks.items };

    ghost invariant = { λ g. texts g.names.keys ≡ names_of g.clocks.items };
}

impl<'a> Gathered<'a> {
    /// No clocks.
    pub(crate) fn new(alloc: Global) -> Gathered<'a>
        ensures { result ≡ [] }
    {
        Gathered {
            clocks: Vec::new(alloc),
            names: IndexSet::new(alloc),
        }
    }

    /// The clocks.
    pub(crate) fn clocks(&self) -> &[PlacedLine<'a>]
        ensures { result.now ≡ self.now }
    {
        self.clocks.as_slice()
    }

    /// Whether a clock has this name.
    pub(crate) fn is_named(&self, name: &'a str) -> bool
        ensures { result ≡ is_named self.now name.now }
    {
        self.names.contains(&name)
    }

    /// The place of the clock of this name among the clocks, if there is one.
    pub(crate) fn place_of(&self, name: &'a str) -> Option<u32>
        requires { length self.now < 2 ^ 32 }
        ensures { result ≡ position (bytes_eq name.now) (names_of self.now) }
    {
        match self.names.get_index_of(&name) {
            None => None,
            Some(place) => Some(place as u32),
        }
    }

    /// The clocks and the one of the line at a place, whose name no clock has.
    pub(crate) fn with(
        self,
        alloc: Global,
        place: usize,
        line: LineClock<'_, 'a>,
    ) -> Result<Gathered<'a>, NoMemory>
        requires { is_named self line.name.now ≡ false }
        ensures { IfOk result (λ after. after ≡ self.entry ++ record { place = place; clock = shown line.entry } ∷ []) }
    {
        let Gathered {
            mut clocks,
            mut names,
        } = self;
        let parents = Vec::from_slice(alloc, line.parents)?;
        names.insert(line.name)?;
        clocks.push(PlacedLine {
            place,
            name: line.name,
            kind: line.kind,
            flags: line.flags,
            parents,
        })?;
        Ok(Gathered { clocks, names })
    }
}
