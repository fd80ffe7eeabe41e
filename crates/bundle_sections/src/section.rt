//! Sections: a header, and the lines up to the next one.

ghost use Rattle.std.specs.Prelude.{◌≡◌, map};
ghost use Rattle.bundle_sections.specs.Said.{said_section};

use crate::header::Header;
use std::marker::Model;

/// A section: its header, the header's place, and the place of the next header, or the number of
/// lines. Places count lines from 0.
#[derive(Clone, Copy, Debug, PartialEq, Eq)]
pub struct Section<'a> {
    pub header: Header<'a>,
    pub place: usize,
    pub end: usize,
}

/// How the clocks are given.
#[derive(Clone, Copy, Debug, PartialEq, Eq)]
pub enum ClockText {
    /// A line each.
    Lines,
    /// As a device tree source.
    DeviceTree,
}

/// The section of the clocks.
#[derive(Clone, Copy, Debug, PartialEq, Eq)]
pub struct ClockSection {
    pub text: ClockText,
    pub place: usize,
    pub end: usize,
}

/// The section of the register bank.
#[derive(Clone, Copy, Debug, PartialEq, Eq)]
pub struct BankSection {
    pub words: u32,
    pub place: usize,
    pub end: usize,
}

/// The sections of a bundle, seen by contracts as what they say.
#[derive(Drop)]
pub struct Sections<'a> {
    clocks: ClockSection,
    bank: BankSection,
    others: Vec<Section<'a>>,
}

impl<'a> Model for Sections<'a> {
    ghost use Rattle.std.specs.Prelude.{map};
    ghost use Rattle.bundle_sections.specs.Said.{Parts, said_section};

    ghost Value = { Parts };

    ghost view = { λ s. record { clocks = s.clocks; bank = s.bank; others = map said_section s.others.items } };
}

impl<'a> Sections<'a> {
    /// These sections.
    pub(crate) fn new(
        clocks: ClockSection,
        bank: BankSection,
        others: Vec<Section<'a>>,
    ) -> Sections<'a>
        ensures { result ≡ record { clocks = clocks; bank = bank; others = map said_section others.entry.items } }
    {
        Sections {
            clocks,
            bank,
            others,
        }
    }

    /// The section of the clocks.
    pub fn clocks(&self) -> ClockSection
        ensures { result ≡ self.now.clocks }
    {
        self.clocks
    }

    /// The section of the register bank.
    pub fn bank(&self) -> BankSection
        ensures { result ≡ self.now.bank }
    {
        self.bank
    }

    /// The sections behind the bank's, in their order.
    pub fn others(&self) -> &[Section<'a>]
        ensures { map said_section result.now ≡ self.now.others }
    {
        self.others.as_slice()
    }
}
