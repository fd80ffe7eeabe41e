//! Headers, each by itself.

ghost use Rattle.std.specs.Prelude.{◌≡◌, MatchResult, Ok, Err};
ghost use Rattle.std.specs.Option.{option_map};
ghost use Rattle.bundle_text.specs.Words.{texts};
ghost use Rattle.bundle_sections.specs.Headers.{alone, bank_words, driver_words, well_formed, header_of, read_header};
ghost use Rattle.bundle_sections.specs.Said.{said_header};

use bundle_text::{Reason, is_driver_name, small_number_within};

// The most words of a register bank.
const MOST_WORDS: u32 = 65_536;

/// What a header says.
#[derive(Clone, Copy, Debug, PartialEq, Eq)]
pub enum Header<'a> {
    /// The clocks, as a device tree source.
    DeviceTree,
    /// The clocks, a line each.
    Clocks,
    /// The register bank and its number of words.
    Bank {
        words: u32,
    },
    /// The polls that locks need.
    Lock,
    /// The clocks that aren't registered at boot.
    Late,
    /// A driver, and the path of its node, if it has one.
    Driver {
        name: &'a str,
        path: Option<&'a str>,
    },
    /// The turns of the drivers.
    Order,
}

impl<'a> Header<'a> {
    ghost use Rattle.bundle_sections.specs.Headers.{rank, is_driver, same_driver, cannot_follow};
    ghost use Rattle.bundle_sections.specs.Said.{said_header};

    // The place of its section among the sections.
    fn rank(&self) -> u32
        ensures { result ≡ rank (said_header self.now) }
    {
        match self {
            Header::DeviceTree | Header::Clocks => 0,
            Header::Bank { .. } => 1,
            Header::Lock => 2,
            Header::Late => 3,
            Header::Driver { .. } => 4,
            Header::Order => 5,
        }
    }

    /// It begins a driver's section.
    pub(crate) fn is_driver(&self) -> bool
        ensures { result ≡ is_driver (said_header self.now) }
    {
        match self {
            Header::Driver { .. } => true,
            _ => false,
        }
    }

    /// Both name one driver.
    pub(crate) fn same_driver(&self, earlier: &Header) -> bool
        ensures { result ≡ same_driver (said_header self.now) (said_header earlier.now) }
    {
        match (self, earlier) {
            (Header::Driver { name, .. }, Header::Driver { name: other, .. }) => *name == *other,
            _ => false,
        }
    }

    /// It belongs before the other, or stands once too often.
    #[tactic(auto, unfolding(crate::specs::Headers::cannot_follow))]
    pub(crate) fn cannot_follow(&self, earlier: &Header) -> bool
        ensures { result ≡ cannot_follow (said_header self.now) (said_header earlier.now) }
    {
        let own = self.rank();
        let other = earlier.rank();
        own < other || (own == other && !self.is_driver())
    }
}

// A header that takes no further words.
fn alone<'a>(header: Header<'a>, more: &[&'a str]) -> Option<Header<'a>>
    ensures { option_map said_header result ≡ alone (said_header header.entry) (texts more.now) }
{
    match more {
        [] => Some(header),
        _ => None,
    }
}

// The header of the register bank.
#[tactic(auto, unfolding(crate::specs::Headers::bank_words))]
fn bank_words<'a>(more: &[&'a str]) -> Option<Header<'a>>
    ensures { option_map said_header result ≡ bank_words (texts more.now) }
{
    match more {
        [number] => {
            let words = small_number_within(1, MOST_WORDS, number)?;
            Some(Header::Bank { words })
        }
        _ => None,
    }
}

// The header of a driver.
#[tactic(auto, unfolding(crate::specs::Headers::driver_words))]
fn driver_words<'a>(more: &[&'a str]) -> Option<Header<'a>>
    ensures { option_map said_header result ≡ driver_words (texts more.now) }
{
    match more {
        [name] => {
            if is_driver_name(name) {
                Some(Header::Driver { name, path: None })
            } else {
                None
            }
        }
        [name, path] => {
            if is_driver_name(name) {
                Some(Header::Driver {
                    name,
                    path: Some(path),
                })
            } else {
                None
            }
        }
        _ => None,
    }
}

// The header, where the words behind its first have their form.
fn well_formed<'a>(header: Option<Header<'a>>) -> Result<Header<'a>, Reason>
    ensures { MatchResult result (λ h. well_formed (option_map said_header header.entry) ≡ Ok (said_header h))
        (λ reason. well_formed (option_map said_header header.entry) ≡ Err reason) }
{
    match header {
        Some(header) => Ok(header),
        None => Err(Reason::BadHeader),
    }
}

// What a header says with this first word and these behind it.
#[tactic(auto, unfolding(crate::specs::Headers::header_of))]
fn header_of<'a>(first: &str, more: &[&'a str]) -> Result<Header<'a>, Reason>
    ensures { MatchResult result (λ h. header_of first.now (texts more.now) ≡ Ok (said_header h))
        (λ reason. header_of first.now (texts more.now) ≡ Err reason) }
{
    match first {
        "%dts" => well_formed(alone(Header::DeviceTree, more)),
        "%clocks" => well_formed(alone(Header::Clocks, more)),
        "%regs" => well_formed(bank_words(more)),
        "%lock" => well_formed(alone(Header::Lock, more)),
        "%late" => well_formed(alone(Header::Late, more)),
        "%driver" => well_formed(driver_words(more)),
        "%order" => well_formed(alone(Header::Order, more)),
        _ => Err(Reason::UnknownSection),
    }
}

/// What the words of a header say.
#[tactic(auto, unfolding(crate::specs::Headers::read_header))]
pub(crate) fn read_header<'a>(words: &[&'a str]) -> Result<Header<'a>, Reason>
    ensures { MatchResult result (λ h. read_header (texts words.now) ≡ Ok (said_header h))
        (λ reason. read_header (texts words.now) ≡ Err reason) }
{
    match words {
        [first, more @ ..] => header_of(first, more),
        [] => Err(Reason::UnknownSection),
    }
}
