//! Which headers may follow which.

ghost use Rattle.std.specs.Prelude.{◌≡◌, map, count_by};
ghost use Rattle.std.specs.List.{list_any};
ghost use Rattle.bundle_sections.specs.Headers.{is_driver, same_driver, cannot_follow, order_fault};
ghost use Rattle.bundle_sections.specs.Said.{said_header, said_section};

use crate::header::Header;
use crate::section::Section;
use bundle_text::Reason;

// The most drivers of a bundle.
const MOST_DRIVERS: usize = 64;

// The header can't follow one of the earlier ones.
fn stands_late(before: &[Section], header: &Header) -> bool
    ensures { result ≡ list_any (cannot_follow (said_header header.now)) (map (λ s. s.says) (map said_section before.now)) }
{
    before
        .iter()
        .any(|section| header.cannot_follow(&section.header))
}

// One of the earlier headers names this one's driver.
fn names_again(before: &[Section], header: &Header) -> bool
    ensures { result ≡ list_any (same_driver (said_header header.now)) (map (λ s. s.says) (map said_section before.now)) }
{
    before
        .iter()
        .any(|section| header.same_driver(&section.header))
}

// How many of the headers are drivers'.
fn drivers(before: &[Section]) -> usize
    ensures { result ≡ count_by is_driver (map (λ s. s.says) (map said_section before.now)) }
{
    before
        .iter()
        .filter(|section| section.header.is_driver())
        .count()
}

/// What is wrong with a header behind the earlier sections.
#[tactic(auto, unfolding(crate::specs::Headers::order_fault))]
pub(crate) fn order_fault(before: &[Section], header: &Header) -> Option<Reason>
    ensures { result ≡ order_fault (map (λ s. s.says) (map said_section before.now)) (said_header header.now) }
{
    if stands_late(before, header) {
        return Some(Reason::SectionOrder);
    }
    if names_again(before, header) {
        return Some(Reason::TwiceDefined);
    }
    if header.is_driver() && drivers(before) >= MOST_DRIVERS {
        return Some(Reason::TooManyDrivers);
    }
    None
}
