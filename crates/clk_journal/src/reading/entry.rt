//! Entries as lines tell them.

ghost use Rattle.std.specs.Prelude.{◌≡◌, ◌<◌, ◌≤◌, ◌^◌, length, map, string_bytes, decimal, codes, slice_index_or, [], IfSome, MatchOption};
ghost use Rattle.std.specs.List.{position};
ghost use Rattle.std.specs.Str.{bytes_eq};
ghost use Rattle.clk_journal.specs.Words.{texts};
ghost use Rattle.clk_journal.specs.ReadEntries.{driver_named, sign_at, of_parts, of_driver, read_words};
ghost use Rattle.clk_journal.specs.Told.{TellApart};
ghost use Rattle.clk_journal.specs.Spelling.{Spells, SpellsNone};

use super::event::read_event;
use super::numbers::small;
use super::turn::{is_absent, read_turn};
use super::words::words_in;
use clk_base::{Entry, ValidDesc};

// The most words of an entry.
const MOST_WORDS: usize = 12;

// The place of this name.
fn place_of(names: &[String], word: &str) -> Option<usize>
    ensures { result ≡ position (λ name. bytes_eq word.now (string_bytes name)) names.now }
{
    names.iter().position(|name| word == name.as_str())
}

// The driver of this name.
fn driver_named(names: &[String], word: &str) -> Option<u32>
    requires { length names.now < 2 ^ 32 }
    ensures { result ≡ driver_named (map string_bytes names.now) word.now }
{
    let place = place_of(names, word)?;
    Some(place as u32)
}

// The word is this number as it is printed.
fn is_number(number: u32, word: &str) -> bool
    ensures { result ≡ bytes_eq word.now (decimal number) }
{
    match small(word) {
        Some(found) => found == number,
        None => false,
    }
}

// The word at this place is the sign before a turn.
fn is_sign(words: &[&str], at: usize) -> bool
    requires { at < length words.now }
    ensures { result ≡ bytes_eq (slice_index_or (texts words.now) at []) (codes "=") }
{
    words[at] == "="
}

// The place of the sign before a turn.
#[tactic(auto, unfolding(crate::specs::ReadEntries::sign_at))]
fn sign_at(words: &[&str]) -> Option<usize>
    ensures place { result ≡ sign_at (texts words.now) }
    ensures low { IfSome result (λ at. at < length words.now) }
{
    let len = words.len();
    if len > 1 && is_sign(words, len - 2) {
        return Some(len - 2);
    }
    if len > 2 && is_sign(words, len - 3) {
        return Some(len - 3);
    }
    None
}

// The entry of a driver with the words of an event and of a turn.
#[tactic(auto, unfolding(crate::specs::ReadEntries::of_parts))]
fn of_parts(desc: &ValidDesc, driver: u32, event: &[&str], turn: &[&str]) -> Option<Entry>
    ensures { result ≡ of_parts desc.now.defs driver (texts event.now) (texts turn.now) }
{
    let turn = read_turn(desc, driver, turn)?;
    let event = read_event(desc, is_absent(&turn), driver, event)?;
    Some(Entry {
        driver,
        event,
        turn,
    })
}

// The entry of a driver with these words after its name.
#[tactic(auto, unfolding(crate::specs::ReadEntries::of_driver))]
fn of_driver(desc: &ValidDesc, words: &[&str], driver: u32) -> Option<Entry>
    ensures { result ≡ of_driver desc.now.defs (texts words.now) driver }
{
    let at = sign_at(words)?;
    of_parts(desc, driver, &words[..at], &words[at + 1..])
}

// The entry with this number whose line has these words.
#[tactic(auto, unfolding(crate::specs::ReadEntries::read_words))]
fn read_words(desc: &ValidDesc, names: &[String], number: u32, words: &[&str]) -> Option<Entry>
    requires { length names.now < 2 ^ 32 }
    ensures { result ≡ read_words desc.now.defs (map string_bytes names.now) number (texts words.now) }
{
    match words {
        [first, driver, rest @ ..] => {
            if !is_number(number, first) {
                return None;
            }
            of_driver(desc, rest, driver_named(names, driver)?)
        }
        _ => None,
    }
}

/// The entry with this number that a line without its end spells. Takes no memory.
pub fn read_entry(desc: &ValidDesc, names: &[String], number: u32, line: &str) -> Option<Entry>
    // The names tell clocks and drivers apart.
    requires apart { TellApart desc.now.defs (map string_bytes names.now) }
    // There are at most as many drivers as have numbers.
    requires few { length names.now < 2 ^ 32 }
    // The entry is the one whose text the line is, and there is none exactly where it is the text of none.
    ensures { MatchOption result (SpellsNone desc.now.defs (map string_bytes names.now) number line.now) (λ e. Spells desc.now.defs (map string_bytes names.now) number line.now e) }
{
    let mut room = [""; MOST_WORDS];
    match words_in(line, &mut room) {
        Some(count) => read_words(desc, names, number, &room[..count]),
        None => None,
    }
}
