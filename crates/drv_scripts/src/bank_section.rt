//! The section of the register bank.

ghost use Rattle.std.specs.Prelude.{◌≡◌, ◌+◌, ◌-◌, ◌<◌, ◌≤◌, ◌^◌, length, IfOk, IfSome};
ghost use Rattle.bundle_text.specs.Words.{texts};
ghost use Rattle.drv_scripts.specs.BankLines.{numbers_said, word_line, word_fault, word_at, with_words, words_of};
ghost use Rattle.drv_scripts.specs.Judged.{Reads, ReadsLine};

use crate::judged::judged;
use crate::stop::Stop;
use bundle_text::{Reason, TextLines, small_number_within};
use std::alloc::Global;

// A word of the bank and its value, where both are numbers.
#[tactic(auto, unfolding(crate::specs::BankLines::numbers_said))]
fn numbers_said(word: Option<u32>, value: Option<u32>) -> Result<(u32, u32), Reason>
    ensures { result ≡ numbers_said word value }
{
    match (word, value) {
        (Some(word), Some(value)) => Ok((word, value)),
        _ => Err(Reason::BadNumber),
    }
}

// What the words of a line `W V` say, over a bank of so many words.
#[tactic(auto, unfolding(crate::specs::BankLines::word_line))]
fn word_line(size: u32, words: &[&str]) -> Result<(u32, u32), Reason>
    requires { 0 < size }
    ensures { result ≡ word_line size (texts words.now) }
{
    match words {
        [word, value] => numbers_said(
            small_number_within(0, size - 1, word),
            small_number_within(0, u32::MAX, value),
        ),
        _ => Err(Reason::BadWords),
    }
}

// The word and the value that the line at a place says.
#[tactic(auto, unfolding(crate::specs::BankLines::word_fault, crate::specs::BankLines::word_at))]
fn read_word(
    alloc: Global,
    lines: &TextLines,
    at: usize,
    size: u32,
) -> Result<Option<(u32, u32)>, Stop>
    requires { 0 < size }
    ensures { ReadsLine (word_fault size lines.now at) at (λ found. found ≡ word_at size lines.now at) result }
{
    let words = lines.said_words(alloc, at)?;
    let said = word_line(size, &words);
    judged(&words, at, said)
}

// The words with a value given to one of them, where one is.
fn set_word(bank: &mut Vec<u32>, set: Option<(u32, u32)>)
    ensures { bank.new.items ≡ with_words bank.old.items set }
{
    if let Some((word, value)) = set {
        let place = word as usize;
        if place < bank.len() {
            bank[place] = value;
        }
    }
}

/// The words of a bank of this size, as the lines from one place up to another state them.
pub(crate) fn read_words(
    alloc: Global,
    lines: &TextLines,
    from: usize,
    to: usize,
    size: u32,
) -> Result<Vec<u32>, Stop>
    requires some { 0 < size }
    requires order { from ≤ to }
    ensures read { Reads (word_fault size lines.now) from to (λ bank. bank.items ≡ words_of size lines.now from (to - from)) result }
    ensures size { IfOk result (λ bank. length bank.items ≡ size) }
{
    let mut bank = vec![in alloc; 0u32; size as usize]?;
    for at in from..to {
        let set = read_word(alloc, lines, at, size)?;
        set_word(&mut bank, set);
    }
    Ok(bank)
}
