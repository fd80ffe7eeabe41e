ghost use Rattle.std.specs.Prelude.{◌≡◌, ◌==◌, ◌+◌, ◌<◌, ◌≤◌, length, position, count_by, slice_index, ◌++◌, IfOk, OnOk};
ghost use Rattle.std.specs.List.{slice_split};
ghost use Rattle.std.specs.Str.Lines.{lines, strip_carriage_return};
ghost use Rattle.bundle_text.specs.Lines.{line_at, is_header, header_from};
ghost use Rattle.std.specs.Option.{option_map, option_to_list};
ghost use Rattle.bundle_text.specs.Words.{texts, spaced_words, is_blank, is_comment, as_word, blank_words, said_words};

use clk_io::{NoMemory, push_some};
use std::alloc::{AllocError, Global};
use std::marker::Model;

/// The lines of a text, in order, seen by contracts as the list of their bytes.
#[derive(Drop)]
pub struct TextLines<'a> {
    lines: Vec<&'a [u8]>,
}

impl<'a> Model for TextLines<'a> {
    ghost use Rattle.std.specs.Prelude.{List, ℕ};
    ghost use Rattle.bundle_text.specs.Words.{texts};

    ghost Value = { List (List ℕ) };

    ghost view = { λ ls. texts ls.lines.items };
}

// Where the first line feed stands.
fn feed_at(bytes: &[u8]) -> Option<usize>
    ensures { result ≡ position (λ b. b == 10) bytes.now }
{
    bytes.iter().position(|byte| *byte == b'\n')
}

// A line without the carriage return at its end, if it has one.
fn without_return(line: &[u8]) -> &[u8]
    ensures { result.now ≡ strip_carriage_return line.now }
{
    match line {
        [front @ .., b'\r'] => front,
        _ => line,
    }
}

// The line begins with `%`.
fn begins_section(line: &[u8]) -> bool
    ensures { result ≡ is_header line.now }
{
    match line {
        [b'%', ..] => true,
        _ => false,
    }
}

// The parts of a text between single spaces.
fn parts_of(alloc: Global, text: &str) -> Result<Vec<&str>, AllocError>
    ensures { IfOk result (λ parts. texts parts.items ≡ slice_split (λ b. b == 32) text.now) }
{
    text.split(' ').collect(alloc)
}

// The parts of a line between single spaces, or none where the line isn't UTF-8.
#[tactic(auto, unfolding(crate::specs::Words::spaced_words))]
fn words_of<'a>(alloc: Global, line: &'a [u8]) -> Result<Vec<&'a str>, NoMemory>
    ensures { IfOk result (λ words. texts words.items ≡ spaced_words line.now) }
{
    let Ok(text) = str::from_utf8(line) else {
        return Ok(Vec::new(alloc));
    };
    Ok(parts_of(alloc, text)?)
}

// The parts of a line between blanks.
fn parts_between_blanks(alloc: Global, line: &[u8]) -> Result<Vec<&[u8]>, AllocError>
    ensures { IfOk result (λ parts. texts parts.items ≡ slice_split is_blank line.now) }
{
    line.split(|byte| *byte == b' ' || *byte == b'\t')
        .collect(alloc)
}

// A part of a line as a word, where it isn't empty and is UTF-8.
#[tactic(auto, unfolding(crate::specs::Words::as_word))]
fn as_word(part: &[u8]) -> Option<&str>
    ensures { option_map (λ word. word.now) result ≡ as_word part.now }
{
    if part.is_empty() {
        return None;
    }
    match str::from_utf8(part) {
        Ok(word) => Some(word),
        Err(_) => None,
    }
}

// The words of a line between blanks.
fn words_between_blanks<'a>(alloc: Global, line: &'a [u8]) -> Result<Vec<&'a str>, NoMemory>
    ensures { IfOk result (λ words. texts words.items ≡ blank_words line.now) }
{
    let parts = parts_between_blanks(alloc, line)?;
    let mut words = Vec::new(alloc);
    for part in &parts {
        push_some(&mut words, as_word(part))?;
    }
    Ok(words)
}

// The first word begins with `#`.
fn is_comment(words: &[&str]) -> bool
    ensures { result ≡ is_comment (texts words.now) }
{
    match words {
        [word, ..] => begins_with_hash(word.as_bytes()),
        [] => false,
    }
}

// The word begins with `#`.
fn begins_with_hash(word: &[u8]) -> bool
    ensures { result ≡ (slice_index word.now 0 == 35) }
{
    match word {
        [b'#', ..] => true,
        _ => false,
    }
}

impl<'a> TextLines<'a> {
    /// The lines of the bytes. A carriage return before a line feed is dropped, and the last line
    /// may lack its line feed.
    pub fn new(alloc: Global, bytes: &'a [u8]) -> Result<TextLines<'a>, NoMemory>
        ensures lines { IfOk result (λ ls. ls ≡ lines bytes.now) }
        ensures few { IfOk result (λ ls. length ls ≤ length bytes.now) }
    {
        let lines = lines_of(alloc, bytes)?;
        Ok(TextLines { lines })
    }

    /// How many lines there are.
    pub fn len(&self) -> usize
        ensures { result ≡ length self.now }
    {
        self.lines.len()
    }

    /// No line is there.
    pub fn is_empty(&self) -> bool
        ensures { result ≡ (length self.now == 0) }
    {
        self.lines.is_empty()
    }

    /// The line at a place; there is nothing on a line past the last.
    pub fn line(&self, at: usize) -> &'a [u8]
        ensures { result.now ≡ line_at self.now at }
    {
        match self.lines.get(at) {
            Some(line) => line,
            None => &[],
        }
    }

    /// The words of the line at a place, separated by single spaces. A line that isn't UTF-8 has
    /// none.
    pub fn words(&self, alloc: Global, at: usize) -> Result<Vec<&'a str>, NoMemory>
        ensures { IfOk result (λ words. texts words.items ≡ spaced_words (line_at self.now at)) }
    {
        words_of(alloc, self.line(at))
    }

    /// The words of the line at a place, separated by any blanks. A part that isn't UTF-8 is no
    /// word.
    pub fn blank_words(&self, alloc: Global, at: usize) -> Result<Vec<&'a str>, NoMemory>
        ensures { IfOk result (λ words. texts words.items ≡ blank_words (line_at self.now at)) }
    {
        words_between_blanks(alloc, self.line(at))
    }

    /// The same, where the line is no comment; a comment says no words.
    #[tactic(auto, unfolding(crate::specs::Words::said_words))]
    pub fn said_words(&self, alloc: Global, at: usize) -> Result<Vec<&'a str>, NoMemory>
        ensures { IfOk result (λ words. texts words.items ≡ said_words (line_at self.now at)) }
    {
        let words = self.blank_words(alloc, at)?;
        if is_comment(&words) {
            return Ok(Vec::new(alloc));
        }
        Ok(words)
    }

    /// The place of the first header at this place or behind it, else the number of lines.
    pub fn next_header(&self, from: usize) -> usize
        requires { from ≤ length self.now }
        ensures at { result ≡ header_from self.now from }
        ensures bound { result ≤ length self.now }
        ensures behind { from ≤ result }
    {
        let len = self.len();
        for at in from..len {
            if begins_section(self.line(at)) {
                return at;
            }
        }
        len
    }
}

// The lines of the bytes, one after another.
fn lines_of(alloc: Global, bytes: &[u8]) -> Result<Vec<&[u8]>, NoMemory>
    ensures lines { IfOk result (λ found. texts found.items ≡ lines bytes.now) }
    ensures few { IfOk result (λ found. length found.items ≤ length bytes.now) }
{
    let mut found = Vec::new(alloc);
    let mut rest = bytes;
    while let Some(at) = feed_at(rest) {
        found.push(without_return(&rest[..at]))?;
        rest = &rest[at + 1..];
    }
    if rest.is_empty() {
        return Ok(found);
    }
    found.push(rest)?;
    Ok(found)
}
