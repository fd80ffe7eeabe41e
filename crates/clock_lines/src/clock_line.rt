//! Clock lines, each by itself.

ghost use Rattle.std.specs.Prelude.{◌≡◌, []};
ghost use Rattle.bundle_text.specs.Words.{texts};
ghost use Rattle.clock_lines.specs.ClockLines.{with_flags, clock_said, fixed_line, factor_line, gate_line, mux_rest, mux_counted, mux_line, divider_line, pll_line, clock_line, known_line};
ghost use Rattle.clock_lines.specs.Shown.{shown_line};

use crate::field::field_said;
use crate::flag_words::{are_flags, are_known, flags_of_words};
use crate::kinds::{divider_kind, factor_kind, fixed_kind, gate_kind, mux_kind, pll_kind};
use bundle_text::{Reason, is_clock_name, small_number_within};
use clk_base::{ClkFlags, Kind};
use std::slice::from_ref;

/// What a clock line says, borrowed from its words.
#[derive(Clone, Copy)]
pub(crate) struct LineClock<'w, 'a> {
    pub(crate) name: &'a str,
    pub(crate) kind: Kind,
    pub(crate) flags: ClkFlags,
    pub(crate) parents: &'w [&'a str],
}

// No parents.
fn no_parents<'w, 'a>() -> &'w [&'a str]
    ensures { result.now ≡ [] }
{
    &[]
}

// What words say, or what is wrong with them.
type Said<'w, 'a> = Result<LineClock<'w, 'a>, Reason>;

// The clock of this name and with these parents, where its kind and its flags can be read.
#[tactic(auto, unfolding(crate::specs::ClockLines::with_flags))]
fn with_flags<'w, 'a>(
    name: &'a str,
    kind: Option<Kind>,
    parents: &'w [&'a str],
    flags: &[&str],
) -> Said<'w, 'a>
    ensures { shown_line result ≡ with_flags name.now kind (texts parents.now) (texts flags.now) }
{
    let Some(kind) = kind else {
        return Err(Reason::BadNumber);
    };
    if !are_flags(kind, flags) {
        return Err(Reason::BadFlag);
    }
    let flags = flags_of_words(flags);
    Ok(LineClock {
        name,
        kind,
        flags,
        parents,
    })
}

// A name, the kind where its numbers can be read, names of parents, and flags.
#[tactic(auto, unfolding(crate::specs::ClockLines::clock_said))]
fn clock_said<'w, 'a>(
    taken: bool,
    name: &'a str,
    kind: Option<Kind>,
    parents: &'w [&'a str],
    flags: &[&str],
) -> Said<'w, 'a>
    ensures { shown_line result ≡ clock_said taken name.now kind (texts parents.now) (texts flags.now) }
{
    if !is_clock_name(name) {
        return Err(Reason::BadName);
    }
    if taken {
        return Err(Reason::TwiceNamed);
    }
    with_flags(name, kind, parents, flags)
}

// What stands behind `fixed`.
#[tactic(auto, unfolding(crate::specs::ClockLines::fixed_line))]
fn fixed_line<'w, 'a>(taken: bool, rest: &'w [&'a str]) -> Said<'w, 'a>
    ensures { shown_line result ≡ fixed_line taken (texts rest.now) }
{
    match rest {
        [name, rate, flags @ ..] => clock_said(taken, name, fixed_kind(rate), no_parents(), flags),
        _ => Err(Reason::BadWords),
    }
}

// What stands behind `factor`.
#[tactic(auto, unfolding(crate::specs::ClockLines::factor_line))]
fn factor_line<'w, 'a>(taken: bool, rest: &'w [&'a str]) -> Said<'w, 'a>
    ensures { shown_line result ≡ factor_line taken (texts rest.now) }
{
    match rest {
        [name, parent, mult, div, flags @ ..] => {
            let kind = factor_kind(mult, div);
            clock_said(taken, name, kind, from_ref(parent), flags)
        }
        _ => Err(Reason::BadWords),
    }
}

// What stands behind `gate`.
#[tactic(auto, unfolding(crate::specs::ClockLines::gate_line))]
fn gate_line<'w, 'a>(taken: bool, rest: &'w [&'a str]) -> Said<'w, 'a>
    ensures { shown_line result ≡ gate_line taken (texts rest.now) }
{
    match rest {
        [name, parent, word, bit, flags @ ..] => {
            let kind = gate_kind(word, bit, flags);
            clock_said(taken, name, kind, from_ref(parent), flags)
        }
        _ => Err(Reason::BadWords),
    }
}

// The words behind the COUNT of a mux: so many parents, and flags.
#[tactic(auto, unfolding(crate::specs::ClockLines::mux_rest))]
fn mux_rest<'w, 'a>(
    taken: bool,
    name: &'a str,
    word: &str,
    shift: &str,
    width: &str,
    count: usize,
    rest: &'w [&'a str],
) -> Said<'w, 'a>
    ensures { shown_line result ≡ mux_rest taken name.now word.now shift.now width.now count (texts rest.now) }
{
    if rest.len() < count {
        return Err(Reason::BadWords);
    }
    let (parents, flags) = rest.split_at(count);
    let kind = mux_kind(word, shift, width, flags);
    clock_said(taken, name, kind, parents, flags)
}

// What stands behind `mux`.
#[tactic(auto, unfolding(crate::specs::ClockLines::mux_line, crate::specs::ClockLines::mux_counted))]
fn mux_line<'w, 'a>(taken: bool, rest: &'w [&'a str]) -> Said<'w, 'a>
    ensures { shown_line result ≡ mux_line taken (texts rest.now) }
{
    match rest {
        [name, word, shift, width, count, rest @ ..] => {
            let Some(count) = small_number_within(1, 64, count) else {
                return clock_said(taken, name, None, no_parents(), rest);
            };
            mux_rest(taken, name, word, shift, width, count as usize, rest)
        }
        _ => Err(Reason::BadWords),
    }
}

// What stands behind `divider`.
#[tactic(auto, unfolding(crate::specs::ClockLines::divider_line))]
fn divider_line<'w, 'a>(taken: bool, rest: &'w [&'a str]) -> Said<'w, 'a>
    ensures { shown_line result ≡ divider_line taken (texts rest.now) }
{
    match rest {
        [name, parent, word, shift, width, flags @ ..] => {
            let kind = divider_kind(word, shift, width, flags);
            clock_said(taken, name, kind, from_ref(parent), flags)
        }
        _ => Err(Reason::BadWords),
    }
}

// What stands behind `pll`.
#[tactic(auto, unfolding(crate::specs::ClockLines::pll_line))]
fn pll_line<'w, 'a>(taken: bool, rest: &'w [&'a str]) -> Said<'w, 'a>
    ensures { shown_line result ≡ pll_line taken (texts rest.now) }
{
    match rest {
        [
            name,
            parent,
            word,
            shift,
            width,
            pword,
            pbit,
            nmin,
            nmax,
            m,
            flags @ ..,
        ] => {
            let kind = pll_kind(field_said(word, shift, width), pword, pbit, nmin, nmax, m);
            clock_said(taken, name, kind, from_ref(parent), flags)
        }
        _ => Err(Reason::BadWords),
    }
}

// What the words of a clock line say, or the first thing that is wrong with them, but for flags that
// a version doesn't know. `taken` tells whether an earlier line has its name.
#[tactic(auto, unfolding(crate::specs::ClockLines::clock_line))]
fn clock_line<'w, 'a>(taken: bool, words: &'w [&'a str]) -> Said<'w, 'a>
    ensures { shown_line result ≡ clock_line taken (texts words.now) }
{
    let [kind, rest @ ..] = words else {
        return Err(Reason::UnknownKind);
    };
    match *kind {
        "fixed" => fixed_line(taken, rest),
        "factor" => factor_line(taken, rest),
        "gate" => gate_line(taken, rest),
        "mux" => mux_line(taken, rest),
        "divider" => divider_line(taken, rest),
        "pll" => pll_line(taken, rest),
        _ => Err(Reason::UnknownKind),
    }
}

/// What the words of a clock line say in a bundle of this version, or the first thing that is wrong
/// with them. `taken` tells whether an earlier line has its name.
#[tactic(auto, unfolding(crate::specs::ClockLines::known_line))]
pub(crate) fn known_line<'w, 'a>(version: u32, taken: bool, words: &'w [&'a str]) -> Said<'w, 'a>
    ensures { shown_line result ≡ known_line version (clock_line taken (texts words.now)) }
{
    match clock_line(taken, words) {
        Ok(line) => {
            if are_known(version, line.flags) {
                Ok(line)
            } else {
                Err(Reason::BadFlag)
            }
        }
        Err(reason) => Err(reason),
    }
}
