//! The ranges of the live handles of one clock.

ghost use Rattle.std.specs.Prelude.{◌≡◌, ◌<◌, ◌==◌, ◌&&◌, ◌||◌, [], ◌∷◌, ◌++◌, not, max, min, fold, map, filter, length, nat_lt, replicate, slice_index_or, slice_set, IfOk, OnOk, OnErr};
ghost use Rattle.std.specs.List.{list_any};
ghost use Rattle.clk_model.specs.Round.{most_rate};
ghost use Rattle.rate_requests.specs.Spans.{lists, misses_span, with_range, has_number, HasRoom, KeepsRoom};

use clk_base::ClockId;
use clk_io::NoMemory;
use std::alloc::Global;

/// The range of a live handle.
#[derive(Clone, Copy, Debug, PartialEq, Eq)]
pub(crate) struct Span {
    pub number: u32,
    pub min: u64,
    pub max: u64,
}

/// No ranges for so many clocks.
pub(crate) fn no_spans(alloc: Global, clocks: usize) -> Result<Vec<Vec<Span>>, NoMemory>
    ensures { IfOk result (λ spans. lists spans.items ≡ replicate clocks []) }
{
    let mut spans = Vec::new(alloc);
    for _clock in 0..clocks {
        spans.push(Vec::new(alloc))?;
    }
    Ok(spans)
}

/// The ranges of a clock's handles.
pub(crate) fn spans_on(spans: &[Vec<Span>], clock: ClockId) -> &[Span]
    ensures { result.now ≡ slice_index_or (lists spans.now) clock.0 [] }
{
    match spans.get(clock.0 as usize) {
        Some(spans) => spans.as_slice(),
        None => &[],
    }
}

/// The greatest minimum and the least maximum of these ranges in Hz.
pub(crate) fn bounds_of(spans: &[Span]) -> (u64, u64)
    ensures low { result.0 ≡ fold max 0 (map (λ s. s.min) spans.now) }
    ensures high { result.1 ≡ fold min most_rate (map (λ s. s.max) spans.now) }
{
    let mut low = 0;
    let mut high = u64::MAX;
    for span in spans {
        low = low.max(span.min);
        high = high.min(span.max);
    }
    (low, high)
}

// Whether a range misses that of another handle.
fn misses_other(span: &Span, number: u32, min: u64, max: u64) -> bool
    ensures { result ≡ (not (has_number number span.now) && misses_span min max span.now) }
{
    span.number != number && (span.max < min || max < span.min)
}

// Whether a range misses that of some other handle.
fn misses_any(spans: &[Span], number: u32, min: u64, max: u64) -> bool
    ensures { result ≡ list_any (λ s. not (has_number number s) && misses_span min max s) spans.now }
{
    spans
        .iter()
        .any(|span| misses_other(span, number, min, max))
}

/// Whether a range isn't empty and misses none of these but that of its own handle.
pub(crate) fn fits_beside(spans: &[Span], number: u32, min: u64, max: u64) -> bool
    ensures { result ≡ not (nat_lt max min || list_any (λ s. not (has_number number s) && misses_span min max s) spans.now) }
{
    min <= max && !misses_any(spans, number, min, max)
}

/// Makes room for a range more of a clock.
pub(crate) fn reserve_span(spans: &mut Vec<Vec<Span>>, clock: ClockId) -> Result<(), NoMemory>
    requires { clock.0 < length spans.old.items }
    ensures same { lists spans.new.items ≡ lists spans.old.items }
    ensures room { OnOk result (HasRoom spans.new.items clock.0) }
    ensures keeps { KeepsRoom spans.old.items spans.new.items }
{
    spans[clock.0 as usize].reserve(1)?;
    Ok(())
}

/// Adds a range to those of a clock, which has room for it.
pub(crate) fn push_span(spans: &mut Vec<Vec<Span>>, clock: ClockId, span: Span)
    requires { HasRoom spans.old.items clock.0 }
    ensures { lists spans.new.items ≡ slice_set (lists spans.old.items) clock.0 (slice_index_or (lists spans.old.items) clock.0 [] ++ span ∷ []) }
{
    spans[clock.0 as usize].push_reserved(span);
}

// The range, or another one if it is that of the handle of this number.
fn with_range(span: Span, number: u32, min: u64, max: u64) -> Span
    ensures { result ≡ with_range number min max span }
{
    if span.number == number {
        Span { number, min, max }
    } else {
        span
    }
}

/// The greatest minimum and the least maximum of these ranges in Hz, if the handle of this number had
/// another range.
pub(crate) fn bounds_with(spans: &[Span], number: u32, least: u64, most: u64) -> (u64, u64)
    ensures low { result.0 ≡ fold max 0 (map (λ s. s.min) (map (with_range number least most) spans.now)) }
    ensures high { result.1 ≡ fold min most_rate (map (λ s. s.max) (map (with_range number least most) spans.now)) }
{
    let mut low = 0;
    let mut high = u64::MAX;
    for span in spans {
        let ranged = with_range(*span, number, least, most);
        low = low.max(ranged.min);
        high = high.min(ranged.max);
    }
    (low, high)
}

// Gives the handle of this number another range.
fn set_range(spans: &mut [Span], number: u32, min: u64, max: u64)
    ensures { spans.new ≡ map (with_range number min max) spans.old }
{
    for place in 0..spans.len() {
        spans[place] = with_range(spans[place], number, min, max);
    }
}

/// Gives a handle of a clock another range.
pub(crate) fn set_span(spans: &mut Vec<Vec<Span>>, clock: ClockId, number: u32, min: u64, max: u64)
    ensures range { lists spans.new.items ≡ slice_set (lists spans.old.items) clock.0 (map (with_range number min max) (slice_index_or (lists spans.old.items) clock.0 [])) }
    ensures keeps { KeepsRoom spans.old.items spans.new.items }
{
    if (clock.0 as usize) < spans.len() {
        set_range(&mut spans[clock.0 as usize], number, min, max);
    }
}

/// Takes the range of a handle from those of its clock.
pub(crate) fn drop_span(spans: &mut Vec<Vec<Span>>, clock: ClockId, number: u32)
    ensures left { lists spans.new.items ≡ slice_set (lists spans.old.items) clock.0 (filter (λ s. not (has_number number s)) (slice_index_or (lists spans.old.items) clock.0 [])) }
    ensures keeps { KeepsRoom spans.old.items spans.new.items }
{
    if (clock.0 as usize) < spans.len() {
        spans[clock.0 as usize].retain(|span| span.number != number);
    }
}
