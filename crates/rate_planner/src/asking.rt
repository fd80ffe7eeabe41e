//! What a clock and its possible parents give for a request, level by level.

ghost use Rattle.std.specs.Prelude.{◌≡◌, ◌<◌, ◌≤◌, true, None, length};
ghost use Rattle.std.specs.Option.{option_map};
ghost use Rattle.std.specs.Int.{div_ceil};
ghost use Rattle.clk_base.specs.declared.clock.Kind.TheVariants as kinds;
ghost use Rattle.kind_math.specs.Dividers.{IsDividerWidth, valid_divisors};
ghost use Rattle.clk_model.specs.Round as round;
ghost use Rattle.clk_model.specs.State.{registered};
ghost use Rattle.rate_planner.specs.Given.{CanScale, after_divisors, over_rooted, divider_rounding, mux_rounding};
ghost use Rattle.rate_planner.specs.Rounded.{rounded_of, NamesRegistered};
ghost use Rattle.rate_planner.specs.Kept.{Always};

use crate::divisors::{divisor_of, end_of_fields, exact_fit, first_field, greatest_divisor};
use crate::kind::{can_round, keeps_parent, kind_of, sets_rate_parent};
use crate::now::{over_parent, parent_rate_now, passes_on, rate_now};
use crate::rest::Rest;
use crate::rounded::{Rounded, better, given, with_rate};
use clk_base::{ClockId, Kind};
use clk_tree::{Tree, View, style_of};
use kind_math::{DivStyle, div_round, factor_rate, pll_rate, pll_round, quotient, quotient_up};

// The rate that a clock would get for a request, over at most so many levels of parents.
#[cycle(asking)]
fn rate_for<V: View, W: Rest>(
    levels: u32,
    tree: &Tree,
    view: &V,
    rest: &W,
    clock: ClockId,
    x: u64,
) -> Option<u64>
    requires seen { length tree.now.defs ≤ V.size view.now }
    requires there { registered tree.now.clocks clock.0 ≡ true }
    ensures { Always tree.now.defs tree.now (λ w. result ≡ round.rate_for levels w (V.means view.now) clock.0 x) }
{
    if levels == 0 {
        return None;
    }
    match round_by(levels - 1, tree, view, rest, clock, x) {
        Some(rounded) => Some(rounded.rate),
        None => None,
    }
}

// What the parent of a clock gives for a request.
#[cycle(asking)]
fn over_link<V: View, W: Rest>(
    levels: u32,
    tree: &Tree,
    view: &V,
    rest: &W,
    clock: ClockId,
    x: u64,
) -> Option<Rounded>
    requires seen { length tree.now.defs ≤ V.size view.now }
    requires there { registered tree.now.clocks clock.0 ≡ true }
    ensures rounding { Always tree.now.defs tree.now (λ w. option_map rounded_of result
        ≡ round.over_link (round.rate_for levels w (V.means view.now)) w clock.0 x (λ r. r)) }
    ensures names { NamesRegistered tree.now.clocks result }
{
    match tree.parent(clock) {
        Some(parent) => match rate_for(levels, tree, view, rest, parent, x) {
            Some(rate) => Some(given(parent, rate)),
            None => None,
        },
        None => None,
    }
}

// What a possible parent of a mux gives: its rounding if requests are passed on, else its rate now;
// nothing if it isn't rooted.
#[cycle(asking)]
fn over_candidate<V: View, W: Rest>(
    levels: u32,
    tree: &Tree,
    view: &V,
    rest: &W,
    clock: ClockId,
    candidate: ClockId,
    x: u64,
) -> Option<Rounded>
    requires seen { length tree.now.defs ≤ V.size view.now }
    requires there { registered tree.now.clocks clock.0 ≡ true }
    ensures rounding { Always tree.now.defs tree.now (λ w. option_map rounded_of result
        ≡ over_rooted (round.rate_for levels w (V.means view.now)) w clock.0 x candidate.0) }
    ensures names { NamesRegistered tree.now.clocks result }
{
    if !tree.rooted(candidate) {
        return None;
    }
    rest.rest();
    if sets_rate_parent(tree, clock) {
        let rate = rate_for(levels, tree, view, rest, candidate, x)?;
        Some(given(candidate, rate))
    } else {
        Some(given(candidate, rate_now(tree, candidate)))
    }
}

// A mux that may move: the best over its possible parents that are rooted.
#[cycle(asking)]
fn by_candidate<V: View, W: Rest>(
    levels: u32,
    tree: &Tree,
    view: &V,
    rest: &W,
    clock: ClockId,
    x: u64,
) -> Option<Rounded>
    requires seen { length tree.now.defs ≤ V.size view.now }
    requires there { registered tree.now.clocks clock.0 ≡ true }
    ensures rounding { Always tree.now.defs tree.now (λ w. option_map rounded_of result
        ≡ round.by_candidate (round.rate_for levels w (V.means view.now)) w clock.0 x) }
    ensures names { NamesRegistered tree.now.clocks result }
{
    let mut best = None;
    // Its clause says that the clock is one of the description.
    let _place = rate_now(tree, clock);
    for candidate in tree.def(clock).parents.as_slice() {
        let tried = over_candidate(levels, tree, view, rest, clock, *candidate, x);
        best = better(x, best, tried);
    }
    best
}

// What the parent of a divider gives for a product, divided.
#[cycle(asking)]
fn over_divisor<V: View, W: Rest>(
    levels: u32,
    tree: &Tree,
    view: &V,
    rest: &W,
    clock: ClockId,
    product: u64,
    divisor: u64,
) -> Option<Rounded>
    requires seen { length tree.now.defs ≤ V.size view.now }
    requires there { registered tree.now.clocks clock.0 ≡ true }
    requires divides { 0 < divisor }
    ensures rounding { Always tree.now.defs tree.now (λ w. option_map rounded_of result
        ≡ round.over_link (round.rate_for levels w (V.means view.now)) w clock.0 product (λ r. div_ceil r divisor)) }
    ensures names { NamesRegistered tree.now.clocks result }
{
    let given = over_link(levels, tree, view, rest, clock, product)?;
    Some(with_rate(given, quotient_up(given.rate, divisor)))
}

// The best over what the parent of a divider gives for each divisor. A greater divisor has a greater
// product, so the first product above the greatest rate ends it.
#[cycle(asking)]
fn best_divisor<V: View, W: Rest>(
    levels: u32,
    tree: &Tree,
    view: &V,
    rest: &W,
    clock: ClockId,
    x: u64,
    width: u32,
    style: DivStyle,
) -> Option<Rounded>
    requires seen { length tree.now.defs ≤ V.size view.now }
    requires there { registered tree.now.clocks clock.0 ≡ true }
    requires right { IsDividerWidth style width }
    ensures rounding { Always tree.now.defs tree.now (λ w. option_map rounded_of result
        ≡ after_divisors (round.rate_for levels w (V.means view.now)) w clock.0 x None (valid_divisors style width)) }
    ensures names { NamesRegistered tree.now.clocks result }
{
    let mut best = None;
    for field in first_field(style)..end_of_fields(width) {
        let divisor = divisor_of(field, width, style);
        let Some(product) = x.checked_mul(divisor) else {
            return best
        };
        rest.rest();
        let tried = over_divisor(levels, tree, view, rest, clock, product, divisor);
        best = better(x, best, tried);
    }
    best
}

// A divider that asks its parent: a divisor that the parent's rate fits already, else the best one,
// else the greatest.
#[cycle(asking)]
fn by_divisor<V: View, W: Rest>(
    levels: u32,
    tree: &Tree,
    view: &V,
    rest: &W,
    clock: ClockId,
    x: u64,
    width: u32,
    style: DivStyle,
) -> Option<Rounded>
    requires seen { length tree.now.defs ≤ V.size view.now }
    requires there { registered tree.now.clocks clock.0 ≡ true }
    requires some { 1 ≤ x }
    requires right { IsDividerWidth style width }
    ensures rounding { Always tree.now.defs tree.now (λ w. option_map rounded_of result
        ≡ round.by_divisor (round.rate_for levels w (V.means view.now)) w clock.0 x (valid_divisors style width)) }
    ensures names { NamesRegistered tree.now.clocks result }
{
    let parent = parent_rate_now(tree, clock);
    match exact_fit(x, parent, width, style) {
        Some(divisor) => Some(over_parent(tree, clock, quotient_up(parent, divisor))),
        None => match best_divisor(levels, tree, view, rest, clock, x, width, style) {
            Some(best) => Some(best),
            None => {
                let greatest = greatest_divisor(width, style);
                over_divisor(levels, tree, view, rest, clock, 1, greatest)
            }
        },
    }
}

// A factor: what its parent gives, times `mult` over `div`.
#[cycle(asking)]
fn by_factor<V: View, W: Rest>(
    levels: u32,
    tree: &Tree,
    view: &V,
    rest: &W,
    clock: ClockId,
    x: u64,
    mult: u32,
    div: u32,
) -> Option<Rounded>
    requires seen { length tree.now.defs ≤ V.size view.now }
    requires there { registered tree.now.clocks clock.0 ≡ true }
    requires multiplies { 0 < mult }
    requires divides { 0 < div }
    ensures rounding { Always tree.now.defs tree.now (λ w. option_map rounded_of result
        ≡ round.by_kind (round.rate_for levels w (V.means view.now)) w (kinds.Factor mult div) clock.0 x) }
    ensures names { NamesRegistered tree.now.clocks result }
{
    if !passes_on(tree, clock) {
        return Some(over_parent(tree, clock, rate_now(tree, clock)));
    }
    let wanted = quotient(x, u64::from(mult)).saturating_mul(u64::from(div));
    let given = over_link(levels, tree, view, rest, clock, wanted)?;
    Some(with_rate(given, factor_rate(given.rate, mult, div)))
}

// A divider over its parent's rate as it is, or one that asks its parent.
#[cycle(asking)]
fn by_divider<V: View, W: Rest>(
    levels: u32,
    tree: &Tree,
    view: &V,
    rest: &W,
    clock: ClockId,
    x: u64,
    width: u32,
    style: DivStyle,
) -> Option<Rounded>
    requires seen { length tree.now.defs ≤ V.size view.now }
    requires there { registered tree.now.clocks clock.0 ≡ true }
    requires right { IsDividerWidth style width }
    ensures rounding { Always tree.now.defs tree.now (λ w. option_map rounded_of result
        ≡ divider_rounding (round.rate_for levels w (V.means view.now)) w clock.0 x width style) }
    ensures names { NamesRegistered tree.now.clocks result }
{
    if passes_on(tree, clock) {
        return by_divisor(levels, tree, view, rest, clock, x.max(1), width, style);
    }
    let parent = parent_rate_now(tree, clock);
    let divisor = div_round(parent, x, width, style);
    Some(over_parent(tree, clock, quotient_up(parent, divisor)))
}

// A mux that keeps its parent, or one that may move.
#[cycle(asking)]
fn by_mux<V: View, W: Rest>(
    levels: u32,
    tree: &Tree,
    view: &V,
    rest: &W,
    clock: ClockId,
    x: u64,
) -> Option<Rounded>
    requires seen { length tree.now.defs ≤ V.size view.now }
    requires there { registered tree.now.clocks clock.0 ≡ true }
    ensures rounding { Always tree.now.defs tree.now (λ w. option_map rounded_of result
        ≡ mux_rounding (round.rate_for levels w (V.means view.now)) w clock.0 x) }
    ensures names { NamesRegistered tree.now.clocks result }
{
    if !keeps_parent(tree, clock) {
        return by_candidate(levels, tree, view, rest, clock, x);
    }
    if passes_on(tree, clock) {
        return over_link(levels, tree, view, rest, clock, x);
    }
    Some(over_parent(tree, clock, parent_rate_now(tree, clock)))
}

// The rounding of a clock that can round and isn't guarded.
#[cycle(asking)]
fn by_kind<V: View, W: Rest>(
    levels: u32,
    tree: &Tree,
    view: &V,
    rest: &W,
    clock: ClockId,
    kind: Kind,
    x: u64,
) -> Option<Rounded>
    requires seen { length tree.now.defs ≤ V.size view.now }
    requires there { registered tree.now.clocks clock.0 ≡ true }
    requires scales { CanScale kind }
    ensures rounding { Always tree.now.defs tree.now (λ w. option_map rounded_of result
        ≡ round.by_kind (round.rate_for levels w (V.means view.now)) w kind clock.0 x) }
    ensures names { NamesRegistered tree.now.clocks result }
{
    match kind {
        Kind::Factor { mult, div } => by_factor(levels, tree, view, rest, clock, x, mult, div),
        Kind::Divider {
            width,
            one_based,
            power_of_two,
            ..
        } => {
            let style = style_of(one_based, power_of_two);
            by_divider(levels, tree, view, rest, clock, x, width, style)
        }
        Kind::Mux { .. } => by_mux(levels, tree, view, rest, clock, x),
        Kind::Pll { least, most, m, .. } => {
            let parent = parent_rate_now(tree, clock);
            let n = pll_round(parent, x, least, most, m);
            Some(over_parent(tree, clock, pll_rate(parent, n, m)))
        }
        Kind::FixedRate { .. } | Kind::Gate { .. } => {
            Some(over_parent(tree, clock, rate_now(tree, clock)))
        }
    }
}

/// The rate that a clock would get for a request with the parent that gives it, if its parents are
/// asked over at most so many levels.
#[cycle(asking)]
pub(crate) fn round_by<V: View, W: Rest>(
    levels: u32,
    tree: &Tree,
    view: &V,
    rest: &W,
    clock: ClockId,
    x: u64,
) -> Option<Rounded>
    requires seen { length tree.now.defs ≤ V.size view.now }
    requires there { registered tree.now.clocks clock.0 ≡ true }
    ensures rounding { Always tree.now.defs tree.now (λ w. option_map rounded_of result
        ≡ round.round_by (round.rate_for levels w (V.means view.now)) w (V.means view.now) clock.0 x) }
    ensures names { NamesRegistered tree.now.clocks result }
{
    let kind = kind_of(tree, clock);
    let now = rate_now(tree, clock);
    if !can_round(kind) {
        if passes_on(tree, clock) {
            return over_link(levels, tree, view, rest, clock, x);
        }
        return Some(over_parent(tree, clock, now));
    }
    if view.guarded(clock) {
        return Some(over_parent(tree, clock, now));
    }
    let (low, high) = view.bounds(clock);
    by_kind(levels, tree, view, rest, clock, kind, x.max(low).min(high))
}
