//! The PLLs of a path that a raise powers or a lower switches off.

ghost use Rattle.std.specs.Prelude.{◌≡◌, ℕ, ◌<◌, ◌++◌, ◌&&◌, [], ◌∷◌, not, List, length, reverse, None, IfSome, if◌then◌else◌};
ghost use Rattle.std.specs.Option.{option_map_or};
ghost use Rattle.std.specs.List.{list_any};
ghost use Rattle.clk_model.specs.Lists.{is_in};
ghost use Rattle.clk_model.specs.Script.{runs};
ghost use Rattle.clk_model.specs.State.{link_in};
ghost use Rattle.clk_model.specs.Tree.{path_within, path};
ghost use Rattle.counts_core.specs.Counted.{HasLinks};
ghost use Rattle.core_parts.specs.Plls.{is_loose, raisable, lowerable, Finds};
ghost use Rattle.core_parts.specs.Shape.{LinksLie};

use crate::kinds::is_pll;
use crate::power::is_running;
use crate::window::Window;
use clk_base::{ClockId, depth};
use clk_flight::Flight;
use clk_tree::Tree;
use counts_core::Counts;
use reg_bank::Bank;

/// What was sought on a path.
#[derive(Clone, Copy)]
pub struct Sought {
    /// The PLL that comes first.
    pub pll: Option<ClockId>,
    /// Whether there are more.
    pub more: bool,
}

// Nothing.
fn nothing() -> Sought
    ensures found { Finds result [] }
    ensures none { result.pll ≡ None }
{
    Sought {
        pll: None,
        more: false,
    }
}

// What was found with a clock after it, if that is sought too.
fn with_last(found: Sought, clock: ClockId, sought: bool) -> Sought
    ensures { (xs : List ℕ) → Finds found xs → Finds result (if sought then xs ++ clock.0 ∷ [] else xs) }
{
    if !sought {
        return found;
    }
    match found.pll {
        Some(_) => Sought {
            pll: found.pll,
            more: true,
        },
        None => Sought {
            pll: Some(clock),
            more: false,
        },
    }
}

// What was found with a clock before it, if that is sought too.
fn with_first(found: Sought, clock: ClockId, sought: bool) -> Sought
    ensures found { (xs : List ℕ) → Finds found xs → Finds result (if sought then clock.0 ∷ xs else xs) }
    ensures inside { (n : ℕ) → clock.0 < n → IfSome found.pll (λ pll. pll.0 < n) → IfSome result.pll (λ pll. pll.0 < n) }
{
    if !sought {
        return found;
    }
    Sought {
        pll: Some(clock),
        more: found.pll.is_some(),
    }
}

// Whether a clock is a PLL that no prepare keeps powered.
fn is_loose(tree: &Tree, counts: &Counts, clock: ClockId) -> bool
    requires place { clock.0 < length tree.now.defs }
    requires counted { length counts.now.links ≡ length tree.now.defs }
    ensures { result ≡ is_loose tree.now.defs counts.now clock.0 }
{
    is_pll(tree, clock) && counts.prepared(clock) == 0
}

// Whether a clock is a PLL that neither a prepare nor the change in flight keeps powered.
fn is_raisable(tree: &Tree, counts: &Counts, flight: &Flight, clock: ClockId) -> bool
    requires place { clock.0 < length tree.now.defs }
    requires counted { length counts.now.links ≡ length tree.now.defs }
    ensures { result ≡ (is_loose tree.now.defs counts.now clock.0 && not (is_in clock.0 flight.now.raised)) }
{
    is_loose(tree, counts, clock) && !flight.has_raised(clock)
}

// Whether a clock is a PLL that is powered without a prepare.
fn is_lowerable<B: Bank>(tree: &Tree, counts: &Counts, window: &Window<B>, clock: ClockId) -> bool
    requires place { clock.0 < length tree.now.defs }
    requires counted { length counts.now.links ≡ length tree.now.defs }
    requires words { window.now.size ≡ tree.now.words }
    ensures { IfSome window.now.words (λ regs. result ≡ (is_loose tree.now.defs counts.now clock.0 && runs tree.now.defs regs clock.0)) }
{
    is_loose(tree, counts, clock) && is_running(tree.def(clock).kind, window)
}

// Whether a PLL of a path is kept powered by no prepare, within so many levels.
fn has_loose(levels: u32, tree: &Tree, counts: &Counts, from: Option<ClockId>) -> bool
    requires place { IfSome from (λ c. c.0 < length tree.now.defs) }
    requires links { LinksLie tree.now.defs tree.now.clocks }
    requires counted { length counts.now.links ≡ length tree.now.defs }
    ensures { result ≡ list_any (is_loose tree.now.defs counts.now)
        (option_map_or (λ c. path_within (link_in tree.now.clocks) levels c.0) from []) }
{
    let Some(clock) = from else {
        return false;
    };
    if levels == 0 {
        return false;
    }
    if is_loose(tree, counts, clock) {
        return true;
    }
    has_loose(levels - 1, tree, counts, tree.parent(clock))
}

// The PLLs of a path that a raise is to power, the highest first, within so many levels.
fn raisable_above(
    levels: u32,
    tree: &Tree,
    counts: &Counts,
    flight: &Flight,
    from: Option<ClockId>,
) -> Sought
    requires place { IfSome from (λ c. c.0 < length tree.now.defs) }
    requires links { LinksLie tree.now.defs tree.now.clocks }
    requires counted { length counts.now.links ≡ length tree.now.defs }
    ensures { Finds result (reverse (raisable tree.now.defs counts.now flight.now.raised
        (option_map_or (λ c. path_within (link_in tree.now.clocks) levels c.0) from []))) }
{
    let Some(clock) = from else {
        return nothing();
    };
    if levels == 0 {
        return nothing();
    }
    let above = raisable_above(levels - 1, tree, counts, flight, tree.parent(clock));
    let sought = is_raisable(tree, counts, flight, clock);
    with_last(above, clock, sought)
}

// The PLLs of a path that a lower is to switch off, the lowest first, within so many levels.
fn lowerable_above<B: Bank>(
    levels: u32,
    tree: &Tree,
    counts: &Counts,
    window: &Window<B>,
    from: Option<ClockId>,
) -> Sought
    requires place { IfSome from (λ c. c.0 < length tree.now.defs) }
    requires links { LinksLie tree.now.defs tree.now.clocks }
    requires counted { length counts.now.links ≡ length tree.now.defs }
    requires words { window.now.size ≡ tree.now.words }
    ensures found { IfSome window.now.words (λ regs. Finds result (lowerable tree.now.defs counts.now regs
        (option_map_or (λ c. path_within (link_in tree.now.clocks) levels c.0) from []))) }
    ensures inside { IfSome result.pll (λ pll. pll.0 < length tree.now.defs) }
{
    let Some(clock) = from else {
        return nothing();
    };
    if levels == 0 {
        return nothing();
    }
    let above = lowerable_above(levels - 1, tree, counts, window, tree.parent(clock));
    let sought = is_lowerable(tree, counts, window, clock);
    with_first(above, clock, sought)
}

/// Whether a PLL of a clock's path is kept powered by no prepare. On the path of a prepared clock
/// there is none, and if no line of possible parents has a PLL none on any, so that isn't walked.
pub fn is_unprepared(tree: &Tree, counts: &Counts, clock: ClockId) -> bool
    requires place { clock.0 < length tree.now.defs }
    requires links { LinksLie tree.now.defs tree.now.clocks }
    requires counted { length counts.now.links ≡ length tree.now.defs }
    requires same { HasLinks tree.now.clocks counts.now.links }
    ensures { result ≡ list_any (is_loose tree.now.defs counts.now) (path tree.now.clocks clock.0) }
{
    if tree.plls() == 0 || counts.prepared(clock) > 0 {
        return false;
    }
    has_loose(depth(), tree, counts, Some(clock))
}

/// The highest PLL of a clock's path that neither a prepare nor the change in flight keeps powered.
pub fn next_to_raise(tree: &Tree, counts: &Counts, flight: &Flight, clock: ClockId) -> Sought
    requires place { clock.0 < length tree.now.defs }
    requires links { LinksLie tree.now.defs tree.now.clocks }
    requires counted { length counts.now.links ≡ length tree.now.defs }
    ensures { Finds result (reverse (raisable tree.now.defs counts.now flight.now.raised (path tree.now.clocks clock.0))) }
{
    raisable_above(depth(), tree, counts, flight, Some(clock))
}

/// Whether a clock that isn't registered yet, or a clock of the path of the parent that it is to get,
/// is a PLL that is kept powered by no prepare.
pub fn is_unprepared_under(
    tree: &Tree,
    counts: &Counts,
    parent: Option<ClockId>,
    clock: ClockId,
) -> bool
    requires place { clock.0 < length tree.now.defs }
    requires parent { IfSome parent (λ p. p.0 < length tree.now.defs) }
    requires links { LinksLie tree.now.defs tree.now.clocks }
    requires counted { length counts.now.links ≡ length tree.now.defs }
    ensures { result ≡ list_any (is_loose tree.now.defs counts.now) (clock.0 ∷ option_map_or (λ p. path tree.now.clocks p.0) parent []) }
{
    is_loose(tree, counts, clock) || has_loose(depth(), tree, counts, parent)
}

/// The highest PLL, of a clock that isn't registered yet and the path of the parent that it is to
/// get, that neither a prepare nor the change in flight keeps powered.
pub fn next_to_raise_under(
    tree: &Tree,
    counts: &Counts,
    flight: &Flight,
    parent: Option<ClockId>,
    clock: ClockId,
) -> Sought
    requires place { clock.0 < length tree.now.defs }
    requires parent { IfSome parent (λ p. p.0 < length tree.now.defs) }
    requires links { LinksLie tree.now.defs tree.now.clocks }
    requires counted { length counts.now.links ≡ length tree.now.defs }
    ensures { Finds result (reverse (raisable tree.now.defs counts.now flight.now.raised
        (clock.0 ∷ option_map_or (λ p. path tree.now.clocks p.0) parent []))) }
{
    let above = raisable_above(depth(), tree, counts, flight, parent);
    let sought = is_raisable(tree, counts, flight, clock);
    with_last(above, clock, sought)
}

/// The lowest PLL of a clock's path that is powered without a prepare. On the path of a prepared
/// clock there is none, and if no line of possible parents has a PLL none on any, so that isn't
/// walked.
pub fn next_to_lower<B: Bank>(
    tree: &Tree,
    counts: &Counts,
    window: &Window<B>,
    clock: ClockId,
) -> Sought
    requires place { clock.0 < length tree.now.defs }
    requires links { LinksLie tree.now.defs tree.now.clocks }
    requires counted { length counts.now.links ≡ length tree.now.defs }
    requires same { HasLinks tree.now.clocks counts.now.links }
    requires words { window.now.size ≡ tree.now.words }
    ensures found { IfSome window.now.words (λ regs. Finds result
        (lowerable tree.now.defs counts.now regs (path tree.now.clocks clock.0))) }
    ensures inside { IfSome result.pll (λ pll. pll.0 < length tree.now.defs) }
{
    if tree.plls() == 0 || counts.prepared(clock) > 0 {
        return nothing();
    }
    lowerable_above(depth(), tree, counts, window, Some(clock))
}
