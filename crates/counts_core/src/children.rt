//! A child that comes to a parent, and one that goes from it.

ghost use Rattle.std.specs.Prelude.{◌≡◌, ℕ, ◌<◌, ◌≤◌, Some, length, slice_index, IfSome};
ghost use Rattle.counts_core.specs.Sums.{up_in, AreSums, AreOwed, Grows, gated_part};

use crate::coupled::{hold_up, release_up};
use crate::tally::Tally;
use crate::walk::{lower, raise};
use clk_base::ClockId;

// Counts a child for the parent that it comes to, if it counts itself.
fn count_child(
    links: &[Option<ClockId>],
    tally: &mut Tally,
    child: ClockId,
    parent: Option<ClockId>,
)
    requires few { length links.now ≤ 4096 }
    requires place { child.0 < length links.now }
    requires there { IfSome parent (λ p. p.0 < length links.now) }
    requires inside { (d p : ℕ) → up_in links.now d ≡ Some p → p < length links.now }
    requires room { (d : ℕ) → slice_index tally.old.own.items d ≤ 536870912 }
    requires sums { AreSums links.now tally.old.own.items tally.old.counts.items }
    ensures owed { AreOwed links.now tally.new.own.items tally.new.counts.items child.0 parent }
    ensures own { tally.new.own.items ≡ tally.old.own.items }
{
    if tally.counts[child.0 as usize] == 0 {
        return;
    }
    if let Some(parent) = parent {
        raise(links, &mut tally.counts, parent);
    }
}

// No longer counts a child for the parent that it goes from, if it counts itself.
fn drop_child(links: &[Option<ClockId>], tally: &mut Tally, child: ClockId, parent: Option<ClockId>)
    requires few { length links.now ≤ 4096 }
    requires place { child.0 < length links.now }
    requires there { IfSome parent (λ p. p.0 < length links.now) }
    requires inside { (d p : ℕ) → up_in links.now d ≡ Some p → p < length links.now }
    requires owed { AreOwed links.now tally.old.own.items tally.old.counts.items child.0 parent }
    ensures sums { AreSums links.now tally.new.own.items tally.new.counts.items }
    ensures own { tally.new.own.items ≡ tally.old.own.items }
{
    if tally.counts[child.0 as usize] == 0 {
        return;
    }
    if let Some(parent) = parent {
        lower(links, &mut tally.counts, parent);
    }
}

// Counts a child for the parent that it comes to, if it is prepared.
fn count_prepared_child(
    links: &[Option<ClockId>],
    gated: &[bool],
    prepares: &mut Tally,
    protects: &mut Tally,
    child: ClockId,
    parent: Option<ClockId>,
)
    requires few { length links.now ≤ 4096 }
    requires flags { length gated.now ≡ length links.now }
    requires place { child.0 < length links.now }
    requires there { IfSome parent (λ p. p.0 < length links.now) }
    requires inside { (d p : ℕ) → up_in links.now d ≡ Some p → p < length links.now }
    requires room { (d : ℕ) → slice_index prepares.old.own.items d ≤ 134217728 }
    requires small { (d : ℕ) → slice_index protects.old.own.items d ≤ 268435456 }
    requires prepare_sums { AreSums links.now prepares.old.own.items prepares.old.counts.items }
    requires sums { AreSums links.now protects.old.own.items protects.old.counts.items }
    ensures owed { AreOwed links.now prepares.new.own.items prepares.new.counts.items child.0 parent }
    ensures own { prepares.new.own.items ≡ prepares.old.own.items }
    ensures sums { AreSums links.now protects.new.own.items protects.new.counts.items }
    ensures coupled { Grows gated.now protects.old.own.items prepares.old.counts.items protects.new.own.items prepares.new.counts.items }
{
    if prepares.counts[child.0 as usize] == 0 {
        return;
    }
    if let Some(parent) = parent {
        hold_up(links, gated, &mut prepares.counts, protects, parent);
    }
}

// No longer counts a child for the parent that it goes from, if it is prepared.
fn drop_prepared_child(
    links: &[Option<ClockId>],
    gated: &[bool],
    prepares: &mut Tally,
    protects: &mut Tally,
    child: ClockId,
    parent: Option<ClockId>,
)
    requires few { length links.now ≤ 4096 }
    requires flags { length gated.now ≡ length links.now }
    requires place { child.0 < length links.now }
    requires there { IfSome parent (λ p. p.0 < length links.now) }
    requires inside { (d p : ℕ) → up_in links.now d ≡ Some p → p < length links.now }
    requires owed { AreOwed links.now prepares.old.own.items prepares.old.counts.items child.0 parent }
    requires gated { (d : ℕ) → gated_part gated.now prepares.old.counts.items d ≤ slice_index protects.old.own.items d }
    requires sums { AreSums links.now protects.old.own.items protects.old.counts.items }
    ensures prepare_sums { AreSums links.now prepares.new.own.items prepares.new.counts.items }
    ensures own { prepares.new.own.items ≡ prepares.old.own.items }
    ensures sums { AreSums links.now protects.new.own.items protects.new.counts.items }
    ensures coupled { Grows gated.now protects.old.own.items prepares.old.counts.items protects.new.own.items prepares.new.counts.items }
{
    if prepares.counts[child.0 as usize] == 0 {
        return;
    }
    if let Some(parent) = parent {
        release_up(links, gated, &mut prepares.counts, protects, parent);
    }
}

/// Counts a child for the parent that it comes to, if it is enabled, prepared or protected.
pub(crate) fn child_joins(
    links: &[Option<ClockId>],
    gated: &[bool],
    enables: &mut Tally,
    prepares: &mut Tally,
    protects: &mut Tally,
    child: ClockId,
    parent: Option<ClockId>,
)
    requires few { length links.now ≤ 4096 }
    requires flags { length gated.now ≡ length links.now }
    requires place { child.0 < length links.now }
    requires there { IfSome parent (λ p. p.0 < length links.now) }
    requires inside { (d p : ℕ) → up_in links.now d ≡ Some p → p < length links.now }
    requires enable_room { (d : ℕ) → slice_index enables.old.own.items d ≤ 134217728 }
    requires prepare_room { (d : ℕ) → slice_index prepares.old.own.items d ≤ 134217728 }
    requires room { (d : ℕ) → slice_index protects.old.own.items d ≤ 134217728 }
    requires enable_sums { AreSums links.now enables.old.own.items enables.old.counts.items }
    requires prepare_sums { AreSums links.now prepares.old.own.items prepares.old.counts.items }
    requires sums { AreSums links.now protects.old.own.items protects.old.counts.items }
    ensures enable_owed { AreOwed links.now enables.new.own.items enables.new.counts.items child.0 parent }
    ensures prepare_owed { AreOwed links.now prepares.new.own.items prepares.new.counts.items child.0 parent }
    ensures owed { AreOwed links.now protects.new.own.items protects.new.counts.items child.0 parent }
    ensures enable_own { enables.new.own.items ≡ enables.old.own.items }
    ensures prepare_own { prepares.new.own.items ≡ prepares.old.own.items }
    ensures coupled { Grows gated.now protects.old.own.items prepares.old.counts.items protects.new.own.items prepares.new.counts.items }
{
    count_child(links, enables, child, parent);
    count_prepared_child(links, gated, prepares, protects, child, parent);
    count_child(links, protects, child, parent);
}

/// No longer counts a child for the parent that it goes from, if it is enabled, prepared or
/// protected.
pub(crate) fn child_leaves(
    links: &[Option<ClockId>],
    gated: &[bool],
    enables: &mut Tally,
    prepares: &mut Tally,
    protects: &mut Tally,
    child: ClockId,
    parent: Option<ClockId>,
)
    requires few { length links.now ≤ 4096 }
    requires flags { length gated.now ≡ length links.now }
    requires place { child.0 < length links.now }
    requires there { IfSome parent (λ p. p.0 < length links.now) }
    requires inside { (d p : ℕ) → up_in links.now d ≡ Some p → p < length links.now }
    requires enable_owed { AreOwed links.now enables.old.own.items enables.old.counts.items child.0 parent }
    requires prepare_owed { AreOwed links.now prepares.old.own.items prepares.old.counts.items child.0 parent }
    requires owed { AreOwed links.now protects.old.own.items protects.old.counts.items child.0 parent }
    requires gated { (d : ℕ) → gated_part gated.now prepares.old.counts.items d ≤ slice_index protects.old.own.items d }
    ensures enable_sums { AreSums links.now enables.new.own.items enables.new.counts.items }
    ensures prepare_sums { AreSums links.now prepares.new.own.items prepares.new.counts.items }
    ensures sums { AreSums links.now protects.new.own.items protects.new.counts.items }
    ensures enable_own { enables.new.own.items ≡ enables.old.own.items }
    ensures prepare_own { prepares.new.own.items ≡ prepares.old.own.items }
    ensures coupled { Grows gated.now protects.old.own.items prepares.old.counts.items protects.new.own.items prepares.new.counts.items }
{
    drop_child(links, protects, child, parent);
    drop_prepared_child(links, gated, prepares, protects, child, parent);
    drop_child(links, enables, child, parent);
}
