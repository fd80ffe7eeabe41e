//! Holds of clocks by their kind: one more, one less, and holds for a change that become holds of
//! another clock, or end.

ghost use Rattle.std.specs.Prelude.{◌≡◌, ℕ, ◌+◌, ◌-◌, ◌<◌, ◌≤◌, Some, None, length, slice_index, slice_set};
ghost use Rattle.counts_core.specs.Counted.{AreCounts, HasLinks};
ghost use Rattle.core_parts.specs.Holds.{Ends, Passes, own_of, passed_times, with_own};

use crate::held::Held;
use clk_base::ClockId;
use clk_tree::Tree;
use counts_core::Counts;

/// What a hold keeps of a clock: that it is prepared, that it is enabled, or its rate.
#[derive(Clone, Copy, Debug, PartialEq, Eq)]
pub enum HoldKind {
    Prepare,
    Enable,
    Exclusive,
}

/// One hold of a clock more.
pub fn add_hold(kind: HoldKind, tree: &Tree, counts: &mut Counts, clock: ClockId)
    requires place { clock.0 < length counts.old.links }
    requires links { HasLinks tree.now.clocks counts.old.links }
    requires room { slice_index (own_of kind counts.old) clock.0 < 8388608 }
    ensures holders { counts.new ≡ with_own kind counts.old
        (slice_set (own_of kind counts.old) clock.0 (slice_index (own_of kind counts.old) clock.0 + 1)) }
    ensures stands { AreCounts counts.new }
{
    match kind {
        HoldKind::Prepare => {
            counts.hold(tree, clock);
        }
        HoldKind::Enable => {
            counts.enable_walk(tree, clock);
        }
        HoldKind::Exclusive => counts.protect(tree, clock),
    }
}

/// One hold of a clock less.
pub fn drop_hold(kind: HoldKind, tree: &Tree, counts: &mut Counts, clock: ClockId)
    requires place { clock.0 < length counts.old.links }
    requires links { HasLinks tree.now.clocks counts.old.links }
    requires held { 0 < slice_index (own_of kind counts.old) clock.0 }
    ensures holders { counts.new ≡ with_own kind counts.old
        (slice_set (own_of kind counts.old) clock.0 (slice_index (own_of kind counts.old) clock.0 - 1)) }
    ensures stands { AreCounts counts.new }
{
    match kind {
        HoldKind::Prepare => {
            counts.release(tree, clock);
        }
        HoldKind::Enable => {
            counts.disable_walk(tree, clock);
        }
        HoldKind::Exclusive => counts.unprotect(tree, clock),
    }
}

/// The holds of a clock for a change become holds of another.
pub fn pass_holds(
    kind: HoldKind,
    tree: &Tree,
    counts: &mut Counts,
    held: &mut Held,
    from: ClockId,
    to: ClockId,
)
    requires place { from.0 < length counts.old.links }
    requires to { to.0 < length counts.old.links }
    requires size { length held.old ≡ length counts.old.links }
    requires stands { AreCounts counts.old }
    requires links { HasLinks tree.now.clocks counts.old.links }
    requires owned { (d : ℕ) → slice_index held.old d ≤ slice_index (own_of kind counts.old) d }
    requires room { slice_index (own_of kind counts.old) to.0 + slice_index held.old from.0 < 8388608 }
    ensures counts { counts.new ≡ with_own kind counts.old (own_of kind counts.new) }
    ensures stands { AreCounts counts.new }
    ensures passes { Passes from.0 to.0 (own_of kind counts.old) (own_of kind counts.new) held.old held.new }
    ensures passed { (d : ℕ) → slice_index held.new d ≡ passed_times from.0 (Some to.0) (slice_index held.old) d }
{
    if from.0 == to.0 {
        return;
    }
    while held.times(from) > 0 {
        add_hold(kind, tree, counts, to);
        drop_hold(kind, tree, counts, from);
        held.add(to);
        held.drop_one(from);
    }
}

/// The holds of a clock for a change end.
pub fn end_holds(kind: HoldKind, tree: &Tree, counts: &mut Counts, held: &mut Held, clock: ClockId)
    requires place { clock.0 < length counts.old.links }
    requires size { length held.old ≡ length counts.old.links }
    requires stands { AreCounts counts.old }
    requires links { HasLinks tree.now.clocks counts.old.links }
    requires owned { (d : ℕ) → slice_index held.old d ≤ slice_index (own_of kind counts.old) d }
    ensures counts { counts.new ≡ with_own kind counts.old (own_of kind counts.new) }
    ensures stands { AreCounts counts.new }
    ensures ends { Ends clock.0 (own_of kind counts.old) (own_of kind counts.new) held.old held.new }
    ensures ended { (d : ℕ) → slice_index held.new d ≡ passed_times clock.0 None (slice_index held.old) d }
{
    while held.times(clock) > 0 {
        drop_hold(kind, tree, counts, clock);
        held.drop_one(clock);
    }
}
