//! What planning sees of the clocks if one of them is free of what protects it.

ghost use Rattle.std.specs.Prelude.{◌≡◌, ◌<◌, ◌≤◌, length};
ghost use Rattle.clk_model.specs.Lists.{is_in};
ghost use Rattle.clk_model.specs.State.{link_in};
ghost use Rattle.clk_model.specs.Tree.{path_within};
ghost use Rattle.counts_core.specs.Counted.{AreCounts, protect_sum};
ghost use Rattle.core_parts.specs.Free.{sole_parent, freed, free_seen, is_sole};
ghost use Rattle.core_parts.specs.Seen.{handles_seen};
ghost use Rattle.core_parts.specs.Shape.{LinksLie};

use crate::seen::Seen;
use clk_base::{ClockId, depth};
use clk_model::HandleRow;
use clk_tree::{Tree, View};
use counts_core::Counts;

/// What planning sees of the clocks, if so many of the path of one are free.
#[derive(Drop)]
pub(crate) struct FreeSeen<'a> {
    pub seen: &'a Seen<'a>,
    pub tree: &'a Tree,
    pub clock: ClockId,
    /// How many clocks are free, from this one upwards.
    pub many: u32,
}

impl<'a> View for FreeSeen<'a> {
    ghost size = { λ v. length v.seen.now.counts.now.links };

    ghost means = { λ v. free_seen (handles_seen v.seen.now.ranged v.seen.now.handles.now.handles) v.seen.now.counts.now
        (path_within (link_in v.tree.now.clocks) v.many v.clock.0) };

    fn bounds(&self, c: ClockId) -> (u64, u64) {
        self.seen.bounds(c)
    }

    fn guarded(&self, c: ClockId) -> bool {
        self.seen.guarded(c) && !is_among(self.many, self.tree, self.clock, c)
    }

    fn prepared(&self, c: ClockId) -> bool {
        self.seen.prepared(c)
    }
}

/// Whether a clock is among the first so many of another's path.
pub fn is_among(many: u32, tree: &Tree, from: ClockId, clock: ClockId) -> bool
    ensures { result ≡ is_in clock.0 (path_within (link_in tree.now.clocks) many from.0) }
{
    if many == 0 {
        return false;
    }
    if from == clock {
        return true;
    }
    match tree.parent(from) {
        Some(parent) => is_among(many - 1, tree, parent, clock),
        None => false,
    }
}

// How many clocks from one upwards nothing protects but what reaches them through it, within so many
// levels.
fn sole_above(levels: u32, tree: &Tree, counts: &Counts, clock: ClockId) -> u32
    requires links { LinksLie tree.now.defs tree.now.clocks }
    requires counted { length counts.now.links ≡ length tree.now.defs }
    ensures sole { path_within (link_in tree.now.clocks) result clock.0
        ≡ path_within (sole_parent (link_in tree.now.clocks) (protect_sum counts.now)) levels clock.0 }
    ensures few { result ≤ levels }
{
    if levels == 0 {
        return 0;
    }
    let Some(parent) = tree.parent(clock) else {
        return 1;
    };
    if counts.protected(parent) != 1 {
        return 1;
    }
    1 + sole_above(levels - 1, tree, counts, parent)
}

/// How many clocks of a clock's path are free if it is: none if it isn't guarded.
pub(crate) fn freed_above(tree: &Tree, counts: &Counts, clock: ClockId) -> u32
    requires place { clock.0 < length tree.now.defs }
    requires links { LinksLie tree.now.defs tree.now.clocks }
    requires counted { length counts.now.links ≡ length tree.now.defs }
    ensures freed { path_within (link_in tree.now.clocks) result clock.0 ≡ freed tree.now.clocks counts.now clock.0 }
    ensures stands { AreCounts counts.now }
{
    if counts.protected(clock) == 0 {
        return 0;
    }
    sole_above(depth(), tree, counts, clock)
}

/// Whether an exclusive of a handle alone protects its clock.
pub(crate) fn is_sole(counts: &Counts, row: HandleRow) -> bool
    requires place { row.clock.0 < length counts.now.links }
    ensures sole { result ≡ is_sole row counts.now }
    ensures stands { AreCounts counts.now }
{
    counts.protected(row.clock) == 1 && row.exclusives > 0
}
