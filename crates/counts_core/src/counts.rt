//! The three counts of all clocks.

ghost use Rattle.std.specs.Prelude.{◌≡◌, ℕ, ◌+◌, ◌-◌, ◌<◌, ◌&&◌, not, length, replicate, slice_index, slice_set, nat_lt, IfOk, None};
ghost use Rattle.std.specs.Option.{option_map};
ghost use Rattle.clk_base.specs.Flags.{sets_rate_gate};
ghost use Rattle.clk_model.specs.Lists.{is_in};
ghost use Rattle.clk_model.specs.State.{row_of};
ghost use Rattle.clk_model.specs.Tree.{path_within};

use crate::children::{child_joins, child_leaves};
use crate::coupled::{hold_up, release_up};
use crate::flags::{gated_clocks, no_holders, no_links};
use crate::tally::Tally;
use clk_base::{ClockId, ValidDesc};
use clk_io::NoMemory;
use clk_tree::Tree;
use std::alloc::Global;
use std::marker::Model;

/// How often each clock of a description is enabled, prepared and protected.
///
/// To contracts counts are a `CountState`: which clocks protect their rate while they are prepared,
/// the links that the sums are over, and the holders of each clock. No call but `create` takes memory.
#[derive(Drop)]
pub struct Counts {
    links: Vec<Option<ClockId>>,
    /// Whether a clock protects its rate while it is prepared.
    gated: Vec<bool>,
    enables: Tally,
    prepares: Tally,
    exclusives: Vec<u32>,
    /// The own part of a clock is its exclusive holders and, if it is gated, its prepare count.
    protects: Tally,
}

impl Model for Counts {
    ghost use Rattle.counts_core.specs.Counted.{CountState};

    ghost Value = { CountState };

    ghost use Rattle.counts_core.specs.CountsKept.{IsCounted};

    ghost view = { λ c. record {
      gated = c.gated.items;
      links = c.links.items;
      enables = c.enables.own.items;
      prepares = c.prepares.own.items;
      exclusives = c.exclusives.items;
    } };

    ghost invariant = { λ c. IsCounted c.links.items c.gated.items c.enables.own.items c.prepares.own.items c.exclusives.items
        c.enables.counts.items c.prepares.counts.items c.protects.own.items c.protects.counts.items };
}

impl Counts {
    ghost use Rattle.counts_core.specs.Sums.{up_in};
    ghost use Rattle.counts_core.specs.Counted.{CountState, AreCounts, HasLinks, HasOtherLinks};
    ghost use Rattle.counts_core.specs.Counted.{is_gated, is_active, is_prepared, is_guarded, enable_sum, prepare_sum, protect_sum};

    /// Nobody holds a clock, and no clock has a link. Out of memory is its one refusal.
    pub fn create(alloc: Global, desc: &ValidDesc) -> Result<Counts, NoMemory>
        ensures gated { IfOk result (λ made. (c : ℕ) → is_gated made c ≡ sets_rate_gate desc.now.defs c) }
        ensures links { IfOk result (λ made. made.links ≡ replicate (length desc.now.defs) None) }
        ensures enables { IfOk result (λ made. made.enables ≡ replicate (length desc.now.defs) 0) }
        ensures prepares { IfOk result (λ made. made.prepares ≡ replicate (length desc.now.defs) 0) }
        ensures exclusives { IfOk result (λ made. made.exclusives ≡ replicate (length desc.now.defs) 0) }
        ensures stands { IfOk result AreCounts }
    {
        let clocks = desc.len();
        let links = no_links(alloc, clocks)?;
        let gated = gated_clocks(alloc, desc)?;
        let enables = Tally::empty(alloc, clocks)?;
        let prepares = Tally::empty(alloc, clocks)?;
        let exclusives = no_holders(alloc, clocks)?;
        let protects = Tally::empty(alloc, clocks)?;
        Ok(Counts {
            links,
            gated,
            enables,
            prepares,
            exclusives,
            protects,
        })
    }

    /// One enable holder of a clock more. Tells how many clocks became active: the first so many of
    /// the clock's path.
    pub fn enable_walk(&mut self, _tree: &Tree, c: ClockId) -> usize
        requires place { c.0 < length self.old.links }
        requires links { HasLinks _tree.now.clocks self.old.links }
        requires room { slice_index self.old.enables c.0 < 8388608 }
        ensures holders { self.new
            ≡ record self.old { enables = slice_set self.old.enables c.0 (slice_index self.old.enables c.0 + 1) } }
        ensures begun { (d : ℕ) → is_in d (path_within (up_in self.old.links) result c.0)
            ≡ (is_active self.new d && not (is_active self.old d)) }
        ensures many { length (path_within (up_in self.old.links) result c.0) ≡ result }
        ensures stands { AreCounts self.new }
    {
        self.enables.add(&self.links, c)
    }

    /// One enable holder of a clock less. Tells how many clocks are no longer active: the first so
    /// many of the clock's path.
    pub fn disable_walk(&mut self, _tree: &Tree, c: ClockId) -> usize
        requires place { c.0 < length self.old.links }
        requires links { HasLinks _tree.now.clocks self.old.links }
        requires held { 0 < slice_index self.old.enables c.0 }
        ensures holders { self.new
            ≡ record self.old { enables = slice_set self.old.enables c.0 (slice_index self.old.enables c.0 - 1) } }
        ensures stopped { (d : ℕ) → is_in d (path_within (up_in self.old.links) result c.0)
            ≡ (is_active self.old d && not (is_active self.new d)) }
        ensures many { length (path_within (up_in self.old.links) result c.0) ≡ result }
        ensures stands { AreCounts self.new }
    {
        self.enables.take(&self.links, c)
    }

    /// One prepare holder of a clock more. Tells how many clocks became prepared: the first so many
    /// of the clock's path.
    pub fn hold(&mut self, _tree: &Tree, c: ClockId) -> usize
        requires place { c.0 < length self.old.links }
        requires links { HasLinks _tree.now.clocks self.old.links }
        requires room { slice_index self.old.prepares c.0 < 8388608 }
        ensures holders { self.new
            ≡ record self.old { prepares = slice_set self.old.prepares c.0 (slice_index self.old.prepares c.0 + 1) } }
        ensures begun { (d : ℕ) → is_in d (path_within (up_in self.old.links) result c.0)
            ≡ (is_prepared self.new d && not (is_prepared self.old d)) }
        ensures many { length (path_within (up_in self.old.links) result c.0) ≡ result }
        ensures stands { AreCounts self.new }
    {
        self.prepares.own[c.0 as usize] += 1;
        hold_up(
            &self.links,
            &self.gated,
            &mut self.prepares.counts,
            &mut self.protects,
            c,
        )
    }

    /// One prepare holder of a clock less. Tells how many clocks are no longer prepared: the first
    /// so many of the clock's path.
    pub fn release(&mut self, _tree: &Tree, c: ClockId) -> usize
        requires place { c.0 < length self.old.links }
        requires links { HasLinks _tree.now.clocks self.old.links }
        requires held { 0 < slice_index self.old.prepares c.0 }
        ensures holders { self.new
            ≡ record self.old { prepares = slice_set self.old.prepares c.0 (slice_index self.old.prepares c.0 - 1) } }
        ensures stopped { (d : ℕ) → is_in d (path_within (up_in self.old.links) result c.0)
            ≡ (is_prepared self.old d && not (is_prepared self.new d)) }
        ensures many { length (path_within (up_in self.old.links) result c.0) ≡ result }
        ensures stands { AreCounts self.new }
    {
        self.prepares.own[c.0 as usize] -= 1;
        release_up(
            &self.links,
            &self.gated,
            &mut self.prepares.counts,
            &mut self.protects,
            c,
        )
    }

    /// One exclusive holder of a clock more.
    pub fn protect(&mut self, _tree: &Tree, c: ClockId)
        requires place { c.0 < length self.old.links }
        requires links { HasLinks _tree.now.clocks self.old.links }
        requires room { slice_index self.old.exclusives c.0 < 8388608 }
        ensures holders { self.new
            ≡ record self.old { exclusives = slice_set self.old.exclusives c.0 (slice_index self.old.exclusives c.0 + 1) } }
        ensures stands { AreCounts self.new }
    {
        self.exclusives[c.0 as usize] += 1;
        self.protects.add(&self.links, c);
    }

    /// One exclusive holder of a clock less.
    pub fn unprotect(&mut self, _tree: &Tree, c: ClockId)
        requires place { c.0 < length self.old.links }
        requires links { HasLinks _tree.now.clocks self.old.links }
        requires held { 0 < slice_index self.old.exclusives c.0 }
        ensures holders { self.new
            ≡ record self.old { exclusives = slice_set self.old.exclusives c.0 (slice_index self.old.exclusives c.0 - 1) } }
        ensures stands { AreCounts self.new }
    {
        self.exclusives[c.0 as usize] -= 1;
        self.protects.take(&self.links, c);
    }

    /// The sums are over the tree's links from now on, after a clock has got another parent than it had.
    pub fn moved(&mut self, tree: &Tree, c: ClockId, from: Option<ClockId>)
        requires place { c.0 < length self.old.links }
        requires size { length tree.now.defs ≡ length self.old.links }
        requires from { up_in self.old.links c.0 ≡ option_map (λ p. p.0) from }
        requires others { HasOtherLinks tree.now.clocks self.old.links c.0 }
        ensures moved { self.new ≡ record self.old { links = slice_set self.old.links c.0 (row_of tree.now.clocks c.0).link } }
        ensures links { HasLinks tree.now.clocks self.new.links }
        ensures stands { AreCounts self.new }
    {
        let to = tree.parent(c);
        child_joins(
            &self.links,
            &self.gated,
            &mut self.enables,
            &mut self.prepares,
            &mut self.protects,
            c,
            to,
        );
        self.links[c.0 as usize] = to;
        child_leaves(
            &self.links,
            &self.gated,
            &mut self.enables,
            &mut self.prepares,
            &mut self.protects,
            c,
            from,
        );
    }

    /// How often a clock is enabled. It is active exactly if this isn't 0.
    pub fn enabled(&self, c: ClockId) -> u32
        requires place { c.0 < length self.now.links }
        ensures count { result ≡ enable_sum self.now c.0 }
        ensures active { nat_lt 0 result ≡ is_active self.now c.0 }
        ensures stands { AreCounts self.now }
    {
        self.enables.counts[c.0 as usize]
    }

    /// How often a clock is prepared. It is prepared exactly if this isn't 0.
    pub fn prepared(&self, c: ClockId) -> u32
        requires place { c.0 < length self.now.links }
        ensures count { result ≡ prepare_sum self.now c.0 }
        ensures prepared { nat_lt 0 result ≡ is_prepared self.now c.0 }
        ensures stands { AreCounts self.now }
    {
        self.prepares.counts[c.0 as usize]
    }

    /// How often a clock's rate is protected. It is guarded exactly if this isn't 0.
    pub fn protected(&self, c: ClockId) -> u32
        requires place { c.0 < length self.now.links }
        ensures count { result ≡ protect_sum self.now c.0 }
        ensures guarded { nat_lt 0 result ≡ is_guarded self.now c.0 }
        ensures stands { AreCounts self.now }
    {
        self.protects.counts[c.0 as usize]
    }
}
