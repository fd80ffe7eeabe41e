//! Counts beside plain lists of holders.

ghost use Rattle.std.specs.Prelude.{◌≡◌, ◌<◌, true, length, replicate, IfOk, IfSome};
ghost use Rattle.clk_base.specs.Description.{parents_of};
ghost use Rattle.clk_model.specs.Lists.{is_in};
ghost use Rattle.clk_model.specs.State.{registered};

use crate::clocks::is_possible;
use crate::plain::{count_held, plain_sums};
use clk_base::{ClockId, ValidDesc};
use clk_tree::Tree;
use counts_core::Counts;
use std::alloc::{AllocError, Global};
use std::marker::Model;
use std::process::Abort;
use std::test::Fail;

/// How many holders of each kind each clock has.
#[derive(Drop)]
struct Holders {
    enables: Vec<u32>,
    prepares: Vec<u32>,
    exclusives: Vec<u32>,
}

// Nobody holds one of so many clocks.
fn no_holders(alloc: Global, clocks: usize) -> Result<Holders, AllocError>
    ensures enables { IfOk result (λ made. made.enables.items ≡ replicate clocks 0) }
    ensures prepares { IfOk result (λ made. made.prepares.items ≡ replicate clocks 0) }
    ensures exclusives { IfOk result (λ made. made.exclusives.items ≡ replicate clocks 0) }
{
    Ok(Holders {
        enables: vec![in alloc; 0u32; clocks]?,
        prepares: vec![in alloc; 0u32; clocks]?,
        exclusives: vec![in alloc; 0u32; clocks]?,
    })
}

/// A tree, its counts, and the holders beside them.
#[derive(Drop)]
pub(crate) struct Beside {
    tree: Tree,
    counts: Counts,
    own: Holders,
}

impl Model for Beside {
    ghost use Rattle.clk_base.specs.Description.{Description};

    ghost Value = { Description };

    ghost use Rattle.parts_tests.specs.KeptBeside.{AreBeside};

    ghost view = { λ b. b.tree.defs };

    ghost invariant = { λ b. AreBeside b.tree b.counts b.own.enables.items b.own.prepares.items b.own.exclusives.items };
}

// The clock as a parent, if it is registered and a possible one.
fn as_parent(tree: &Tree, desc: &ValidDesc, c: ClockId, p: ClockId) -> Option<ClockId>
    requires { c.0 < length desc.now.defs }
    ensures there { IfSome result (λ q. registered tree.now.clocks q.0 ≡ true) }
    ensures possible { IfSome result (λ q. is_in q.0 (parents_of desc.now.defs c.0) ≡ true) }
{
    if tree.registered(p) && is_possible(desc, c, p) {
        Some(p)
    } else {
        None
    }
}

// Whether the clock of this place protects its rate while it is prepared.
fn is_gated(place: usize) -> bool {
    place % 3 == 2
}

impl Beside {
    /// Nothing is registered, and nobody holds a clock.
    pub(crate) fn create(alloc: Global, desc: &ValidDesc) -> Result<Beside, Fail>
        ensures { IfOk result (λ made. made ≡ desc.now.defs) }
    {
        let own = no_holders(alloc, desc.len())?;
        let tree = Tree::create(alloc, desc)?;
        let counts = Counts::create(alloc, desc)?;
        Ok(Beside { tree, counts, own })
    }

    /// One enable holder more, and how many clocks became active.
    pub(crate) fn enable(&mut self, c: ClockId) -> usize
        ensures { self.new ≡ self.old }
    {
        let at = c.0 as usize;
        if at >= self.own.enables.len() || self.own.enables[at] >= 1000 {
            return 0;
        }
        self.own.enables[at] += 1;
        self.counts.enable_walk(&self.tree, c)
    }

    /// One enable holder less, and how many clocks are no longer active.
    pub(crate) fn disable(&mut self, c: ClockId) -> usize
        ensures { self.new ≡ self.old }
    {
        let at = c.0 as usize;
        if at >= self.own.enables.len() || self.own.enables[at] == 0 {
            return 0;
        }
        self.own.enables[at] -= 1;
        self.counts.disable_walk(&self.tree, c)
    }

    /// One prepare holder more, and how many clocks became prepared.
    pub(crate) fn hold(&mut self, c: ClockId) -> usize
        ensures { self.new ≡ self.old }
    {
        let at = c.0 as usize;
        if at >= self.own.prepares.len() || self.own.prepares[at] >= 1000 {
            return 0;
        }
        self.own.prepares[at] += 1;
        self.counts.hold(&self.tree, c)
    }

    /// One prepare holder less, and how many clocks are no longer prepared.
    pub(crate) fn release(&mut self, c: ClockId) -> usize
        ensures { self.new ≡ self.old }
    {
        let at = c.0 as usize;
        if at >= self.own.prepares.len() || self.own.prepares[at] == 0 {
            return 0;
        }
        self.own.prepares[at] -= 1;
        self.counts.release(&self.tree, c)
    }

    /// One exclusive holder more.
    pub(crate) fn protect(&mut self, c: ClockId)
        ensures { self.new ≡ self.old }
    {
        let at = c.0 as usize;
        if at < self.own.exclusives.len() && self.own.exclusives[at] < 1000 {
            self.own.exclusives[at] += 1;
            self.counts.protect(&self.tree, c);
        }
    }

    /// One exclusive holder less.
    pub(crate) fn unprotect(&mut self, c: ClockId)
        ensures { self.new ≡ self.old }
    {
        let at = c.0 as usize;
        if at < self.own.exclusives.len() && self.own.exclusives[at] > 0 {
            self.own.exclusives[at] -= 1;
            self.counts.unprotect(&self.tree, c);
        }
    }

    /// Attaches a clock to a possible parent that is registered, and else to none.
    pub(crate) fn attach(&mut self, desc: &ValidDesc, c: ClockId, p: ClockId)
        requires { desc.now.defs ≡ self.old }
        ensures { self.new ≡ self.old }
    {
        if c.0 as usize >= desc.len() {
            return;
        }
        let from = self.tree.parent(c);
        let to = as_parent(&self.tree, desc, c, p);
        self.tree.attach(c, to);
        self.counts.moved(&self.tree, c, from);
    }

    // The three kept counts of a clock of the description.
    fn kept(&self, c: ClockId) -> Option<(u32, u32, u32)> {
        if c.0 as usize >= self.own.enables.len() {
            return None;
        }
        let counts = &self.counts;
        Some((counts.enabled(c), counts.prepared(c), counts.protected(c)))
    }

    // The links of the tree.
    fn links(&self, alloc: Global) -> Result<Vec<Option<ClockId>>, AllocError> {
        let mut links = Vec::new(alloc);
        let mut place = 0u32;
        for _count in &self.own.enables {
            links.push(self.tree.parent(ClockId(place)))?;
            place = place.wrapping_add(1);
        }
        Ok(links)
    }

    /// How many clocks are active, and how many are prepared.
    pub(crate) fn held(&self, alloc: Global) -> Result<(usize, usize), AllocError> {
        let links = self.links(alloc)?;
        let active = count_held(alloc, links.as_slice(), self.own.enables.as_slice())?;
        let prepared = count_held(alloc, links.as_slice(), self.own.prepares.as_slice())?;
        Ok((active, prepared))
    }

    // What each clock has of protections of its own.
    fn protections(&self, alloc: Global, prepares: &[u32]) -> Result<Vec<u32>, AllocError> {
        let mut own = Vec::new(alloc);
        for (place, (count, prepared)) in self.own.exclusives.iter().zip(prepares).enumerate() {
            let gated = if is_gated(place) { *prepared } else { 0 };
            own.push(count.saturating_add(gated))?;
        }
        Ok(own)
    }

    /// The kept counts are the plain sums.
    pub(crate) fn expect_sums(&self, rt: &impl Abort, alloc: Global) -> Result<(), AllocError> {
        let links = self.links(alloc)?;
        let enables = plain_sums(alloc, links.as_slice(), self.own.enables.as_slice())?;
        let prepares = plain_sums(alloc, links.as_slice(), self.own.prepares.as_slice())?;
        let own = self.protections(alloc, prepares.as_slice())?;
        let protects = plain_sums(alloc, links.as_slice(), own.as_slice())?;
        assert!(rt; enables.len() == self.own.enables.len());
        let mut c = 0u32;
        for ((enabled, prepared), protected) in enables.iter().zip(&prepares).zip(&protects) {
            assert!(rt; self.kept(ClockId(c)) == Some((*enabled, *prepared, *protected)));
            c = c.wrapping_add(1);
        }
        assert!(rt; self.kept(ClockId(c)).is_none());
        Ok(())
    }
}
