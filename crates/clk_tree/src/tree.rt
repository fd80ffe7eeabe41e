//! The tree.

ghost use Rattle.std.specs.Prelude.{◌≡◌, ◌<◌, ◌≤◌, ℕ, ◌+◌, true, false, [], ◌++◌, length, replicate, slice_get, slice_index, IfSome, IfOk};
ghost use Rattle.std.specs.Option.{option_map};
ghost use Rattle.clk_base.specs.Description.{def_of, parents_of};
ghost use Rattle.clk_base.specs.Valid.{IsValid};
ghost use Rattle.clk_model.specs.Chain.{moves};
ghost use Rattle.clk_model.specs.Lists.{is_in, to_front};
ghost use Rattle.clk_model.specs.State.{row_of, registered, link_in, unregistered_row};
ghost use Rattle.clk_model.specs.Tree.{rooted, children, roots, orphans};
ghost use Rattle.clk_model.specs.Script.{plls};
ghost use Rattle.clk_tree.specs.Plans.{step_of};
ghost use Rattle.clk_tree.specs.Refreshed.{is_below, FreshensBelow, FreshensAll};

use crate::chain::ChainStep;
use crate::group::{Group, as_clock, count_of, end_of, group_of, nth_behind};
use crate::plls::most_plls;
use crate::refresh::{rate_behind, refresh_below};
use crate::ring::Ring;
use crate::rooting::{flag_of, update_flags};
use crate::row::{is_registered, link_of, row_of, unregistered};
use clk_base::{ClockDef, ClockId, ValidDesc, depth};
use clk_io::NoMemory;
use clk_model::ClockRow;
use reg_bank::Bank;
use std::alloc::Global;
use std::marker::Model;

/// The links of the clocks of a description, the order in which they were attached, and a kept
/// rate in Hz for each.
///
/// To contracts a tree is a `TreeState`: its description with the number of words that it was
/// checked for, the rows of the clocks, the registered clocks with the newest attached first, and
/// the kept rates. No call but `create` takes memory.
#[derive(Drop)]
pub struct Tree {
    desc: ValidDesc,
    clocks: Vec<ClockRow>,
    rates: Vec<u64>,
    // The registered clocks, the newest attached first, behind the number of all clocks.
    turns: Ring,
    // The children of each clock, the roots and the orphans, the newest attached first, each group
    // behind its end.
    siblings: Ring,
    // The greatest number of PLLs on a line of possible parents.
    plls: u32,
    // For each clock, whether it is registered and its path ends in a fixed-rate clock.
    rooted: Vec<bool>,
}

impl Model for Tree {
    ghost use Rattle.std.specs.Prelude.{length};
    ghost use Rattle.clk_tree.specs.Rings.{ring_of};
    ghost use Rattle.clk_tree.specs.TreeState.{TreeState};
    ghost use Rattle.clk_tree.specs.Held.{IsHeld};

    ghost Value = { TreeState };

    ghost view = { λ t. record {
      words = t.desc.words;
      defs = t.desc.defs;
      clocks = t.clocks.items;
      order = ring_of t.turns (length t.desc.defs);
      rates = t.rates.items;
    } };

    ghost invariant = { λ t. IsHeld t.desc.defs t.clocks.items t.rates.items t.turns t.siblings t.plls t.rooted.items };
}

impl Tree {
    ghost use Rattle.clk_tree.specs.TreeState.{IsTree, attached};
    ghost use Rattle.clk_model.specs.State.{requested};

    /// A tree in which no clock is registered and every kept rate is 0. Its one refusal is that
    /// memory runs out.
    pub fn create(alloc: Global, desc: &ValidDesc) -> Result<Tree, NoMemory>
        ensures words { IfOk result (λ tree. tree.words ≡ desc.now.words) }
        ensures defs { IfOk result (λ tree. tree.defs ≡ desc.now.defs) }
        ensures rows { IfOk result (λ tree. tree.clocks ≡ replicate (length desc.now.defs) unregistered_row) }
        ensures order { IfOk result (λ tree. tree.order ≡ []) }
        ensures rates { IfOk result (λ tree. tree.rates ≡ replicate (length desc.now.defs) 0) }
        ensures stands { IfOk result (λ tree. IsTree tree.defs tree.clocks tree.order tree.rates) }
    {
        let clocks = vec![in alloc; unregistered(); desc.len()]?;
        let rates = vec![in alloc; 0u64; desc.len()]?;
        let count = count_of(desc);
        let turns = Ring::alone(alloc, count + 1)?;
        let siblings = Ring::alone(alloc, count + count + 2)?;
        let plls = most_plls(alloc, desc)?;
        let rooted = vec![in alloc; false; desc.len()]?;
        Ok(Tree {
            desc: desc.copy(alloc)?,
            clocks,
            rates,
            turns,
            siblings,
            plls,
            rooted,
        })
    }

    /// The description that the tree was made of.
    pub fn desc(&self) -> &ValidDesc
        ensures words { result.now.words ≡ self.now.words }
        ensures defs { result.now.defs ≡ self.now.defs }
        ensures valid { IsValid self.now.words self.now.defs }
        ensures stands { IsTree self.now.defs self.now.clocks self.now.order self.now.rates }
    {
        let _size = self.desc.len();
        &self.desc
    }

    /// The number of clocks of the description.
    pub fn len(&self) -> usize
        ensures len { result ≡ length self.now.defs }
        ensures few { result ≤ 4096 }
        ensures valid { IsValid self.now.words self.now.defs }
        ensures stands { IsTree self.now.defs self.now.clocks self.now.order self.now.rates }
    {
        count_of(&self.desc) as usize
    }

    /// A clock's record in the description.
    pub fn def(&self, c: ClockId) -> &ClockDef
        requires place { c.0 < length self.now.defs }
        ensures def { result.now ≡ def_of self.now.defs c.0 }
        ensures valid { IsValid self.now.words self.now.defs }
        ensures stands { IsTree self.now.defs self.now.clocks self.now.order self.now.rates }
    {
        self.desc.def(c)
    }

    /// The kept rate of a clock in Hz.
    pub fn rate(&self, c: ClockId) -> u64
        requires place { c.0 < length self.now.defs }
        ensures rate { result ≡ slice_index self.now.rates c.0 }
        ensures stands { IsTree self.now.defs self.now.clocks self.now.order self.now.rates }
    {
        self.rates[c.0 as usize]
    }

    /// The parent that a clock is attached to.
    pub fn parent(&self, c: ClockId) -> Option<ClockId>
        ensures link { option_map (λ p. p.0) result ≡ link_in self.now.clocks c.0 }
        ensures stands { IsTree self.now.defs self.now.clocks self.now.order self.now.rates }
    {
        link_of(&self.clocks, c)
    }

    /// Whether the planned parent of a clock is another than the one it has.
    pub fn moves(&self, step: ChainStep) -> bool
        ensures { result ≡ moves self.now.clocks (step_of step) }
    {
        match (step.parent, self.parent(step.clock)) {
            (Some(planned), Some(parent)) => planned.0 != parent.0,
            (None, None) => false,
            _ => true,
        }
    }

    /// Whether a clock is registered.
    pub fn registered(&self, c: ClockId) -> bool
        ensures registered { result ≡ registered self.now.clocks c.0 }
        ensures stands { IsTree self.now.defs self.now.clocks self.now.order self.now.rates }
    {
        is_registered(&self.clocks, c)
    }

    /// Whether a clock is registered and its path ends in a fixed-rate clock. No search: a
    /// flag of each clock is kept.
    pub fn rooted(&self, c: ClockId) -> bool
        ensures rooted { result ≡ rooted self.now.defs self.now.clocks c.0 }
        ensures stands { IsTree self.now.defs self.now.clocks self.now.order self.now.rates }
    {
        flag_of(&self.rooted, c)
    }

    /// The k-th child of a clock, from 0, the newest attached first.
    pub fn child(&self, p: ClockId, k: usize) -> Option<ClockId>
        ensures child { option_map (λ c. c.0) result ≡ slice_get (children self.now.order self.now.clocks p.0) k }
        ensures stands { IsTree self.now.defs self.now.clocks self.now.order self.now.rates }
    {
        let count = count_of(&self.desc);
        if p.0 >= count {
            return None;
        }
        let end = end_of(count, Group::ChildrenOf(p));
        nth_behind(&self.siblings, count, end, k).ok()
    }

    /// The newest child of a clock. No search.
    pub fn first_child(&self, p: ClockId) -> Option<ClockId>
        ensures first { option_map (λ c. c.0) result ≡ slice_get (children self.now.order self.now.clocks p.0) 0 }
        ensures inside { IfSome result (λ c. c.0 < length self.now.defs) }
        ensures stands { IsTree self.now.defs self.now.clocks self.now.order self.now.rates }
    {
        let count = count_of(&self.desc);
        if p.0 >= count {
            return None;
        }
        let end = end_of(count, Group::ChildrenOf(p));
        as_clock(count, self.siblings.after(end))
    }

    /// The next older one of the clocks that a clock stands with: the children of its parent, the
    /// roots or the orphans. None behind the last, and of a clock that isn't registered. No search.
    pub fn next_sibling(&self, c: ClockId) -> Option<ClockId>
        ensures child { (p k : ℕ) → slice_get (children self.now.order self.now.clocks p) k ≡ Some c.0
            → option_map (λ d. d.0) result ≡ slice_get (children self.now.order self.now.clocks p) (k + 1) }
        ensures root { (k : ℕ) → slice_get (roots self.now.defs self.now.order) k ≡ Some c.0
            → option_map (λ d. d.0) result ≡ slice_get (roots self.now.defs self.now.order) (k + 1) }
        ensures orphan { (k : ℕ) → slice_get (orphans self.now.defs self.now.order self.now.clocks) k ≡ Some c.0
            → option_map (λ d. d.0) result ≡ slice_get (orphans self.now.defs self.now.order self.now.clocks) (k + 1) }
        ensures alone { registered self.now.clocks c.0 ≡ false → result ≡ None }
        ensures inside { IfSome result (λ d. d.0 < length self.now.defs) }
        ensures stands { IsTree self.now.defs self.now.clocks self.now.order self.now.rates }
    {
        let count = count_of(&self.desc);
        if c.0 >= count {
            return None;
        }
        let next = self.siblings.after(c.0);
        if next == c.0 {
            return None;
        }
        as_clock(count, next)
    }

    /// The k-th, from 0, of the roots and then the orphans, the newest attached first of each.
    pub fn top(&self, k: usize) -> Option<ClockId>
        ensures top { option_map (λ c. c.0) result
            ≡ slice_get (roots self.now.defs self.now.order ++ orphans self.now.defs self.now.order self.now.clocks) k }
        ensures stands { IsTree self.now.defs self.now.clocks self.now.order self.now.rates }
    {
        let count = count_of(&self.desc);
        let roots = end_of(count, Group::Roots);
        match nth_behind(&self.siblings, count, roots, k) {
            Ok(root) => Some(root),
            Err(left) => {
                let orphans = end_of(count, Group::Orphans);
                nth_behind(&self.siblings, count, orphans, left).ok()
            }
        }
    }

    /// The greatest number of PLLs on one line of possible parents. It was counted when the tree was
    /// made.
    pub fn plls(&self) -> u32
        ensures plls { result ≡ plls self.now.defs }
        ensures stands { IsTree self.now.defs self.now.clocks self.now.order self.now.rates }
    {
        self.plls
    }

    /// The last requested rate of a clock in Hz.
    pub fn last_request(&self, c: ClockId) -> u64
        ensures request { result ≡ (row_of self.now.clocks c.0).last_request }
        ensures stands { IsTree self.now.defs self.now.clocks self.now.order self.now.rates }
    {
        row_of(&self.clocks, c).last_request
    }

    /// Attaches a clock to a parent, or to none, and registers it if it isn't. It is the newest
    /// attached from now on. Only if it is rooted then and wasn't, or the other way round, this
    /// goes to the clocks below it.
    pub fn attach(&mut self, c: ClockId, p: Option<ClockId>)
        requires place { c.0 < length self.old.defs }
        requires there { IfSome p (λ q. registered self.old.clocks q.0 ≡ true) }
        requires possible { IfSome p (λ q. is_in q.0 (parents_of self.old.defs c.0) ≡ true) }
        ensures link { self.new.clocks ≡ attached self.old.clocks c.0 p }
        ensures newest { self.new.order ≡ to_front c.0 self.old.order }
        ensures rates { self.new.rates ≡ self.old.rates }
        ensures words { self.new.words ≡ self.old.words }
        ensures defs { self.new.defs ≡ self.old.defs }
        ensures stands { IsTree self.new.defs self.new.clocks self.new.order self.new.rates }
    {
        let row = ClockRow {
            registered: true,
            link: p,
            ..row_of(&self.clocks, c)
        };
        self.clocks[c.0 as usize] = row;
        let count = count_of(&self.desc);
        let end = end_of(count, group_of(&self.desc, c, p));
        self.siblings.move_behind(end, c.0);
        self.turns.move_behind(count, c.0);
        update_flags(&self.desc, &self.siblings, c, p, &mut self.rooted);
    }

    /// Keeps a rate in Hz as the last requested one of a clock.
    pub fn set_last_request(&mut self, c: ClockId, rate: u64)
        requires place { c.0 < length self.old.defs }
        ensures request { self.new.clocks ≡ requested self.old.clocks c.0 rate }
        ensures order { self.new.order ≡ self.old.order }
        ensures rates { self.new.rates ≡ self.old.rates }
        ensures words { self.new.words ≡ self.old.words }
        ensures defs { self.new.defs ≡ self.old.defs }
        ensures stands { IsTree self.new.defs self.new.clocks self.new.order self.new.rates }
    {
        let row = ClockRow {
            last_request: rate,
            ..row_of(&self.clocks, c)
        };
        self.clocks[c.0 as usize] = row;
    }

    /// Brings the kept rates of a clock and of all clocks below it up to date with the registers.
    /// Other kept rates stay.
    pub fn refresh_from<B: Bank>(&mut self, bank: &B, c: ClockId)
        requires valid { IsValid (B.size bank.now) self.old.defs }
        requires place { c.0 < length self.old.defs }
        ensures below { FreshensBelow self.old.defs (B.contents bank.now) self.old.clocks self.old.rates self.new.rates c.0 }
        ensures rates { FreshensAll self.old.defs (B.contents bank.now) self.old.clocks self.old.rates self.new.rates c.0 }
        ensures others { (k : ℕ) → is_below self.old.clocks c.0 k ≡ false → slice_index self.new.rates k ≡ slice_index self.old.rates k }
        ensures rows { self.new.clocks ≡ self.old.clocks }
        ensures order { self.new.order ≡ self.old.order }
        ensures words { self.new.words ≡ self.old.words }
        ensures defs { self.new.defs ≡ self.old.defs }
        ensures stands { IsTree self.new.defs self.new.clocks self.new.order self.new.rates }
    {
        let link = link_of(&self.clocks, c);
        let parent = rate_behind(&self.rates, link);
        let levels = depth();
        refresh_below(
            levels,
            &self.desc,
            &self.siblings,
            bank,
            c,
            parent,
            &mut self.rates,
        );
    }

    /// Does what `refresh_from` does, of a description equal to the tree's own.
    pub fn refresh<B: Bank>(&mut self, desc: &ValidDesc, bank: &B, c: ClockId)
        requires made { desc.now.defs ≡ self.old.defs }
        requires bank { desc.now.words ≤ B.size bank.now }
        requires place { c.0 < length self.old.defs }
        ensures below { FreshensBelow self.old.defs (B.contents bank.now) self.old.clocks self.old.rates self.new.rates c.0 }
        ensures rates { FreshensAll self.old.defs (B.contents bank.now) self.old.clocks self.old.rates self.new.rates c.0 }
        ensures others { (k : ℕ) → is_below self.old.clocks c.0 k ≡ false → slice_index self.new.rates k ≡ slice_index self.old.rates k }
        ensures rows { self.new.clocks ≡ self.old.clocks }
        ensures order { self.new.order ≡ self.old.order }
        ensures words { self.new.words ≡ self.old.words }
        ensures defs { self.new.defs ≡ self.old.defs }
        ensures stands { IsTree self.new.defs self.new.clocks self.new.order self.new.rates }
    {
        let _size = desc.len();
        self.refresh_from(bank, c);
    }
}
