//! The orphans that wait for their adoption.

ghost use Rattle.std.specs.Prelude.{◌≡◌, ℕ, ◌+◌, ◌<◌, ◌≤◌, ◌++◌, Some, true, List, length, slice_get, drop, filter, map, find, option_and_then, [], ◌∷◌, if◌then◌else◌, All, IfOk, IfSome, OnOk};
ghost use Rattle.std.specs.Option.{option_map};
ghost use Rattle.clk_base.specs.Valid.{IsValid};
ghost use Rattle.reg_bank.specs.Registers.{Registers};
ghost use Rattle.clk_model.specs.State.{registered};
ghost use Rattle.clk_model.specs.Tree.{roots, orphans, link_given};
ghost use Rattle.clk_tree.specs.TreeState.{IsTree};
ghost use Rattle.orphans.specs.Beside.{is_free, rows_with, waits_beside, StandTogether};

use crate::beside::{is_free, link_beside};
use clk_base::ClockId;
use clk_io::NoMemory;
use clk_tree::Tree;
use reg_bank::Bank;
use std::alloc::Global;

// Adds a clock if it has a parent to be given.
fn push_if_waiting<B: Bank>(
    tree: &Tree,
    bank: &B,
    new: ClockId,
    clock: ClockId,
    waiting: &mut Vec<ClockId>,
) -> Result<(), NoMemory>
    requires place { clock.0 < length tree.now.defs }
    requires new { new.0 < length tree.now.defs }
    requires valid { IsValid (B.size bank.now) tree.now.defs }
    requires before { All (λ c. c.0 < length tree.now.defs) waiting.old.items }
    ensures inside { OnOk result (All (λ c. c.0 < length tree.now.defs) waiting.new.items) }
    ensures there { registered tree.now.clocks clock.0 ≡ true → All (λ c. registered tree.now.clocks c.0 ≡ true) waiting.old.items
        → OnOk result (All (λ c. registered tree.now.clocks c.0 ≡ true) waiting.new.items) }
    ensures pushed { (regs : Registers) → B.contents bank.now ≡ Some regs
        → OnOk result (map (λ c. c.0) waiting.new.items
        ≡ map (λ c. c.0) waiting.old.items ++ (if waits_beside tree.now regs new.0 clock.0 then clock.0 ∷ [] else [])) }
{
    if link_beside(tree, bank, new, clock).is_some() {
        waiting.push(clock)?;
    }
    Ok(())
}

// Adds those of a clock and of the ones behind it among the roots or the orphans that have a parent
// to be given, and tells how many clocks there are.
fn push_waiting<B: Bank>(
    tree: &Tree,
    bank: &B,
    new: ClockId,
    first: Option<ClockId>,
    waiting: &mut Vec<ClockId>,
) -> Result<usize, NoMemory>
    requires new { new.0 < length tree.now.defs }
    requires valid { IsValid (B.size bank.now) tree.now.defs }
    requires inside { IfSome first (λ c. c.0 < length tree.now.defs) }
    requires before { All (λ c. c.0 < length tree.now.defs) waiting.old.items }
    ensures inside { IfOk result (λ count. All (λ c. c.0 < length tree.now.defs) waiting.new.items) }
    ensures there { (cs : List ℕ) (k : ℕ) → StandTogether tree.now cs → option_map (λ c. c.0) first ≡ slice_get cs k
        → All (λ c. registered tree.now.clocks c.0 ≡ true) waiting.old.items
        → IfOk result (λ count. All (λ c. registered tree.now.clocks c.0 ≡ true) waiting.new.items) }
    ensures pushed { (regs : Registers) (cs : List ℕ) (k : ℕ) → B.contents bank.now ≡ Some regs
        → StandTogether tree.now cs → option_map (λ c. c.0) first ≡ slice_get cs k
        → IfOk result (λ count. map (λ c. c.0) waiting.new.items
        ≡ map (λ c. c.0) waiting.old.items ++ filter (waits_beside tree.now regs new.0) (drop k cs)) }
    ensures counted { (cs : List ℕ) (k : ℕ) → StandTogether tree.now cs → option_map (λ c. c.0) first ≡ slice_get cs k
        → k ≤ length cs → IfOk result (λ count. k + count ≡ length cs) }
{
    let mut at = first;
    let all = tree.len();
    for count in 0..all {
        let Some(clock) = at else {
            return Ok(count);
        };
        push_if_waiting(tree, bank, new, clock, waiting)?;
        at = tree.next_sibling(clock);
    }
    Ok(all)
}

/// The orphans whose parent is there when the new clock is registered, the newest attached first.
/// Roots have no parent to be given.
pub(crate) fn waiting<B: Bank>(
    alloc: Global,
    tree: &Tree,
    bank: &B,
    new: ClockId,
) -> Result<Vec<ClockId>, NoMemory>
    requires new { new.0 < length tree.now.defs }
    requires valid { IsValid (B.size bank.now) tree.now.defs }
    ensures stands { IsTree tree.now.defs tree.now.clocks tree.now.order tree.now.rates }
    ensures inside { IfOk result (λ list. All (λ c. c.0 < length tree.now.defs) list.items) }
    ensures there { IfOk result (λ list. All (λ c. registered tree.now.clocks c.0 ≡ true) list.items) }
    ensures list { (regs : Registers) → B.contents bank.now ≡ Some regs
        → IfOk result (λ list. map (λ c. c.0) list.items
        ≡ filter (waits_beside tree.now regs new.0) (orphans tree.now.defs tree.now.order tree.now.clocks)) }
{
    let mut list = Vec::new(alloc);
    let done = push_waiting(tree, bank, new, tree.top(0), &mut list)?;
    push_waiting(tree, bank, new, tree.top(done), &mut list)?;
    Ok(list)
}

// The clock at a place.
fn clock_at(clocks: &[ClockId], place: usize) -> ClockId
    requires { place < length clocks.now }
    ensures { slice_get clocks.now place ≡ Some result }
{
    clocks[place]
}

/// The place of the first waiting clock that is free to be adopted.
pub(crate) fn first_free<B: Bank>(
    tree: &Tree,
    bank: &B,
    new: ClockId,
    link: Option<ClockId>,
    marks: &[bool],
    waiting: &[ClockId],
) -> Option<usize>
    requires new { new.0 < length tree.now.defs }
    requires valid { IsValid (B.size bank.now) tree.now.defs }
    requires link { (regs : Registers) → B.contents bank.now ≡ Some regs
        → option_map (λ p. p.0) link ≡ link_given tree.now.defs regs tree.now.clocks new.0 }
    requires stands { IsTree tree.now.defs tree.now.clocks tree.now.order tree.now.rates }
    requires inside { All (λ c. c.0 < length tree.now.defs) waiting.now }
    ensures inside { IfSome result (λ k. k < length waiting.now) }
    ensures first { (regs : Registers) → B.contents bank.now ≡ Some regs
        → find (is_free tree.now.defs regs (rows_with tree.now regs new.0) marks.now) (map (λ c. c.0) waiting.now)
        ≡ option_and_then (λ k. slice_get (map (λ c. c.0) waiting.now) k) result }
{
    for place in 0..waiting.len() {
        let clock = clock_at(waiting, place);
        if is_free(tree, bank, new, link, marks, clock) {
            return Some(place);
        }
    }
    None
}
