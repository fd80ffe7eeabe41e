//! The tree as it is with one clock more.

ghost use Rattle.std.specs.Prelude.{◌≡◌, ◌<◌, ◌==◌, ◌&&◌, ◌||◌, not, true, Some, length, IfSome};
ghost use Rattle.std.specs.List.{list_any};
ghost use Rattle.std.specs.Option.{option_map};
ghost use Rattle.clk_base.specs.Description.{parents_of};
ghost use Rattle.clk_base.specs.Tables.{flag_at};
ghost use Rattle.clk_base.specs.Valid.{IsValid};
ghost use Rattle.reg_bank.specs.Registers.{Registers};
ghost use Rattle.clk_model.specs.Lists.{is_in};
ghost use Rattle.clk_model.specs.State.{registered};
ghost use Rattle.clk_model.specs.Tree.{path_within, link_given};
ghost use Rattle.clk_tree.specs.TreeState.{IsTree};
ghost use Rattle.orphans.specs.Beside.{up_beside, rows_with, is_free};

use crate::link::selected;
use crate::marks::is_marked;
use clk_base::{ClockId, depth};
use clk_tree::Tree;
use reg_bank::Bank;

// Whether a clock is registered, or the new one.
fn is_there(tree: &Tree, new: ClockId, clock: ClockId) -> bool
    ensures there { result ≡ (new.0 == clock.0 || registered tree.now.clocks clock.0) }
    ensures stands { IsTree tree.now.defs tree.now.clocks tree.now.order tree.now.rates }
{
    tree.registered(clock) || new == clock
}

/// The parent that a registration of the clock would link if the new one was registered.
pub fn link_beside<B: Bank>(tree: &Tree, bank: &B, new: ClockId, clock: ClockId) -> Option<ClockId>
    requires place { clock.0 < length tree.now.defs }
    requires new { new.0 < length tree.now.defs }
    requires valid { IsValid (B.size bank.now) tree.now.defs }
    ensures link { (regs : Registers) → B.contents bank.now ≡ Some regs
        → option_map (λ p. p.0) result ≡ link_given tree.now.defs regs (rows_with tree.now regs new.0) clock.0 }
    ensures possible { IfSome result (λ p. is_in p.0 (parents_of tree.now.defs clock.0) ≡ true) }
    ensures there { IfSome result (λ p. (new.0 == p.0 || registered tree.now.clocks p.0) ≡ true) }
{
    let parent = selected(tree.desc(), bank, clock)?;
    if is_there(tree, new, parent) {
        Some(parent)
    } else {
        None
    }
}

// The parent that a clock is attached to, if the new one has this link.
fn parent_beside(
    tree: &Tree,
    new: ClockId,
    link: Option<ClockId>,
    clock: ClockId,
) -> Option<ClockId>
    ensures { option_map (λ p. p.0) result ≡ up_beside tree.now.clocks new.0 (option_map (λ p. p.0) link) clock.0 }
{
    if clock == new {
        link
    } else {
        tree.parent(clock)
    }
}

// Whether another clock than one is marked on a clock's path, within so many levels.
fn meets(
    levels: u32,
    tree: &Tree,
    new: ClockId,
    link: Option<ClockId>,
    marks: &[bool],
    one: ClockId,
    clock: ClockId,
) -> bool
    ensures { result ≡ list_any (λ x. not (x == one.0) && flag_at marks.now x)
        (path_within (up_beside tree.now.clocks new.0 (option_map (λ p. p.0) link)) levels clock.0) }
{
    if levels == 0 {
        return false;
    }
    if clock != one && is_marked(marks, clock) {
        return true;
    }
    match parent_beside(tree, new, link, clock) {
        Some(parent) => meets(levels - 1, tree, new, link, marks, one, parent),
        None => false,
    }
}

/// Whether a clock has a parent to be given, above which no other marked clock stands, if the new
/// clock is registered with this link.
pub(crate) fn is_free<B: Bank>(
    tree: &Tree,
    bank: &B,
    new: ClockId,
    link: Option<ClockId>,
    marks: &[bool],
    clock: ClockId,
) -> bool
    requires place { clock.0 < length tree.now.defs }
    requires new { new.0 < length tree.now.defs }
    requires valid { IsValid (B.size bank.now) tree.now.defs }
    requires stands { IsTree tree.now.defs tree.now.clocks tree.now.order tree.now.rates }
    requires link { (regs : Registers) → B.contents bank.now ≡ Some regs
        → option_map (λ p. p.0) link ≡ link_given tree.now.defs regs tree.now.clocks new.0 }
    ensures { (regs : Registers) → B.contents bank.now ≡ Some regs
        → result ≡ is_free tree.now.defs regs (rows_with tree.now regs new.0) marks.now clock.0 }
{
    match link_beside(tree, bank, new, clock) {
        Some(parent) => !meets(depth(), tree, new, link, marks, clock, parent),
        None => false,
    }
}
