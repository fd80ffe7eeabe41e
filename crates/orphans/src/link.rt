//! The parent that a registration gives.

ghost use Rattle.std.specs.Prelude.{◌≡◌, ◌<◌, ◌≤◌, true, Some, length, slice_get, option_and_then, IfSome};
ghost use Rattle.std.specs.Option.{option_map};
ghost use Rattle.clk_base.specs.Description.{parents_of};
ghost use Rattle.clk_base.specs.Valid.{IsValid};
ghost use Rattle.reg_bank.specs.Registers.{Registers};
ghost use Rattle.clk_model.specs.Lists.{is_in};
ghost use Rattle.clk_model.specs.State.{registered};
ghost use Rattle.clk_model.specs.Tree.{selected, if_registered, link_given};

use clk_base::{ClockId, Kind, ValidDesc};
use clk_tree::Tree;
use reg_bank::{Bank, read_field};

// The possible parent of a clock at a place.
fn parent_at(desc: &ValidDesc, clock: ClockId, place: u32) -> Option<ClockId>
    requires { clock.0 < length desc.now.defs }
    ensures { option_map (λ p. p.0) result ≡ slice_get (parents_of desc.now.defs clock.0) place }
{
    desc.def(clock)
        .parents
        .as_slice()
        .get(place as usize)
        .copied()
}

/// The parent that the registers select: of a mux the one at the place in its field, of another
/// clock its one possible parent.
pub(crate) fn selected<B: Bank>(desc: &ValidDesc, bank: &B, clock: ClockId) -> Option<ClockId>
    requires place { clock.0 < length desc.now.defs }
    requires valid { IsValid (B.size bank.now) desc.now.defs }
    ensures selected { (regs : Registers) → B.contents bank.now ≡ Some regs
        → option_map (λ p. p.0) result ≡ selected desc.now.defs regs clock.0 }
    ensures possible { IfSome result (λ p. is_in p.0 (parents_of desc.now.defs clock.0) ≡ true) }
{
    let place = match desc.def(clock).kind {
        Kind::Mux {
            word,
            shift,
            width,
            ..
        } => read_field(bank, word as usize, shift, width),
        _ => 0,
    };
    parent_at(desc, clock, place)
}

// The parent that was selected, if it is registered.
fn if_there(tree: &Tree, selected: Option<ClockId>) -> Option<ClockId>
    ensures link { option_map (λ p. p.0) result ≡ option_and_then (if_registered tree.now.clocks) (option_map (λ p. p.0) selected) }
    ensures same { IfSome result (λ p. selected ≡ Some p) }
    ensures there { IfSome result (λ p. registered tree.now.clocks p.0 ≡ true) }
{
    let parent = selected?;
    if tree.registered(parent) {
        Some(parent)
    } else {
        None
    }
}

/// The parent that a registration of the clock would link: the one that the registers select, if
/// it is registered.
pub fn read_link<B: Bank>(tree: &Tree, bank: &B, c: ClockId) -> Option<ClockId>
    requires place { c.0 < length tree.now.defs }
    requires valid { IsValid (B.size bank.now) tree.now.defs }
    ensures link { (regs : Registers) → B.contents bank.now ≡ Some regs
        → option_map (λ p. p.0) result ≡ link_given tree.now.defs regs tree.now.clocks c.0 }
    ensures possible { IfSome result (λ p. is_in p.0 (parents_of tree.now.defs c.0) ≡ true) }
    ensures there { IfSome result (λ p. registered tree.now.clocks p.0 ≡ true) }
{
    if_there(tree, selected(tree.desc(), bank, c))
}

/// Reads what `read_link` reads, by this description.
pub fn link_of<B: Bank>(desc: &ValidDesc, tree: &Tree, bank: &B, c: ClockId) -> Option<ClockId>
    requires place { c.0 < length desc.now.defs }
    requires bank { desc.now.words ≤ B.size bank.now }
    ensures link { (regs : Registers) → B.contents bank.now ≡ Some regs
        → option_map (λ p. p.0) result ≡ link_given desc.now.defs regs tree.now.clocks c.0 }
    ensures possible { IfSome result (λ p. is_in p.0 (parents_of desc.now.defs c.0) ≡ true) }
    ensures there { IfSome result (λ p. registered tree.now.clocks p.0 ≡ true) }
{
    let _size = desc.len();
    if_there(tree, selected(desc, bank, c))
}
