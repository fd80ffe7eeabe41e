//! The order of adoptions.

ghost use Rattle.std.specs.Prelude.{◌≡◌, ◌<◌, ◌≤◌, Some, true, false, map, length, All, IfOk};
ghost use Rattle.clk_base.specs.Valid.{IsValid};
ghost use Rattle.clk_model.specs.State.{State, registered};
ghost use Rattle.orphans.specs.Beside.{adopted_order};

use crate::link::read_link;
use crate::marks::marks_of;
use crate::waiting::{first_free, waiting};
use clk_base::{ClockId, ValidDesc};
use clk_io::NoMemory;
use clk_tree::Tree;
use reg_bank::Bank;
use std::alloc::Global;

/// The orphans that are adopted when a new clock is registered, in the order of their adoption: the
/// next is always the newest attached of those left above whose new parent none of the others
/// stands. Its one refusal is that memory runs out.
pub fn adoptable_in<B: Bank>(
    alloc: Global,
    tree: &Tree,
    bank: &B,
    new: ClockId,
) -> Result<Vec<ClockId>, NoMemory>
    requires place { new.0 < length tree.now.defs }
    requires valid { IsValid (B.size bank.now) tree.now.defs }
    requires free { registered tree.now.clocks new.0 ≡ false }
    ensures order { (s : State) → s.defs ≡ tree.now.defs → s.clocks ≡ tree.now.clocks → s.order ≡ tree.now.order
        → B.contents bank.now ≡ Some s.regs → IfOk result (λ list. map (λ c. c.0) list.items ≡ adopted_order s new.0) }
    ensures there { IfOk result (λ list. All (λ c. registered tree.now.clocks c.0 ≡ true) list.items) }
{
    let link = read_link(tree, bank, new);
    let mut left = waiting(alloc, tree, bank, new)?;
    let mut marks = marks_of(alloc, tree.len(), &left)?;
    let mut order = Vec::new(alloc);
    for turn in 0..left.len() {
        match first_free(tree, bank, new, link, &marks, &left) {
            None => return Ok(order),
            Some(place) => {
                let clock = left.remove(place);
                marks[clock.0 as usize] = false;
                order.push(clock)?;
            }
        }
    }
    Ok(order)
}

/// Answers what `adoptable_in` answers, of a description equal to the tree's own.
pub fn adoptable<B: Bank>(
    alloc: Global,
    desc: &ValidDesc,
    tree: &Tree,
    bank: &B,
    new: ClockId,
) -> Result<Vec<ClockId>, NoMemory>
    requires place { new.0 < length desc.now.defs }
    requires made { tree.now.defs ≡ desc.now.defs }
    requires bank { desc.now.words ≤ B.size bank.now }
    requires free { registered tree.now.clocks new.0 ≡ false }
    ensures order { (s : State) → s.defs ≡ desc.now.defs → s.clocks ≡ tree.now.clocks → s.order ≡ tree.now.order
        → B.contents bank.now ≡ Some s.regs → IfOk result (λ list. map (λ c. c.0) list.items ≡ adopted_order s new.0) }
    ensures there { IfOk result (λ list. All (λ c. registered tree.now.clocks c.0 ≡ true) list.items) }
{
    let _size = desc.len();
    adoptable_in(alloc, tree, bank, new)
}
