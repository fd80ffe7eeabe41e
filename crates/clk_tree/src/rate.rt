//! The rate of a clock of a tree over its parent's.

ghost use Rattle.std.specs.Prelude.{◌≡◌, IfSome};
ghost use Rattle.clk_base.specs.Description.{kind_of};
ghost use Rattle.clk_base.specs.Valid.{IsValid};
ghost use Rattle.clk_model.specs.Rate.{rate_over};

use crate::kind::rate_over;
use crate::tree::Tree;
use clk_base::ClockId;
use reg_bank::Bank;

/// The rate in Hz of a clock of the tree over this rate of its parent, by the registers. A place
/// outside of the description counts as a fixed clock of 0 Hz.
#[inline(always)]
pub fn rate_of<B: Bank>(tree: &Tree, clock: ClockId, bank: &B, parent: u64) -> u64
    requires valid { IsValid (B.size bank.now) tree.now.defs }
    ensures { IfSome (B.contents bank.now) (λ regs. result ≡ rate_over (kind_of tree.now.defs clock.0) regs parent) }
{
    rate_over(tree.desc(), clock, bank, parent)
}
