//! Descriptions and trees of clocks that clock lines say, and banks.

ghost use Rattle.std.specs.Prelude.{◌≡◌, ◌<◌, ◌≤◌, length, IfOk};
ghost use Rattle.clk_base.specs.Description.{parents_of};
ghost use Rattle.clk_model.specs.Lists.{is_in};

use bundle_text::TextLines;
use clk_base::{ClockId, ValidDesc};
use clk_tree::Tree;
use clock_lines::read_clocks;
use reg_bank::{Bank, MemBank};
use std::alloc::Global;
use std::process::Abort;
use std::test::Fail;

/// The description of these clock lines of version 2, over so many words of registers.
pub(crate) fn described(
    rt: &impl Abort,
    alloc: Global,
    text: &str,
    words: u32,
) -> Result<ValidDesc, Fail>
    ensures { IfOk result (λ desc. desc.words ≡ words) }
{
    let lines = TextLines::new(alloc, text.as_bytes())?;
    assert!(rt; lines.len() <= 100);
    let list = read_clocks(alloc, &lines, 0, lines.len(), 2)?;
    Ok(list.desc.check(alloc, words)?)
}

/// Whether a clock is a possible parent of another.
pub(crate) fn is_possible(desc: &ValidDesc, c: ClockId, p: ClockId) -> bool
    requires { c.0 < length desc.now.defs }
    ensures { result ≡ is_in p.0 (parents_of desc.now.defs c.0) }
{
    for parent in desc.def(c).parents.as_slice() {
        if parent.0 == p.0 {
            return true;
        }
    }
    false
}

/// Registers these clocks in this order, each with a parent or with none, over the rates of a bank.
pub(crate) fn attach_all<B: Bank>(
    rt: &impl Abort,
    tree: &mut Tree,
    desc: &ValidDesc,
    bank: &B,
    links: &[(u32, Option<u32>)],
)
    requires made { desc.now.defs ≡ tree.old.defs }
    requires bank { desc.now.words ≤ B.size bank.now }
    ensures { tree.new.defs ≡ tree.old.defs }
{
    for (clock, link) in links {
        let c = ClockId(*clock);
        assert!(rt; (*clock as usize) < desc.len());
        if let Some(parent) = link {
            assert!(rt; tree.registered(ClockId(*parent)));
            assert!(rt; is_possible(desc, c, ClockId(*parent)));
        }
        tree.attach(c, link.map(|parent| ClockId(parent)));
        tree.refresh(desc, bank, c);
    }
}

/// A bank whose first words are these.
pub(crate) fn bank_of(alloc: Global, words: [u32; 3]) -> Result<MemBank, Fail>
    ensures { IfOk result (λ bank. 3 ≤ length bank.words) }
{
    let mut bank = MemBank::new(alloc)?;
    bank.write(0, words[0]);
    bank.write(1, words[1]);
    bank.write(2, words[2]);
    Ok(bank)
}
