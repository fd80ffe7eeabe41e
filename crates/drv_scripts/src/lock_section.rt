//! The section of locks.

ghost use Rattle.std.specs.Prelude.{◌≡◌, ◌-◌, ◌<◌, ◌≤◌, length};
ghost use Rattle.bundle_text.specs.Words.{texts};
ghost use Rattle.drv_scripts.specs.Judged.{Reads, ReadsLine};
ghost use Rattle.drv_scripts.specs.ListLines.{as_pll, pll_named, lock_said, lock_line, lock_fault, lock_at, locks_of};

use crate::bundle::LockLine;
use crate::judged::judged;
use crate::stop::Stop;
use bundle_text::{Reason, TextLines, small_number_within};
use clk_base::{ClockId, Kind, ValidDesc};
use clk_io::push_some;
use std::alloc::Global;

// The clock, if it is a PLL.
#[tactic(auto, unfolding(crate::specs::ListLines::as_pll))]
fn as_pll(desc: &ValidDesc, clock: ClockId) -> Option<ClockId>
    requires { clock.0 < length desc.now.defs }
    ensures { result ≡ as_pll desc.now.defs clock }
{
    match desc.def(clock).kind {
        Kind::Pll { .. } => Some(clock),
        _ => None,
    }
}

// The PLL of a name, if there is one.
#[tactic(auto, unfolding(crate::specs::ListLines::pll_named))]
fn pll_named(desc: &ValidDesc, name: &str) -> Option<ClockId>
    ensures { result ≡ pll_named desc.now.defs name.now }
{
    let clock = desc.find(name)?;
    as_pll(desc, clock)
}

// A lock, where its polls are a number and its clock a PLL.
#[tactic(auto, unfolding(crate::specs::ListLines::lock_said))]
fn lock_said(clock: Option<ClockId>, polls: Option<u32>) -> Result<LockLine, Reason>
    ensures { result ≡ lock_said clock polls }
{
    match (clock, polls) {
        (_, None) => Err(Reason::BadNumber),
        (None, Some(_)) => Err(Reason::UnknownName),
        (Some(clock), Some(polls)) => Ok(LockLine { clock, polls }),
    }
}

// What the words of a line `NAME D` say.
#[tactic(auto, unfolding(crate::specs::ListLines::lock_line))]
fn lock_line(desc: &ValidDesc, words: &[&str]) -> Result<LockLine, Reason>
    ensures { result ≡ lock_line desc.now.defs (texts words.now) }
{
    match words {
        [name, polls] => lock_said(pll_named(desc, name), small_number_within(1, 1000, polls)),
        _ => Err(Reason::BadWords),
    }
}

// The lock that the line at a place states.
#[tactic(auto, unfolding(crate::specs::ListLines::lock_fault, crate::specs::ListLines::lock_at))]
fn read_lock(
    alloc: Global,
    lines: &TextLines,
    desc: &ValidDesc,
    at: usize,
) -> Result<Option<LockLine>, Stop>
    ensures { ReadsLine (lock_fault desc.now.defs lines.now at) at (λ found. found ≡ lock_at desc.now.defs lines.now at) result }
{
    let words = lines.said_words(alloc, at)?;
    let said = lock_line(desc, &words);
    judged(&words, at, said)
}

/// The locks that the lines from one place up to another state, in their order.
pub(crate) fn read_locks(
    alloc: Global,
    lines: &TextLines,
    desc: &ValidDesc,
    from: usize,
    to: usize,
) -> Result<Vec<LockLine>, Stop>
    requires { from ≤ to }
    ensures { Reads (lock_fault desc.now.defs lines.now) from to (λ locks. locks.items ≡ locks_of desc.now.defs lines.now from (to - from)) result }
{
    let mut locks = Vec::new(alloc);
    for at in from..to {
        let lock = read_lock(alloc, lines, desc, at)?;
        push_some(&mut locks, lock)?;
    }
    Ok(locks)
}
