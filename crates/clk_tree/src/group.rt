//! The clocks that stand together in a tree: roots, orphans, and the children of a clock.

ghost use Rattle.std.specs.Prelude.{◌≡◌, ℕ, ◌+◌, ◌<◌, ◌≤◌, true, List, if◌then◌else◌, nat_lt, length, slice_get};
ghost use Rattle.std.specs.Result.{MatchResult};
ghost use Rattle.clk_base.specs.Valid.{IsValid};
ghost use Rattle.clk_model.specs.Lists.{is_in};
ghost use Rattle.clk_tree.specs.Groups.{group_of, end_of, IsGroup};
ghost use Rattle.clk_tree.specs.Rings.{Leads};

use crate::kind::is_fixed;
use crate::ring::Ring;
use clk_base::{ClockId, ValidDesc};

/// Clocks that stand together.
#[derive(Clone, Copy)]
pub(crate) enum Group {
    Roots,
    Orphans,
    ChildrenOf(ClockId),
}

/// How many clocks a description has.
pub(crate) fn count_of(desc: &ValidDesc) -> u32
    ensures count { result ≡ length desc.now.defs }
    ensures few { result ≤ 4096 }
    ensures valid { IsValid desc.now.words desc.now.defs }
{
    desc.len() as u32
}

/// The group of a clock that is attached to this parent, or to none.
pub(crate) fn group_of(desc: &ValidDesc, clock: ClockId, parent: Option<ClockId>) -> Group
    ensures { result ≡ group_of desc.now.defs clock.0 parent }
{
    match parent {
        Some(parent) => Group::ChildrenOf(parent),
        None => {
            if is_fixed(desc, clock) {
                Group::Roots
            } else {
                Group::Orphans
            }
        }
    }
}

/// The number that stands for the end of a group, beside so many clocks.
pub(crate) fn end_of(count: u32, group: Group) -> u32
    requires few { count ≤ 4096 }
    requires one { IsGroup count group }
    ensures { result ≡ end_of count group }
{
    match group {
        Group::ChildrenOf(parent) => count + parent.0,
        Group::Roots => count + count,
        Group::Orphans => count + count + 1,
    }
}

/// The clock of this number, if it is one of so many clocks and no end.
pub(crate) fn as_clock(count: u32, number: u32) -> Option<ClockId>
    ensures { result ≡ (if nat_lt number count then Some (record { 0 = number }) else None) }
{
    if number < count {
        Some(ClockId(number))
    } else {
        None
    }
}

/// The k-th clock, from 0, of a group by its end, of so many clocks. Where the group has fewer, how
/// many are left to go behind it.
pub(crate) fn nth_behind(siblings: &Ring, count: u32, end: u32, k: usize) -> Result<ClockId, usize>
    requires { end < length siblings.now }
    ensures { (xs : List ℕ) → ((x : ℕ) → is_in x xs ≡ true → x < count) → count ≤ end → Leads siblings.now end end xs
        → MatchResult result (λ c. slice_get xs k ≡ Some c.0) (λ left. k ≡ length xs + left) }
{
    let mut at = siblings.after(end);
    for step in 0..k {
        if at >= count {
            return Err(k - step);
        }
        at = siblings.after(at);
    }
    if at < count { Ok(ClockId(at)) } else { Err(0) }
}
