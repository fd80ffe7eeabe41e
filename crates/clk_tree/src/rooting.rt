//! Which clocks are rooted, by a flag that is kept for each.

ghost use Rattle.std.specs.Prelude.{◌≡◌, ℕ, ◌+◌, ◌<◌, ◌≤◌, true, false, List, length};
ghost use Rattle.clk_base.specs.Levels.{depth};
ghost use Rattle.clk_base.specs.Tables.{flag_at};
ghost use Rattle.clk_model.specs.Lists.{is_in};
ghost use Rattle.clk_model.specs.Walk.{below_within};
ghost use Rattle.clk_tree.specs.Refreshed.{AreKidRings};
ghost use Rattle.clk_tree.specs.Rooted.{rooted_over};

use crate::group::count_of;
use crate::kind::is_fixed;
use crate::ring::Ring;
use clk_base::{ClockId, ValidDesc, depth};

/// The flag of a clock.
pub(crate) fn flag_of(flags: &[bool], clock: ClockId) -> bool
    ensures { result ≡ flag_at flags.now clock.0 }
{
    match flags.get(clock.0 as usize) {
        Some(flag) => *flag,
        None => false,
    }
}

// Whether a clock is rooted once it is attached to this parent, or to none.
fn rooted_over(desc: &ValidDesc, flags: &[bool], clock: ClockId, parent: Option<ClockId>) -> bool
    ensures { result ≡ rooted_over desc.now.defs flags.now clock.0 parent }
{
    if is_fixed(desc, clock) {
        return true;
    }
    match parent {
        Some(parent) => flag_of(flags, parent),
        None => false,
    }
}

// Gives a clock and the clocks below it this flag, within so many levels. Other flags stay.
fn set_below(
    levels: u32,
    count: u32,
    siblings: &Ring,
    clock: ClockId,
    flag: bool,
    flags: &mut [bool],
)
    requires few { count ≤ 4096 }
    requires rings { length siblings.now ≡ count + count + 2 }
    requires place { clock.0 < count }
    requires size { length flags.old ≡ count }
    ensures size { length flags.new ≡ length flags.old }
    ensures below { (kids : ℕ → List ℕ) → AreKidRings count siblings.now kids
        → (k : ℕ) → is_in k (below_within kids levels clock.0) ≡ true → flag_at flags.new k ≡ flag }
    ensures others { (kids : ℕ → List ℕ) → AreKidRings count siblings.now kids
        → (k : ℕ) → is_in k (below_within kids levels clock.0) ≡ false → flag_at flags.new k ≡ flag_at flags.old k }
{
    if levels == 0 {
        return;
    }
    flags[clock.0 as usize] = flag;
    let mut at = siblings.after(count + clock.0);
    for _step in 0..count {
        if at >= count {
            return;
        }
        set_below(levels - 1, count, siblings, ClockId(at), flag, flags);
        at = siblings.after(at);
    }
}

/// Brings the flags up to date with a clock that was attached to this parent, or to none. Only
/// if it is rooted now and wasn't, or the other way round, it goes to the clocks below it.
pub(crate) fn update_flags(
    desc: &ValidDesc,
    siblings: &Ring,
    clock: ClockId,
    parent: Option<ClockId>,
    flags: &mut [bool],
)
    requires rings { length siblings.now ≡ length desc.now.defs + length desc.now.defs + 2 }
    requires place { clock.0 < length desc.now.defs }
    requires size { length flags.old ≡ length desc.now.defs }
    ensures size { length flags.new ≡ length flags.old }
    ensures below { (kids : ℕ → List ℕ) → AreKidRings (length desc.now.defs) siblings.now kids
        → ((k : ℕ) → is_in k (below_within kids depth clock.0) ≡ true → flag_at flags.old k ≡ flag_at flags.old clock.0)
        → (k : ℕ) → is_in k (below_within kids depth clock.0) ≡ true
        → flag_at flags.new k ≡ rooted_over desc.now.defs flags.old clock.0 parent }
    ensures others { (kids : ℕ → List ℕ) → AreKidRings (length desc.now.defs) siblings.now kids
        → (k : ℕ) → is_in k (below_within kids depth clock.0) ≡ false → flag_at flags.new k ≡ flag_at flags.old k }
{
    let flag = rooted_over(desc, flags, clock, parent);
    if flag == flag_of(flags, clock) {
        return;
    }
    set_below(depth(), count_of(desc), siblings, clock, flag, flags);
}
