//! The rule on the number of clocks and of their possible parents.

ghost use Rattle.std.specs.Prelude.{ℕ, ◌<◌, ◌^◌, length};
ghost use Rattle.clk_base.specs.Description.{FindsFirst};
ghost use Rattle.clk_base.specs.Valid.{keeps_counts};

use crate::clock::{ClockDef, ClockId};

const MOST_CLOCKS: usize = 4096;

const MOST_PARENTS: usize = 64;

/// The first clock behind the greatest number of clocks, or with too many possible parents.
pub(super) fn first_uncounted(defs: &[ClockDef]) -> Option<ClockId>
    requires { length defs.now < 2 ^ 32 }
    ensures { (words : ℕ) → FindsFirst defs.now (keeps_counts words defs.now) result }
{
    for (i, def) in defs.iter().enumerate() {
        if i >= MOST_CLOCKS || def.parents.as_slice().len() > MOST_PARENTS {
            return Some(ClockId(i as u32));
        }
    }
    None
}
