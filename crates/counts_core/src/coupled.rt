//! Walks over the prepare counts: a clock that protects its rate while it is prepared is protected
//! as often as it is prepared.

ghost use Rattle.std.specs.Prelude.{◌≡◌, ℕ, ◌+◌, ◌<◌, ◌≤◌, Some, length, slice_index, IsTrue, if◌then◌else◌};
ghost use Rattle.counts_core.specs.Sums.{up_in, kids, one, AreSums, OneMore, Begins, Grows, gated_part};

use crate::tally::Tally;
use clk_base::ClockId;

// One protection of a clock more, if it is gated.
fn add_if(gated: bool, protects: &mut Tally, links: &[Option<ClockId>], clock: ClockId)
    requires few { length links.now ≤ 4096 }
    requires place { clock.0 < length links.now }
    requires inside { (d p : ℕ) → up_in links.now d ≡ Some p → p < length links.now }
    requires sums { AreSums links.now protects.old.own.items protects.old.counts.items }
    requires room { (d : ℕ) → slice_index protects.old.own.items d ≤ 536870912 }
    ensures sums { AreSums links.now protects.new.own.items protects.new.counts.items }
    ensures own { (d : ℕ) → slice_index protects.new.own.items d
        ≡ slice_index protects.old.own.items d + (if gated then one clock.0 d else 0) }
{
    if gated {
        protects.add(links, clock);
    }
}

// One protection of a clock less, if it is gated.
fn take_if(gated: bool, protects: &mut Tally, links: &[Option<ClockId>], clock: ClockId)
    requires few { length links.now ≤ 4096 }
    requires place { clock.0 < length links.now }
    requires inside { (d p : ℕ) → up_in links.now d ≡ Some p → p < length links.now }
    requires sums { AreSums links.now protects.old.own.items protects.old.counts.items }
    requires held { IsTrue gated → 0 < slice_index protects.old.own.items clock.0 }
    ensures sums { AreSums links.now protects.new.own.items protects.new.counts.items }
    ensures own { (d : ℕ) → slice_index protects.new.own.items d + (if gated then one clock.0 d else 0)
        ≡ slice_index protects.old.own.items d }
{
    if gated {
        protects.take(links, clock);
    }
}

/// Counts one prepare holder of a clock more, and one more above whenever a count leaves 0. Tells
/// how many clocks began to count: the first so many of the clock's path.
pub(crate) fn hold_up(
    links: &[Option<ClockId>],
    gated: &[bool],
    prepares: &mut [u32],
    protects: &mut Tally,
    clock: ClockId,
) -> usize
    requires few { length links.now ≤ 4096 }
    requires size { length links.now ≡ length prepares.old }
    requires flags { length gated.now ≡ length links.now }
    requires place { clock.0 < length links.now }
    requires inside { (d p : ℕ) → up_in links.now d ≡ Some p → p < length links.now }
    requires room { (d : ℕ) → slice_index prepares.old d ≤ 268435456 }
    requires small { (d : ℕ) → slice_index protects.old.own.items d ≤ 268435456 }
    requires sums { AreSums links.now protects.old.own.items protects.old.counts.items }
    ensures more { OneMore links.now prepares.old prepares.new clock.0 }
    ensures begins { Begins links.now prepares.old prepares.new clock.0 result }
    ensures sums { AreSums links.now protects.new.own.items protects.new.counts.items }
    ensures coupled { Grows gated.now protects.old.own.items prepares.old protects.new.own.items prepares.new }
{
    let mut at = clock;
    let mut begun = 0;
    loop {
        let count = prepares[at.0 as usize];
        prepares[at.0 as usize] = count + 1;
        add_if(gated[at.0 as usize], protects, links, at);
        if count > 0 {
            return begun;
        }
        begun += 1;
        match links[at.0 as usize] {
            Some(parent) => at = parent,
            None => return begun,
        }
    }
}

/// Counts one prepare holder of a clock less, and one less above whenever a count reaches 0. Tells
/// how many clocks no longer count: the first so many of the clock's path.
pub(crate) fn release_up(
    links: &[Option<ClockId>],
    gated: &[bool],
    prepares: &mut [u32],
    protects: &mut Tally,
    clock: ClockId,
) -> usize
    requires few { length links.now ≤ 4096 }
    requires size { length links.now ≡ length prepares.old }
    requires flags { length gated.now ≡ length links.now }
    requires place { clock.0 < length links.now }
    requires inside { (d p : ℕ) → up_in links.now d ≡ Some p → p < length links.now }
    requires held { (d : ℕ) → kids links.now prepares.old d + one clock.0 d ≤ slice_index prepares.old d }
    requires gated { (d : ℕ) → gated_part gated.now prepares.old d ≤ slice_index protects.old.own.items d }
    requires sums { AreSums links.now protects.old.own.items protects.old.counts.items }
    ensures less { OneMore links.now prepares.new prepares.old clock.0 }
    ensures stops { Begins links.now prepares.new prepares.old clock.0 result }
    ensures sums { AreSums links.now protects.new.own.items protects.new.counts.items }
    ensures coupled { Grows gated.now protects.old.own.items prepares.old protects.new.own.items prepares.new }
{
    let mut at = clock;
    let mut stopped = 0;
    loop {
        let count = prepares[at.0 as usize] - 1;
        prepares[at.0 as usize] = count;
        take_if(gated[at.0 as usize], protects, links, at);
        if count > 0 {
            return stopped;
        }
        stopped += 1;
        match links[at.0 as usize] {
            Some(parent) => at = parent,
            None => return stopped,
        }
    }
}
