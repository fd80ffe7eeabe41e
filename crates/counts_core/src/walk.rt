//! Going up from a clock while its count leaves or reaches 0.

ghost use Rattle.std.specs.Prelude.{◌≡◌, ℕ, ◌+◌, ◌<◌, ◌≤◌, Some, length, slice_index};
ghost use Rattle.counts_core.specs.Sums.{up_in, kids, one, OneMore, Begins};

use clk_base::ClockId;

/// Counts one holder of a clock more, and one more above whenever a count leaves 0. Tells how many
/// clocks began to count: the first so many of the clock's path.
pub(crate) fn raise(links: &[Option<ClockId>], counts: &mut [u32], clock: ClockId) -> usize
    requires few { length links.now ≤ 4096 }
    requires size { length links.now ≡ length counts.old }
    requires place { clock.0 < length links.now }
    requires inside { (d p : ℕ) → up_in links.now d ≡ Some p → p < length links.now }
    requires room { (d : ℕ) → slice_index counts.old d ≤ 1073741824 }
    ensures more { OneMore links.now counts.old counts.new clock.0 }
    ensures begins { Begins links.now counts.old counts.new clock.0 result }
{
    let mut at = clock;
    let mut begun = 0;
    loop {
        let count = counts[at.0 as usize];
        counts[at.0 as usize] = count + 1;
        if count > 0 {
            return begun;
        }
        begun += 1;
        match links[at.0 as usize] {
            Some(parent) => at = parent,
            None => return begun,
        }
    }
}

/// Counts one holder of a clock less, and one less above whenever a count reaches 0. Tells how many
/// clocks no longer count: the first so many of the clock's path.
pub(crate) fn lower(links: &[Option<ClockId>], counts: &mut [u32], clock: ClockId) -> usize
    requires few { length links.now ≤ 4096 }
    requires size { length links.now ≡ length counts.old }
    requires place { clock.0 < length links.now }
    requires inside { (d p : ℕ) → up_in links.now d ≡ Some p → p < length links.now }
    requires held { (d : ℕ) → kids links.now counts.old d + one clock.0 d ≤ slice_index counts.old d }
    ensures less { OneMore links.now counts.new counts.old clock.0 }
    ensures stops { Begins links.now counts.new counts.old clock.0 result }
{
    let mut at = clock;
    let mut stopped = 0;
    loop {
        let count = counts[at.0 as usize] - 1;
        counts[at.0 as usize] = count;
        if count > 0 {
            return stopped;
        }
        stopped += 1;
        match links[at.0 as usize] {
            Some(parent) => at = parent,
            None => return stopped,
        }
    }
}
