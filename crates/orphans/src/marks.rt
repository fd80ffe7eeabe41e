//! Marks of clocks.

ghost use Rattle.std.specs.Prelude.{◌≡◌, ℕ, ◌<◌, true, map, length, All, IfOk};
ghost use Rattle.clk_base.specs.Tables.{flag_at};
ghost use Rattle.clk_model.specs.Lists.{is_in};

use clk_base::ClockId;
use clk_io::NoMemory;
use std::alloc::Global;

/// Whether a clock is marked.
pub(crate) fn is_marked(marks: &[bool], clock: ClockId) -> bool
    ensures { result ≡ flag_at marks.now clock.0 }
{
    match marks.get(clock.0 as usize) {
        Some(mark) => *mark,
        None => false,
    }
}

/// The marks of these among so many clocks.
pub(crate) fn marks_of(
    alloc: Global,
    count: usize,
    clocks: &[ClockId],
) -> Result<Vec<bool>, NoMemory>
    requires { All (λ c. c.0 < count) clocks.now }
    ensures size { IfOk result (λ marks. length marks.items ≡ count) }
    ensures marked { (x : ℕ) → IfOk result (λ marks. flag_at marks.items x ≡ is_in x (map (λ c. c.0) clocks.now)) }
{
    let mut marks = vec![in alloc; false; count]?;
    for clock in clocks {
        marks[clock.0 as usize] = true;
    }
    Ok(marks)
}
