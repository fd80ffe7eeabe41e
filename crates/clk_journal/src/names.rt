//! The names of clocks and drivers.

ghost use Rattle.std.specs.Prelude.{◌≡◌, [], map, slice_index_or, string_bytes};
ghost use Rattle.clk_base.specs.Description.{name_of};
ghost use Rattle.clk_model.specs.Text.{clock_word};

use clk_base::{ClockId, ValidDesc};

/// A clock's name, which is empty outside of the description.
pub(crate) fn name_of(desc: &ValidDesc, clock: ClockId) -> &str
    ensures { result.now ≡ name_of desc.now.defs clock.0 }
{
    if (clock.0 as usize) < desc.len() {
        return desc.def(clock).name.as_str();
    }
    ""
}

/// A clock's name, or a dash where there is no clock.
pub(crate) fn clock_word(desc: &ValidDesc, clock: Option<ClockId>) -> &str
    ensures { result.now ≡ clock_word desc.now.defs clock }
{
    match clock {
        Some(clock) => name_of(desc, clock),
        None => "-",
    }
}

/// A driver's name, which is empty behind the last one.
pub(crate) fn driver_name(names: &[String], driver: u32) -> &str
    ensures { result.now ≡ slice_index_or (map string_bytes names.now) driver [] }
{
    match names.get(driver as usize) {
        Some(name) => name.as_str(),
        None => "",
    }
}
