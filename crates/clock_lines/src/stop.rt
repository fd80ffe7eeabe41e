//! Why the words of a line were not taken.

ghost use Rattle.std.specs.Prelude.{◌≡◌};
ghost use Rattle.clock_lines.specs.declared.stop.LineStop.TheVariants as stops;

use bundle_text::Reason;
use clk_io::NoMemory;

/// Why the words of a line were not taken.
#[derive(Drop)]
pub(crate) enum LineStop {
    /// This is wrong with them.
    Wrong(Reason),
    /// Memory ran out.
    NoMemory,
}

impl From<NoMemory> for LineStop {
    ghost from_gives = { λ _ e. e ≡ stops.NoMemory };

    fn from(_none: NoMemory) -> LineStop {
        LineStop::NoMemory
    }
}
