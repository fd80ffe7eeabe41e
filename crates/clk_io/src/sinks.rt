ghost use Rattle.std.specs.Prelude.{◌≡◌, ◌<◌, ◌≤◌, ℕ, List, Option, length, is_some, IfOk};
ghost use Rattle.std.specs.Io.{WritesAtMost};
ghost use Rattle.std.specs.Io.KnownBytes.{WriteAppends};
ghost use Rattle.clk_io.specs.Counts.{CountsFault};

use crate::faults::Failed;

/// Where bytes go.
pub trait Sink {
    /// The bytes that were written, where the sink tells them.
    ghost written: { Self → Option (List ℕ) };

    /// How many faults it has had, up to 18446744073709551615.
    ghost faults: { Self → ℕ };

    /// Takes bytes from the front of `bytes`, one at least, and answers how many.
    fn write(&mut self, bytes: &[u8]) -> Result<usize, Failed>
        requires { 0 < length bytes.now }
        ensures bound { WritesAtMost result bytes.now }
        ensures some { IfOk result (λ n. 0 < n) }

        // A failed write appends nothing.
        ensures bytes { WriteAppends (written self.old) (written self.new) result bytes.now }
        ensures tells { is_some (written self.new) ≡ is_some (written self.old) }

        // The count of faults never falls, and a write fails only if it rose. It may rise at a success too, as
        // where a fault was met and overcome.
        ensures later { faults self.old ≤ faults self.new }
        ensures counts { CountsFault (faults self.old) (faults self.new) result };
}
