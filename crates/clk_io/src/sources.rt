ghost use Rattle.std.specs.Prelude.{◌≡◌, ◌<◌, ◌≤◌, ℕ, List, Option, length, is_some};
ghost use Rattle.std.specs.Io.{ReadsAtMost};
ghost use Rattle.std.specs.Io.KnownBytes.{ReadConsumes};
ghost use Rattle.clk_io.specs.Counts.{CountsFault};

use crate::faults::Failed;

/// Where bytes come from.
pub trait Source {
    /// The bytes that are left to read, where the source tells them.
    ghost left: { Self → Option (List ℕ) };

    /// How many faults it has had, up to 18446744073709551615.
    ghost faults: { Self → ℕ };

    /// Puts the next bytes at the front of `into` and answers how many; 0 is the end.
    fn read(&mut self, into: &mut [u8]) -> Result<usize, Failed>
        requires { 0 < length into.old }
        ensures bound { ReadsAtMost result into.new }

        // A failed read takes nothing.
        ensures bytes { ReadConsumes (left self.old) (left self.new) result into.new }
        ensures tells { is_some (left self.new) ≡ is_some (left self.old) }

        // The count of faults never falls, and a read fails only if it rose. It may rise at a success too, as
        // where a fault was met and overcome.
        ensures later { faults self.old ≤ faults self.new }
        ensures counts { CountsFault (faults self.old) (faults self.new) result };
}
