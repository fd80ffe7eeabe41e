ghost use Rattle.std.specs.Prelude.{◌≡◌, ◌≢◌, ◌<◌, ◌≤◌, length, is_some, IfErr, MatchResult};
ghost use Rattle.std.specs.Io.{ReadsAtMost};
ghost use Rattle.std.specs.IoError.{error_kind};
ghost use Rattle.std.specs.Io.KnownBytes.{ReadConsumes};
ghost use Rattle.clk_io.specs.Counts.{counted, CountsFault};
ghost use Rattle.clk_io.specs.Streams.{untold};

use crate::faults::Failed;
use crate::sources::Source;
use std::io::{self, ErrorKind, Read, Stdin};

/// Standard input as a source; `new` takes the runtime's `stdin()`.
pub type StdIn = ReaderSource<Stdin>;

/// A source over a reader. It tells nothing of its bytes, but hands on what the reader gives.
#[derive(Drop)]
pub struct ReaderSource<R: Read + Drop> {
    reader: R,
    faults: u64,
}

impl<R: Read + Drop> ReaderSource<R> {
    /// A source that has had no fault.
    pub fn new(reader: R) -> ReaderSource<R>
        ensures reader { result.reader ≡ reader }
        ensures faults { result.faults ≡ 0 }
    {
        ReaderSource { reader, faults: 0 }
    }

    /// How many faults it has had.
    pub fn faults(&self) -> u64
        ensures { result ≡ self.now.faults }
    {
        self.faults
    }
}

// Reads once, and again where a signal came between.
fn read_again<R: Read>(reader: &mut R, into: &mut [u8]) -> io::Result<usize>
    ensures bound { ReadsAtMost result into.new }
    ensures bytes { ReadConsumes (R.remaining reader.old) (R.remaining reader.new) result into.new }
    ensures again { IfErr result (λ fault. error_kind fault ≢ ErrorKind.Interrupted) }
{
    for _ in 0..u64::MAX {
        match reader.read(into) {
            Ok(count) => return Ok(count),
            Err(fault) => {
                if fault.kind() != ErrorKind::Interrupted {
                    return Err(fault);
                }
            }
        }
    }
    Err(ErrorKind::TimedOut.into())
}

impl<R: Read + Drop> Source for ReaderSource<R> {
    ghost left = { λ _. untold };

    ghost faults = { λ s. s.faults };

    fn read(&mut self, into: &mut [u8]) -> Result<usize, Failed>
        requires { 0 < length into.old }
        ensures bound { ReadsAtMost result into.new }
        ensures bytes { ReadConsumes untold untold result into.new }
        ensures tells { is_some untold ≡ is_some untold }
        ensures later { self.old.faults ≤ self.new.faults }
        ensures counts { CountsFault self.old.faults self.new.faults result }

        // It counts each failure, and nothing else.
        ensures each { MatchResult result (λ _. self.new.faults ≡ self.old.faults) (λ _. self.new.faults ≡ counted self.old.faults) }

        // It gives the bytes that the reader loses, and 0 only where the reader is at its end.
        ensures passes { ReadConsumes (R.remaining self.old.reader) (R.remaining self.new.reader) result into.new }
    {
        match read_again(&mut self.reader, into) {
            Ok(count) => Ok(count),
            Err(_) => {
                self.faults = self.faults.saturating_add(1);
                Err(Failed)
            }
        }
    }
}
