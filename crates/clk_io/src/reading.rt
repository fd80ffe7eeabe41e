ghost use Rattle.std.specs.Prelude.{◌≡◌, ◌≤◌, is_some, IfOk, Err};
ghost use Rattle.clk_io.specs.Counts.{CountsReadFault};
ghost use Rattle.clk_io.specs.Streams.{TakesAll, TakesMore, TakesSome};

use crate::faults::ReadFault;
use crate::sources::Source;
use std::alloc::Global;

/// The most bytes that `read_all` gives.
pub const MOST_BYTES: usize = 16_777_216;

/// How many bytes one read may give.
const BUFFER_BYTES: usize = 4096;

/// Reads a source to its end.
///
/// A source with more than `MOST_BYTES` bytes is `TooLong`, unless a read fails before; then the
/// bytes that were taken are lost. So are they after each other fault.
pub fn read_all<S: Source>(alloc: Global, source: &mut S) -> Result<Vec<u8>, ReadFault>
    ensures ok { IfOk result (λ v. TakesAll MOST_BYTES (S.left source.old) (S.left source.new) v.items) }

    // `TooLong` comes exactly where more than the limit was taken.
    ensures too_long { result ≡ Err ReadFault.TooLong → TakesMore MOST_BYTES (S.left source.old) (S.left source.new) }
    ensures other_read { result ≡ Err ReadFault.Read → TakesSome MOST_BYTES (S.left source.old) (S.left source.new) }
    ensures other_memory { result ≡ Err ReadFault.NoMemory → TakesSome MOST_BYTES (S.left source.old) (S.left source.new) }

    ensures tells { is_some (S.left source.new) ≡ is_some (S.left source.old) }
    ensures later { S.faults source.old ≤ S.faults source.new }
    ensures counts { CountsReadFault (S.faults source.old) (S.faults source.new) result }
{
    let mut bytes = Vec::new(alloc);
    let mut buffer = [0u8; BUFFER_BYTES];
    loop {
        let count = source.read(&mut buffer)?;
        if count == 0 {
            return Ok(bytes);
        }
        if count > MOST_BYTES - bytes.len() {
            return Err(ReadFault::TooLong);
        }
        bytes.extend_from_slice(&buffer[..count])?;
    }
}
