ghost use Rattle.std.specs.Prelude.{◌≡◌, ◌≤◌, is_some};
ghost use Rattle.clk_io.specs.Counts.{CountsFault};
ghost use Rattle.clk_io.specs.Prints.{Prints};

use crate::faults::WriteFault;
use crate::sinks::Sink;

/// Writes all of the bytes, or a front of them where a write fails.
pub fn write_all<K: Sink>(sink: &mut K, bytes: &[u8]) -> Result<(), WriteFault>
    ensures prints { Prints (K.written sink.old) (K.written sink.new) bytes.now result }
    ensures tells { is_some (K.written sink.new) ≡ is_some (K.written sink.old) }
    ensures later { K.faults sink.old ≤ K.faults sink.new }
    ensures counts { CountsFault (K.faults sink.old) (K.faults sink.new) result }
{
    let mut at = 0;
    while at < bytes.len() {
        at += sink.write(&bytes[at..])?;
    }
    Ok(())
}
