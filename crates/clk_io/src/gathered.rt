//! Text on its way to a sink, in pieces.

ghost use Rattle.std.specs.Prelude.{◌≡◌, ◌+◌, ◌<◌, ◌≤◌, ◌++◌, [], Err, OnOk, length, is_some};
ghost use Rattle.clk_io.specs.Counts.{CountsFault, CountsPrintFault};
ghost use Rattle.clk_io.specs.Gathers.{Gathers, short_of_piece};
ghost use Rattle.clk_io.specs.Prints.{Prints};

use crate::faults::{PrintFault, WriteFault};
use crate::sinks::Sink;
use crate::writing::write_all;
use std::alloc::Global;
use std::marker::Model;

/// How many bytes are gathered before a sink is called; the last piece of a text may be shorter.
pub const PIECE_BYTES: usize = 4096;

/// Text that was printed and isn't written yet.
///
/// Printers hand their lines to one of these, and it calls the sink for a piece at a time, however
/// short the lines are. What was printed to it is written when it is finished; one that is let go
/// before loses what it has gathered. To contracts it is the bytes that it has gathered.
#[derive(Drop)]
pub struct Gathered {
    bytes: Vec<u8>,
}

impl Model for Gathered {
    ghost use Rattle.std.specs.Prelude.{ℕ, List};

    ghost Value = { List ℕ };

    ghost view = { λ g. g.bytes.items };
}

impl Gathered {
    /// Nothing gathered so far. Takes no memory.
    pub fn new(alloc: Global) -> Gathered
        ensures { result ≡ [] }
    {
        Gathered {
            bytes: Vec::new(alloc),
        }
    }

    /// Gathers a text behind what is there, and writes all of it once it is a piece.
    pub fn print<K: Sink>(&mut self, text: &[u8], out: &mut K) -> Result<(), PrintFault>
        // After Ok what was written and what is gathered now are together what was gathered before,
        // with the text behind it; after a fault a front of these was written.
        ensures gathers { Gathers (K.written out.old) (K.written out.new) self.old self.new text.now result }

        // The sink isn't called before a piece has been gathered.
        ensures waits { length self.old + length text.now < PIECE_BYTES → out.new ≡ out.old }
        ensures few { OnOk result (length self.new < PIECE_BYTES) }

        // Whatever the sink tells, less than a piece stays gathered whole, and a piece is written whole.
        ensures stays { OnOk result (self.new ≡ short_of_piece PIECE_BYTES (self.old ++ text.now)) }

        // Without memory nothing is written and what was gathered stays; after a write that failed
        // it is lost.
        ensures memory { result ≡ Err PrintFault.NoMemory → (out.new ≡ out.old) × (self.new ≡ self.old) }
        ensures lost { result ≡ Err PrintFault.Write → self.new ≡ [] }

        ensures tells { is_some (K.written out.new) ≡ is_some (K.written out.old) }
        ensures later { K.faults out.old ≤ K.faults out.new }
        ensures counts { CountsPrintFault (K.faults out.old) (K.faults out.new) result }
    {
        self.bytes.extend_from_slice(text)?;
        if self.bytes.len() < PIECE_BYTES {
            return Ok(());
        }
        let written = write_all(out, self.bytes.as_slice());
        self.bytes.clear();
        Ok(written?)
    }

    /// Writes what is gathered, or a front of it where a write fails.
    pub fn finish<K: Sink>(self, out: &mut K) -> Result<(), WriteFault>
        ensures prints { Prints (K.written out.old) (K.written out.new) self result }
        ensures tells { is_some (K.written out.new) ≡ is_some (K.written out.old) }
        ensures later { K.faults out.old ≤ K.faults out.new }
        ensures counts { CountsFault (K.faults out.old) (K.faults out.new) result }
    {
        write_all(out, self.bytes.as_slice())
    }
}
