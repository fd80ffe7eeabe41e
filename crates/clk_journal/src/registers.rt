//! Prints the words of a register bank.

ghost use Rattle.std.specs.Prelude.{◌≡◌, ◌≤◌, ◌==◌, Some, [], if◌then◌else◌, is_some, IfErr};
ghost use Rattle.clk_io.specs.Counts.{CountsPrintFault};
ghost use Rattle.clk_io.specs.Gathers.{Gathers, StaysGathered};
ghost use Rattle.clk_model.specs.Text.{hex_digits, register_line, registers_text};

use clk_io::{Gathered, PrintFault, Sink};
use std::alloc::Global;
use std::fmt;

/// Prints a line for each word that isn't 0, as `reg W 0xXXXXXXXX`: W is the word's place, from 0.
pub fn print_registers<K: Sink>(
    alloc: Global,
    words: &[u32],
    gathered: &mut Gathered,
    out: &mut K,
) -> Result<(), PrintFault>
    ensures gathers { Gathers (K.written out.old) (K.written out.new) gathered.old gathered.new
        (registers_text words.now) result }
    ensures stays { IfErr result (StaysGathered (K.written out.old) (K.written out.new) gathered.old gathered.new
        (registers_text words.now)) }
    ensures tells { is_some (K.written out.new) ≡ is_some (K.written out.old) }
    ensures later { K.faults out.old ≤ K.faults out.new }
    ensures counts { CountsPrintFault (K.faults out.old) (K.faults out.new) result }
{
    for (place, value) in words.iter().enumerate() {
        print_word(alloc, place, *value, gathered, out)?;
    }
    Ok(())
}

// The value of a word, printed as eight hexadecimal digits.
#[derive(Drop)]
struct HexWord(u32);

impl fmt::Display for HexWord {
    ghost output = { λ word. Some (hex_digits 8 word.0) };

    #[tactic(auto, using(crate::proofs::Hexadecimal::hex_word))]
    fn fmt<W: fmt::Write>(&self, f: &mut fmt::Formatter<W>) -> fmt::Result {
        let value = self.0;
        write!(f, "{value:08x}")
    }
}

// Prints the line of a word that isn't 0, and nothing of one that is.
fn print_word<K: Sink>(
    alloc: Global,
    place: usize,
    value: u32,
    gathered: &mut Gathered,
    out: &mut K,
) -> Result<(), PrintFault>
    ensures gathers { Gathers (K.written out.old) (K.written out.new) gathered.old gathered.new
        (if value == 0 then [] else register_line place value) result }
    ensures stays { IfErr result (StaysGathered (K.written out.old) (K.written out.new) gathered.old gathered.new
        (if value == 0 then [] else register_line place value)) }
    ensures tells { is_some (K.written out.new) ≡ is_some (K.written out.old) }
    ensures later { K.faults out.old ≤ K.faults out.new }
    ensures counts { CountsPrintFault (K.faults out.old) (K.faults out.new) result }
{
    if value == 0 {
        return Ok(());
    }
    print_register(alloc, place, value, gathered, out)
}

// Prints the line of the word at this place.
fn print_register<K: Sink>(
    alloc: Global,
    place: usize,
    value: u32,
    gathered: &mut Gathered,
    out: &mut K,
) -> Result<(), PrintFault>
    ensures gathers { Gathers (K.written out.old) (K.written out.new) gathered.old gathered.new
        (register_line place value) result }
    ensures stays { IfErr result (StaysGathered (K.written out.old) (K.written out.new) gathered.old gathered.new
        (register_line place value)) }
    ensures tells { is_some (K.written out.new) ≡ is_some (K.written out.old) }
    ensures later { K.faults out.old ≤ K.faults out.new }
    ensures counts { CountsPrintFault (K.faults out.old) (K.faults out.new) result }
{
    let value = HexWord(value);
    let line = format!(in alloc; "reg {place} 0x{value}\n")?;
    gathered.print(line.as_bytes(), out)
}
