//! The text that is printed.

use crate::reads::most_reads;
use crate::recording::{Access, Record};
use clk_base::{ClockId, Entry, ValidDesc};
use clk_io::{Gathered, PrintFault, StdOut};
use clk_journal::print_entry;
use std::alloc::Global;
use std::io::Stdout;

/// Text on its way to standard output.
#[derive(Drop)]
pub(crate) struct Page {
    alloc: Global,
    gathered: Gathered,
    out: StdOut,
}

impl Page {
    /// Nothing printed so far.
    pub(crate) fn new(alloc: Global, out: Stdout) -> Page {
        Page {
            alloc,
            gathered: Gathered::new(alloc),
            out: StdOut::new(out),
        }
    }

    /// The allocator.
    pub(crate) fn alloc(&self) -> Global {
        self.alloc
    }

    /// Prints a text.
    pub(crate) fn print(&mut self, text: &str) -> Result<(), PrintFault> {
        self.gathered.print(text.as_bytes(), &mut self.out)
    }

    /// Prints a line.
    pub(crate) fn print_line(&mut self, line: &str) -> Result<(), PrintFault> {
        self.print(line)?;
        self.print("\n")
    }

    /// Prints the line of an entry.
    pub(crate) fn print_entry(
        &mut self,
        desc: &ValidDesc,
        names: &[String],
        number: usize,
        entry: &Entry,
    ) -> Result<(), PrintFault> {
        let out = &mut self.out;
        print_entry(
            self.alloc,
            desc,
            names,
            number,
            entry,
            &mut self.gathered,
            out,
        )
    }

    // Prints the line of an access.
    fn print_access(&mut self, desc: &ValidDesc, access: Access) -> anyhow::Result<()> {
        let line = match access {
            Access::Write(word, value) => format!(in self.alloc; "  write {word} 0x{value:08x}")?,
            Access::Start(pll) => format!(in self.alloc; "  start {}", name_of(desc, pll))?,
            Access::Poll(pll, yes) => {
                let answer = if yes { "yes" } else { "no" };
                format!(in self.alloc; "  poll {} {answer}", name_of(desc, pll))?
            }
        };
        self.print_line(line.as_str())?;
        Ok(())
    }

    /// Prints what was recorded since the last entry: the accesses in their order, and whether there
    /// were more reads than so many.
    pub(crate) fn print_record(
        &mut self,
        desc: &ValidDesc,
        record: &Record,
        most: u32,
    ) -> anyhow::Result<()> {
        let (accesses, reads) = record.take()?;
        for access in accesses.as_slice() {
            self.print_access(desc, *access)?;
        }
        if reads > most {
            let line = format!(in self.alloc; "  reads more than {most}")?;
            self.print_line(line.as_str())?;
        } else if most > 0 {
            let line = format!(in self.alloc; "  reads at most {most}")?;
            self.print_line(line.as_str())?;
        }
        Ok(())
    }

    /// Writes what is left.
    pub(crate) fn finish(self) -> anyhow::Result<()> {
        let Page {
            alloc: _,
            gathered,
            out,
        } = self;
        let mut out = out;
        gathered.finish(&mut out)?;
        Ok(())
    }
}

// The name of a clock, empty where there is none.
fn name_of(desc: &ValidDesc, clock: u32) -> &str {
    if (clock as usize) < desc.len() {
        desc.def(ClockId(clock)).name.as_str()
    } else {
        ""
    }
}
