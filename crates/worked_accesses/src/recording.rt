//! A bank that records what is asked of it.

use clk_io::NoMemory;
use reg_bank::{Bank, MemBank};
use std::alloc::Global;
use std::cell::{Cell, RefCell};

/// What changes the bank or the lock of a PLL.
#[derive(Clone, Copy)]
pub(crate) enum Access {
    /// A word gets a value.
    Write(usize, u32),
    /// The lock of a PLL is started.
    Start(u32),
    /// The lock of a PLL is polled, and answers so.
    Poll(u32, bool),
}

/// What was asked of a bank since it was last told.
#[derive(Drop)]
pub(crate) struct Record {
    alloc: Global,
    accesses: RefCell<Vec<Access>>,
    reads: Cell<u32>,
    whole: Cell<bool>,
}

impl Record {
    /// Nothing so far.
    pub(crate) fn new(alloc: Global) -> Record {
        Record {
            alloc,
            accesses: RefCell::new(Vec::new(alloc)),
            reads: Cell::new(0),
            whole: Cell::new(true),
        }
    }

    // Records an access. Where memory runs out, the record isn't whole any more.
    fn note(&self, access: Access) {
        let kept = match self.accesses.try_borrow_mut() {
            Ok(mut accesses) => accesses.push(access).is_ok(),
            Err(_) => false,
        };
        if !kept {
            self.whole.set(false);
        }
    }

    // Records a read.
    fn note_read(&self) {
        self.reads.set(self.reads.get().saturating_add(1));
    }

    /// What was asked since the last call: the accesses in their order, and how many reads there were.
    pub(crate) fn take(&self) -> Result<(Vec<Access>, u32), NoMemory> {
        let taken = self.accesses.try_replace(Vec::new(self.alloc));
        match taken {
            Ok(accesses) if self.whole.get() => Ok((accesses, self.reads.replace(0))),
            _ => Err(NoMemory),
        }
    }
}

/// A bank in memory that records what is asked of it. It tells contracts nothing.
#[derive(Drop)]
pub(crate) struct Recording<'r> {
    bank: MemBank,
    record: &'r Record,
}

impl<'r> Recording<'r> {
    /// The bank over this one.
    pub(crate) fn new(bank: MemBank, record: &'r Record) -> Recording<'r> {
        Recording { bank, record }
    }
}

impl Bank for Recording<'_> {
    ghost use Rattle.std.specs.Prelude.{None, length};

    ghost size = { λ recording. length recording.bank.words };

    ghost contents = { λ _. None };

    ghost lock = { λ _ _. None };

    fn words(&self) -> usize {
        self.bank.words()
    }

    fn read(&self, word: usize) -> u32 {
        self.record.note_read();
        self.bank.read(word)
    }

    fn write(&mut self, word: usize, value: u32) {
        self.record.note(Access::Write(word, value));
        self.bank.write(word, value);
    }

    fn arm(&mut self, pll: u32, polls: u32) {
        self.bank.arm(pll, polls);
    }

    fn start(&mut self, pll: u32) {
        self.record.note(Access::Start(pll));
        self.bank.start(pll);
    }

    fn locked(&mut self, pll: u32) -> bool {
        let yes = self.bank.locked(pll);
        self.record.note(Access::Poll(pll, yes));
        yes
    }

    ghost sized = { λ _. tt };

    ghost whole = { λ _. tt };
}
