//! The lines, their words and the handles, and what each call does to them.

ghost use Rattle.std.specs.Prelude.{◌≡◌, ◌<◌, ◌≤◌, ℕ, List, Option, Some, length, IfOk, IfSome, slice_index};
ghost use Rattle.reset_core.specs.Lines.{row_at, is_asserted};
ghost use Rattle.reset_core.specs.Turns.{own_row, on_handle, gets, puts, deasserts, asserts, pulses, asks, acquires, releases, turn, with_line, is_busy};
ghost use Rattle.reset_core.specs.Standing.{HasRoom, Makes, ArePlaced, at_start};
ghost use Rattle.reset_core.specs.Kept.{tally_of};

use crate::call::{ResetCall, ResetKind, ResetLine};
use crate::handles::{Handles, Tally};
use crate::record::HandleRecord;
use crate::words::Words;
use clk_base::{Errno, Handle, Reply};
use clk_io::NoMemory;
use std::alloc::Global;
use std::marker::Model;

/// What the calls change. Contracts see it as a `Standing`.
#[derive(Drop)]
pub(crate) struct Controller {
    lines: Vec<ResetLine>,
    words: Words,
    handles: Handles,
}

impl Model for Controller {
    ghost use Rattle.std.specs.Prelude.{◌≡◌, length};
    ghost use Rattle.reset_core.specs.Standing.{Standing, ArePlaced};

    ghost Value = { Standing };

    ghost view = { λ c. record { state = record { lines = c.lines.items; handles = c.handles.rows; regs = c.words }; capacity = c.handles.capacity } };

    ghost invariant = { λ c. ArePlaced (length c.words) c.lines.items × (c.handles.lines ≡ length c.lines.items) };
}

// Whether the handles of a line leave no room for one of this kind.
fn is_busy(tally: Tally, kind: ResetKind) -> bool
    ensures { (handles : List (Option HandleRecord)) (l : ℕ) → tally ≡ tally_of handles l → result ≡ is_busy handles l kind }
{
    match kind {
        ResetKind::Shared => tally.others > 0,
        ResetKind::Released => tally.shared > 0,
        ResetKind::Exclusive => tally.shared > 0 || tally.others > 0,
    }
}

impl Controller {
    // Whether a line is asserted.
    fn is_asserted(&self, line: u32) -> bool
        requires { line < length self.now.state.lines }
        ensures { result ≡ is_asserted self.now.state line }
    {
        let ResetLine { word, bit } = self.lines[line as usize];
        self.words.bit(word, bit)
    }

    // Asserts a line, or deasserts it.
    fn put_line(&mut self, line: u32, value: bool)
        requires { line < length self.old.state.lines }
        ensures { self.new ≡ record self.old { state = with_line self.old.state line value } }
    {
        let ResetLine { word, bit } = self.lines[line as usize];
        self.words.put(word, bit, value);
    }

    // The handle of a number, if it is a live one of this driver.
    fn own_row(&self, driver: u32, number: u32) -> Option<HandleRecord>
        ensures row { result ≡ own_row self.now.state driver number }
        ensures live { IfSome result (λ r. row_at self.now.state.handles number ≡ Some r) }
        ensures inside { IfSome result (λ r. r.line < length self.now.state.lines) }
    {
        match self.handles.row(number) {
            Some(row) if row.driver == driver => Some(row),
            _ => None,
        }
    }

    fn get(&mut self, driver: u32, line: Option<u32>, kind: ResetKind) -> Reply
        requires { HasRoom self.old }
        ensures { Makes (gets self.old.state driver line kind) self.old self.new result }
    {
        let Some(line) = line else {
            return Reply::Refused(Errno::ENOENT);
        };
        if line as usize >= self.lines.len() {
            return Reply::Refused(Errno::ENOENT);
        }
        if is_busy(self.handles.tally(line), kind) {
            return Reply::Refused(Errno::EBUSY);
        }
        let number = self.handles.len() as u32;
        self.handles.add(HandleRecord {
            driver,
            line,
            kind,
            deasserts: 0,
            acquired: kind == ResetKind::Exclusive,
        });
        Reply::Handle(Handle {
            number,
            slot: 0,
            driver,
        })
    }

    fn put(&mut self, driver: u32, number: u32) -> Reply
        requires { HasRoom self.old }
        ensures { Makes (on_handle self.old.state driver number puts) self.old self.new result }
    {
        let Some(row) = self.own_row(driver, number) else {
            return Reply::Refused(Errno::ENOENT);
        };
        if row.deasserts > 0 {
            return Reply::Refused(Errno::EBUSY);
        }
        self.handles.set(number, row, None);
        Reply::Fine
    }

    fn asserted(&self, driver: u32, number: u32) -> Reply
        ensures { Makes (on_handle self.now.state driver number asks) self.now self.now result }
    {
        let Some(row) = self.own_row(driver, number) else {
            return Reply::Refused(Errno::ENOENT);
        };
        if self.is_asserted(row.line) {
            Reply::Yes
        } else {
            Reply::No
        }
    }

    fn deassert(&mut self, driver: u32, number: u32) -> Reply
        requires { HasRoom self.old }
        ensures { Makes (on_handle self.old.state driver number deasserts) self.old self.new result }
    {
        let Some(row) = self.own_row(driver, number) else {
            return Reply::Refused(Errno::ENOENT);
        };
        if row.is_shared() {
            let more = HandleRecord {
                deasserts: row.deasserts + 1,
                ..row
            };
            self.handles.set(number, row, Some(more));
        } else if !row.acquired {
            return Reply::Refused(Errno::EPERM);
        }
        self.put_line(row.line, false);
        Reply::Fine
    }

    fn assert(&mut self, driver: u32, number: u32) -> Reply
        requires { HasRoom self.old }
        ensures { Makes (on_handle self.old.state driver number asserts) self.old self.new result }
    {
        let Some(row) = self.own_row(driver, number) else {
            return Reply::Refused(Errno::ENOENT);
        };
        if row.is_shared() {
            if row.deasserts == 0 {
                return Reply::Warn;
            }
            let less = HandleRecord {
                deasserts: row.deasserts - 1,
                ..row
            };
            self.handles.set(number, row, Some(less));
            if self.handles.tally(row.line).deasserts > 0 {
                return Reply::Fine;
            }
        } else if !row.acquired {
            return Reply::Refused(Errno::EPERM);
        }
        self.put_line(row.line, true);
        Reply::Fine
    }

    fn pulse(&mut self, driver: u32, number: u32) -> Reply
        ensures { Makes (on_handle self.old.state driver number pulses) self.old self.new result }
    {
        let Some(row) = self.own_row(driver, number) else {
            return Reply::Refused(Errno::ENOENT);
        };
        if row.is_shared() {
            return Reply::Refused(Errno::EINVAL);
        }
        if !row.acquired {
            return Reply::Refused(Errno::EPERM);
        }
        self.put_line(row.line, true);
        self.put_line(row.line, false);
        Reply::Fine
    }

    fn acquire(&mut self, driver: u32, number: u32) -> Reply
        requires { HasRoom self.old }
        ensures { Makes (on_handle self.old.state driver number acquires) self.old self.new result }
    {
        let Some(row) = self.own_row(driver, number) else {
            return Reply::Refused(Errno::ENOENT);
        };
        if row.is_shared() {
            return Reply::Refused(Errno::EINVAL);
        }
        if row.acquired {
            return Reply::Fine;
        }
        if self.handles.tally(row.line).acquired > 0 {
            return Reply::Refused(Errno::EBUSY);
        }
        let acquired = HandleRecord {
            acquired: true,
            ..row
        };
        self.handles.set(number, row, Some(acquired));
        Reply::Fine
    }

    fn release(&mut self, driver: u32, number: u32) -> Reply
        requires { HasRoom self.old }
        ensures { Makes (on_handle self.old.state driver number releases) self.old self.new result }
    {
        let Some(row) = self.own_row(driver, number) else {
            return Reply::Refused(Errno::ENOENT);
        };
        if row.is_shared() {
            return Reply::Refused(Errno::EINVAL);
        }
        if !row.acquired {
            return Reply::Warn;
        }
        let released = HandleRecord {
            acquired: false,
            ..row
        };
        self.handles.set(number, row, Some(released));
        Reply::Fine
    }

    /// Makes a call of a driver.
    pub fn call(&mut self, driver: u32, what: ResetCall) -> Reply
        requires { HasRoom self.old }
        ensures { Makes (turn self.old.state driver what) self.old self.new result }
    {
        match what {
            ResetCall::Get(line, kind) => self.get(driver, line, kind),
            ResetCall::Put(number) => self.put(driver, number),
            ResetCall::Deassert(number) => self.deassert(driver, number),
            ResetCall::Assert(number) => self.assert(driver, number),
            ResetCall::Pulse(number) => self.pulse(driver, number),
            ResetCall::Asserted(number) => self.asserted(driver, number),
            ResetCall::Acquire(number) => self.acquire(driver, number),
            ResetCall::Release(number) => self.release(driver, number),
        }
    }

    /// All lines asserted, no handle, and memory for so many. The one error is that memory runs out.
    pub fn create(
        alloc: Global,
        words: usize,
        lines: &[ResetLine],
        room: usize,
    ) -> Result<Controller, NoMemory>
        requires { ArePlaced words lines.now }
        ensures state { IfOk result (λ c. c.state ≡ at_start words lines.now) }
        ensures room { IfOk result (λ c. room ≤ c.capacity) }
    {
        let mut bits = Words::create(alloc, words)?;
        for line in lines {
            bits.put(line.word, line.bit, true);
        }
        Ok(Controller {
            lines: Vec::from_slice(alloc, lines)?,
            words: bits,
            handles: Handles::create(alloc, lines.len(), room)?,
        })
    }

    pub fn word(&self, word: usize) -> u32
        requires { word < length self.now.state.regs }
        ensures { result ≡ slice_index self.now.state.regs word }
    {
        self.words.word(word)
    }
}
