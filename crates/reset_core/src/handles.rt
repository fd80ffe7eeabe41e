//! The handles of all drivers, and for each line how many of which kind it has.

ghost use Rattle.std.specs.Prelude.{◌≡◌, ◌<◌, ◌≤◌, ◌+◌, ◌^◌, ◌-◌, [], ◌∷◌, ◌++◌, Some, None, IfOk, IfSome, length, slice_set, vec_capacity};
ghost use Rattle.reset_core.specs.Lines.{row_at, deasserts_on};
ghost use Rattle.reset_core.specs.Kept.{tally_of, weights_of, MayMove, MaySwap, Swapped};

use crate::record::HandleRecord;
use clk_io::NoMemory;
use std::alloc::Global;
use std::marker::Model;

/// How many shared handles a line has, how many others, how many are acquired, and all deasserts.
#[derive(Clone, Copy, Debug, PartialEq, Eq)]
pub(crate) struct Tally {
    pub shared: u32,
    pub others: u32,
    pub acquired: u32,
    pub deasserts: u32,
}

const NO_TALLY: Tally = Tally {
    shared: 0,
    others: 0,
    acquired: 0,
    deasserts: 0,
};

// The count with one part of it replaced.
fn moved(count: u32, less: u32, more: u32) -> u32
    requires { MayMove count less more }
    ensures { result + less ≡ count + more }
{
    count - less + more
}

// What a handle counts for its line.
fn weights_of(row: Option<HandleRecord>) -> Tally
    ensures { result ≡ weights_of row }
{
    match row {
        None => NO_TALLY,
        Some(row) => {
            let shared = row.is_shared();
            Tally {
                shared: u32::from(shared),
                others: u32::from(!shared),
                acquired: u32::from(row.acquired),
                deasserts: row.deasserts,
            }
        }
    }
}

// The tally with one handle replaced by another, or by none.
fn swapped(tally: Tally, old: Option<HandleRecord>, new: Option<HandleRecord>) -> Tally
    requires { MaySwap tally (weights_of old) (weights_of new) }
    ensures { Swapped tally (weights_of old) (weights_of new) result }
{
    let old = weights_of(old);
    let new = weights_of(new);
    Tally {
        shared: moved(tally.shared, old.shared, new.shared),
        others: moved(tally.others, old.others, new.others),
        acquired: moved(tally.acquired, old.acquired, new.acquired),
        deasserts: moved(tally.deasserts, old.deasserts, new.deasserts),
    }
}

/// The handles by number. Contracts see them as a `Held`.
#[derive(Drop)]
pub(crate) struct Handles {
    rows: Vec<Option<HandleRecord>>,
    // Of each line.
    tallies: Vec<Tally>,
}

impl Model for Handles {
    ghost use Rattle.std.specs.Prelude.{length, vec_capacity};
    ghost use Rattle.reset_core.specs.Kept.{Held, IsTallied};

    ghost Value = { Held };

    ghost view = { λ h. record { rows = h.rows.items; lines = length h.tallies.items; capacity = vec_capacity h.rows } };

    ghost invariant = { λ h. IsTallied h.tallies.items h.rows.items };
}

impl Handles {
    /// No handle, and memory for so many. The one error is that memory runs out.
    pub fn create(alloc: Global, lines: usize, room: usize) -> Result<Handles, NoMemory>
        ensures rows { IfOk result (λ h. h.rows ≡ []) }
        ensures lines { IfOk result (λ h. h.lines ≡ lines) }
        ensures room { IfOk result (λ h. room ≤ h.capacity) }
    {
        Ok(Handles {
            rows: Vec::with_capacity(alloc, room)?,
            tallies: vec![in alloc; NO_TALLY; lines]?,
        })
    }

    /// The handle of a number, if it is live.
    pub fn row(&self, number: u32) -> Option<HandleRecord>
        ensures row { result ≡ row_at self.now.rows number }
        ensures inside { IfSome result (λ r. r.line < self.now.lines) }
    {
        match self.rows.get(number as usize) {
            Some(row) => *row,
            None => None,
        }
    }

    pub fn tally(&self, line: u32) -> Tally
        requires { line < self.now.lines }
        ensures { result ≡ tally_of self.now.rows line }
    {
        self.tallies[line as usize]
    }

    /// How many handles were made.
    pub fn len(&self) -> usize
        ensures { result ≡ length self.now.rows }
    {
        self.rows.len()
    }

    /// One handle more.
    pub fn add(&mut self, row: HandleRecord)
        requires line { row.line < self.old.lines }
        requires room { length self.old.rows < self.old.capacity }
        requires few { length self.old.rows + 1 < 2 ^ 32 }
        requires sums { deasserts_on row.line self.old.rows + row.deasserts < 2 ^ 32 }
        ensures { self.new ≡ record self.old { rows = self.old.rows ++ Some row ∷ [] } }
    {
        let line = row.line as usize;
        self.tallies[line] = swapped(self.tallies[line], None, Some(row));
        self.rows.push_reserved(Some(row));
    }

    /// Replaces a live handle by another on the same line, or by none.
    pub fn set(&mut self, number: u32, old: HandleRecord, new: Option<HandleRecord>)
        requires live { row_at self.old.rows number ≡ Some old }
        requires line { IfSome new (λ r. r.line ≡ old.line) }
        requires sums { deasserts_on old.line self.old.rows - old.deasserts + (weights_of new).deasserts < 2 ^ 32 }
        ensures { self.new ≡ record self.old { rows = slice_set self.old.rows number new } }
    {
        let line = old.line as usize;
        self.tallies[line] = swapped(self.tallies[line], Some(old), new);
        self.rows[number as usize] = new;
    }
}
