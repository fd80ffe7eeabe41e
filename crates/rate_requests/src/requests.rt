//! The handles of all drivers.

ghost use Rattle.std.specs.Prelude.{◌≡◌, ℕ, ◌<◌, [], ◌∷◌, ◌++◌, Some, None, not, length, slice_set, IsSome, IfOk, OnOk, OnErr};
ghost use Rattle.clk_model.specs.State.{handle_at};

use crate::held::{Held, row_of, take_row, write_row};
use crate::span::{
    Span, bounds_of, bounds_with, drop_span, fits_beside, no_spans, push_span, reserve_span,
    set_span, spans_on,
};
use clk_base::{ClockId, Handle, ValidDesc};
use clk_io::NoMemory;
use clk_model::HandleRow;
use slab::Slab;
use std::alloc::Global;
use std::marker::Model;

/// The handles of the clocks of a description.
///
/// To contracts they are a `HandleTable`: a list by number, with nothing where a handle was put
/// back, the number of clocks, and the clock for a handle of which a place is made. No call but
/// `create`, `make_place` and `add` takes memory.
#[derive(Drop)]
pub struct Requests {
    /// By number, the slot where the record of each handle was put. Once a handle was put back, its
    /// slot may have the record of another.
    places: Vec<usize>,
    records: Slab<Held>,
    /// For each clock the ranges of its live handles, by rising number.
    spans: Vec<Vec<Span>>,
    /// The clock for a handle of which there is a place.
    place: Option<ClockId>,
}

impl Model for Requests {
    ghost use Rattle.std.specs.Prelude.{length};
    ghost use Rattle.std.specs.Option.{option_map};
    ghost use Rattle.rate_requests.specs.Handles.{HandleTable};

    ghost Value = { HandleTable };

    ghost use Rattle.rate_requests.specs.Records.{handles_of};
    ghost use Rattle.rate_requests.specs.Kept.{AreKept};

    ghost view = { λ r. record { clocks = length r.spans.items; handles = handles_of r.records.slots r.places.items; place = option_map (λ c. c.0) r.place } };

    ghost invariant = { λ r. AreKept r.places r.records r.spans.items r.place };
}

impl Requests {
    ghost use Rattle.rate_requests.specs.Handles.{HandleTable, new_row, has_handle, low_in, high_in, misses_in, with_range_at, with_counts_at};

    /// No handle of any clock of the description. Want of memory is its one refusal.
    pub fn create(alloc: Global, desc: &ValidDesc) -> Result<Requests, NoMemory>
        ensures clocks { IfOk result (λ made. made.clocks ≡ length desc.now.defs) }
        ensures handles { IfOk result (λ made. made.handles ≡ []) }
        ensures place { IfOk result (λ made. made.place ≡ None) }
    {
        Ok(Requests {
            places: Vec::new(alloc),
            records: Slab::new(alloc),
            spans: no_spans(alloc, desc.len())?,
            place: None,
        })
    }

    /// A new handle of a driver on a clock, which allows every rate. It has the next number. Want
    /// of memory is its one refusal.
    pub fn add(&mut self, driver: u32, clock: ClockId) -> Result<Handle, NoMemory>
        requires place { clock.0 < self.old.clocks }
        requires numbers { length self.old.handles < 4294967295 }
        ensures number { IfOk result (λ h. h.number ≡ length self.old.handles) }
        ensures driver { IfOk result (λ h. h.driver ≡ driver) }
        ensures handles { OnOk result (self.new.handles ≡ self.old.handles ++ Some (new_row driver clock) ∷ []) }
        ensures err { OnErr result (self.new ≡ self.old) }
        ensures clocks { self.new.clocks ≡ self.old.clocks }
    {
        self.make_place(clock)?;
        Ok(self.add_placed(driver, clock))
    }

    /// Makes a place for a handle of a clock more, in the stead of one for a handle of another clock.
    /// Want of memory is its one refusal.
    pub fn make_place(&mut self, clock: ClockId) -> Result<(), NoMemory>
        requires { clock.0 < self.old.clocks }
        ensures ok { OnOk result (self.new ≡ record self.old { place = Some clock.0 }) }
        ensures err { OnErr result (self.new ≡ self.old) }
    {
        self.places.reserve(1)?;
        self.records.reserve(1)?;
        reserve_span(&mut self.spans, clock)?;
        self.place = Some(clock);
        Ok(())
    }

    /// A new handle of a driver on the clock for which there is a place, as `add` makes it. It takes no
    /// memory.
    pub fn add_placed(&mut self, driver: u32, clock: ClockId) -> Handle
        requires place { self.old.place ≡ Some clock.0 }
        requires numbers { length self.old.handles < 4294967295 }
        ensures number { result.number ≡ length self.old.handles }
        ensures driver { result.driver ≡ driver }
        ensures handles { self.new.handles ≡ self.old.handles ++ Some (new_row driver clock) ∷ [] }
        ensures clocks { self.new.clocks ≡ self.old.clocks }
        ensures used { self.new.place ≡ None }
    {
        let number = self.places.len() as u32;
        let row = HandleRow {
            driver,
            clock,
            prepares: 0,
            enables: 0,
            exclusives: 0,
            min: 0,
            max: u64::MAX,
        };
        let span = Span {
            number,
            min: 0,
            max: u64::MAX,
        };
        self.place = None;
        push_span(&mut self.spans, clock, span);
        let slot = self.records.insert_reserved(Held { number, row });
        self.places.push_reserved(slot);
        Handle {
            number,
            slot: slot.min(u32::MAX as usize) as u32,
            driver,
        }
    }

    /// Whether a handle is a live one of this driver.
    pub fn live(&self, driver: u32, h: Handle) -> bool
        ensures { result ≡ has_handle self.now.handles driver h.number }
    {
        match row_of(&self.places, &self.records, h.number) {
            Some(row) => row.driver == driver,
            None => false,
        }
    }

    /// What is known of a live handle.
    pub fn of(&self, h: Handle) -> HandleRow
        requires { IsSome (handle_at self.now.handles h.number) }
        ensures { handle_at self.now.handles h.number ≡ Some result }
    {
        match row_of(&self.places, &self.records, h.number) {
            Some(row) => row,
            None => unreachable!(),
        }
    }

    /// The greatest minimum and the least maximum in Hz over the handles of a clock, 0 and
    /// 18446744073709551615 without handles.
    pub fn boundaries(&self, c: ClockId) -> (u64, u64)
        ensures low { result.0 ≡ low_in self.now.handles c.0 }
        ensures high { result.1 ≡ high_in self.now.handles c.0 }
    {
        bounds_of(spans_on(&self.spans, c))
    }

    /// The greatest minimum and the least maximum in Hz over the handles of a clock, if a live handle had
    /// another range.
    pub fn boundaries_with(&self, c: ClockId, h: Handle, least: u64, most: u64) -> (u64, u64)
        ensures low { result.0 ≡ low_in (with_range_at self.now.handles h.number least most) c.0 }
        ensures high { result.1 ≡ high_in (with_range_at self.now.handles h.number least most) c.0 }
    {
        bounds_with(spans_on(&self.spans, c), h.number, least, most)
    }

    /// Whether a range in Hz isn't empty and misses that of no other live handle of the clock.
    pub fn fits(&self, h: Handle, min: u64, max: u64) -> bool
        requires { IsSome (handle_at self.now.handles h.number) }
        ensures { (row : HandleRow) → handle_at self.now.handles h.number ≡ Some row → result ≡ not (misses_in self.now.handles h.number row.clock.0 min max) }
    {
        let clock = self.of(h).clock;
        fits_beside(spans_on(&self.spans, clock), h.number, min, max)
    }

    /// Gives a live handle another range in Hz.
    pub fn set_range(&mut self, h: Handle, min: u64, max: u64)
        requires { IsSome (handle_at self.old.handles h.number) }
        ensures range { self.new.handles ≡ with_range_at self.old.handles h.number min max }
        ensures clocks { self.new.clocks ≡ self.old.clocks }
        ensures place { self.new.place ≡ self.old.place }
    {
        let row = HandleRow {
            min,
            max,
            ..self.of(h)
        };
        write_row(&self.places, &mut self.records, h.number, row);
        set_span(&mut self.spans, row.clock, h.number, min, max);
    }

    /// Gives a live handle other counts.
    pub fn set_counts(&mut self, h: Handle, prepares: u32, enables: u32, exclusives: u32)
        requires { IsSome (handle_at self.old.handles h.number) }
        ensures counts { self.new.handles ≡ with_counts_at self.old.handles h.number prepares enables exclusives }
        ensures clocks { self.new.clocks ≡ self.old.clocks }
        ensures place { self.new.place ≡ self.old.place }
    {
        let row = HandleRow {
            prepares,
            enables,
            exclusives,
            ..self.of(h)
        };
        write_row(&self.places, &mut self.records, h.number, row);
    }

    /// Takes out a live handle. Its number isn't used again.
    pub fn remove(&mut self, h: Handle)
        requires { IsSome (handle_at self.old.handles h.number) }
        ensures handles { self.new.handles ≡ slice_set self.old.handles h.number None }
        ensures clocks { self.new.clocks ≡ self.old.clocks }
        ensures place { self.new.place ≡ self.old.place }
    {
        let clock = self.of(h).clock;
        take_row(&self.places, &mut self.records, h.number);
        drop_span(&mut self.spans, clock, h.number);
    }
}
