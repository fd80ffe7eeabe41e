//! The records of live handles.

ghost use Rattle.std.specs.Prelude.{◌≡◌, Some, None, IsSome, slice_set};
ghost use Rattle.slab.specs.Slab.{get, HasRoomFor};
ghost use Rattle.clk_model.specs.State.{handle_at};
ghost use Rattle.rate_requests.specs.Records.{row_in, handles_of};

use clk_model::HandleRow;
use slab::Slab;

/// The record of a live handle.
#[derive(Clone, Copy, Debug, PartialEq, Eq)]
pub(crate) struct Held {
    pub number: u32,
    pub row: HandleRow,
}

// The row in a slot, if its record has this number.
fn row_in_slot(records: &Slab<Held>, slot: usize, number: u32) -> Option<HandleRow>
    ensures { result ≡ row_in number (get records.now slot) }
{
    match records.get(slot) {
        Some(held) if held.number == number => Some(held.row),
        _ => None,
    }
}

/// The row of the handle of a number, if it is live.
pub(crate) fn row_of(places: &[usize], records: &Slab<Held>, number: u32) -> Option<HandleRow>
    ensures { result ≡ handle_at (handles_of records.now.slots places.now) number }
{
    match places.get(number as usize) {
        Some(slot) => row_in_slot(records, *slot, number),
        None => None,
    }
}

/// Gives a live handle another row.
pub(crate) fn write_row(places: &[usize], records: &mut Slab<Held>, number: u32, row: HandleRow)
    requires { IsSome (handle_at (handles_of records.old.slots places.now) number) }
    ensures row { handles_of records.new.slots places.now ≡ slice_set (handles_of records.old.slots places.now) number (Some row) }
    ensures room { HasRoomFor records.old 1 → HasRoomFor records.new 1 }
{
    records[places[number as usize]] = Held { number, row };
}

/// Takes out the record of a live handle.
pub(crate) fn take_row(places: &[usize], records: &mut Slab<Held>, number: u32)
    requires { IsSome (handle_at (handles_of records.old.slots places.now) number) }
    ensures gone { handles_of records.new.slots places.now ≡ slice_set (handles_of records.old.slots places.now) number None }
    ensures room { HasRoomFor records.new 1 }
{
    records.remove(places[number as usize]);
}
