//! What planning sees of the clocks.

ghost use Rattle.std.specs.Prelude.{◌≡◌, length};
ghost use Rattle.rate_requests.specs.Handles.{low_in, high_in};
ghost use Rattle.core_parts.specs.Seen.{handles_seen, seen};

use clk_base::{ClockId, Handle};
use clk_tree::View;
use counts_core::Counts;
use rate_requests::Requests;

/// A range in Hz that a handle is to have.
#[derive(Clone, Copy, Debug, PartialEq, Eq)]
pub struct OtherRange {
    pub handle: Handle,
    pub least: u64,
    pub most: u64,
}

/// The boundaries that handles set to each clock, of which one may be to have another range, and whether
/// the counts say that it is guarded and prepared.
#[derive(Drop)]
pub struct Seen<'a> {
    pub handles: &'a Requests,
    pub ranged: Option<OtherRange>,
    pub counts: &'a Counts,
}

// The boundaries of a clock in Hz, if one of the handles had another range.
fn bounds_seen(handles: &Requests, ranged: Option<OtherRange>, c: ClockId) -> (u64, u64)
    ensures low { result.0 ≡ low_in (handles_seen ranged handles.now.handles) c.0 }
    ensures high { result.1 ≡ high_in (handles_seen ranged handles.now.handles) c.0 }
{
    match ranged {
        Some(other) => handles.boundaries_with(c, other.handle, other.least, other.most),
        None => handles.boundaries(c),
    }
}

impl<'a> View for Seen<'a> {
    ghost size = { λ v. length v.counts.now.links };

    ghost means = { λ v. seen (handles_seen v.ranged v.handles.now.handles) v.counts.now };

    fn bounds(&self, c: ClockId) -> (u64, u64) {
        bounds_seen(self.handles, self.ranged, c)
    }

    fn guarded(&self, c: ClockId) -> bool {
        self.counts.protected(c) > 0
    }

    fn prepared(&self, c: ClockId) -> bool {
        self.counts.prepared(c) > 0
    }
}
