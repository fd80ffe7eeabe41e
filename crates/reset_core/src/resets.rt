//! A reset core that drivers share.

ghost use Rattle.std.specs.Prelude.{◌≡◌, ◌<◌, ◌≤◌, ◌+◌, All, IfOk, IsOk, Some, length, sum_by};
ghost use Rattle.tier_lock.specs.Entries.{own, IsPrefix, AreBelow};
ghost use Rattle.tier_lock.specs.Known.{parted, next_pass, AreAll};
ghost use Rattle.shared_log.specs.Entering.{first_seat, IsReady};
ghost use Rattle.reset_core.specs.Standing.{ArePlaced};
ghost use Rattle.reset_core.specs.Sound.{AreApart};
ghost use Rattle.reset_core.specs.Logs.{begins};
ghost use Rattle.reset_core.specs.Sharing.{EntersReset};

use crate::call::{ResetCall, ResetLine};
use crate::reset::ResetCore;
use clk_base::Reply;
use clk_io::NoMemory;
use shared_log::Shared;
use std::alloc::Global;
use std::marker::Model;
use std::sync::Wait;
use tier_lock::Pass;

/// What one driver has of shared resets: its number, the journal as far as it was shown it, its own
/// entries, and its room, which is how many calls it has left. Resets whose seat was dropped can't be
/// closed any more.
pub type ResetSeat = Pass<Box<ResetCore>>;

/// The refusal in the type of `close`, which always closes.
pub type Unclosed = (Resets, Vec<ResetSeat>, NoMemory);

/// A reset core behind the counted lock. Contracts see it as a `KnownLock`.
#[derive(Drop)]
pub struct Resets {
    shared: Shared<Box<ResetCore>>,
}

impl Model for Resets {
    ghost use Rattle.tier_lock.specs.Known.{KnownLock};
    ghost use Rattle.reset_core.specs.declared.start.ResetStart.{ResetStart};

    ghost Value = { KnownLock ResetStart };

    ghost view = { λ r. r.shared };
}

impl Resets {
    /// Shares lines that are all asserted, without a handle, with memory for so many entries. The one
    /// error is that memory runs out.
    pub fn create(
        alloc: Global,
        words: u32,
        lines: &[ResetLine],
        room: u32,
    ) -> Result<(Resets, ResetSeat), NoMemory>
        // Each line has a bit of the words.
        requires placed { ArePlaced words lines.now }
        // No two lines have the same bit.
        requires apart { AreApart lines.now }
        // They begin with these.
        ensures resets { IfOk result (λ r. r.0.fixed ≡ (begins words lines.now room).start) }
        // The seat has number 0, all room and the baton, and has seen no entry.
        ensures seat { IfOk result (λ r. r.1 ≡ first_seat r.0.table (begins words lines.now room).start room) }
    {
        let core = ResetCore::create(alloc, words, lines, room)?;
        let (shared, seat) = Shared::create(alloc, Box::new(alloc, core)?)?;
        Ok((Resets { shared }, seat))
    }

    /// A seat of the next number, with some of the room of number 0. Takes no memory.
    pub fn seat(&self, boot: &mut ResetSeat, room: u32) -> ResetSeat
        // The seat is one of these resets, between two calls.
        requires ready { IsReady self.now.table boot.old }
        // It is number 0.
        requires first { boot.old.number ≡ 0 }
        // It has as much room.
        requires fits { room ≤ boot.old.room }
        // A number is left.
        requires few { boot.old.made < 4294967295 }
        // Number 0 has made one seat more, and has this room no longer.
        ensures old { boot.new ≡ parted room boot.old }
        // The new seat has the next number and this room, has seen as much, and has no entry.
        ensures new { result ≡ next_pass room boot.old }
        // It is one of these resets, between two calls.
        ensures ready { IsReady self.now.table result }
        // No entry of its number stands in what it has seen.
        ensures own_ { own (λ e. e.driver) result.number result.seen ≡ result.mine }
    {
        self.shared.seat(boot, room)
    }

    /// Makes a call, in one turn of the lock. Takes no memory.
    pub fn call<R: Wait>(&self, rt: &R, seat: &mut ResetSeat, what: &ResetCall) -> Reply
        // The seat is one of these resets, between two calls.
        requires ready { IsReady self.now.table seat.old }
        // It has room.
        requires room { 0 < seat.old.room }
        // The call is entered and answered so, in a legal journal.
        ensures { EntersReset seat.old what.now result seat.new }
    {
        self.shared.call(rt, seat, what)
    }

    /// Ends all seats, and gives the core. Takes no memory.
    pub fn close(self, seats: Vec<ResetSeat>) -> Result<ResetCore, Unclosed>
        // The seats are of these resets, between two calls.
        requires ready { All (λ s. IsReady self.table s) seats.items }
        // They are all that were made.
        requires all { AreAll seats.items }
        // It always closes.
        ensures closes { IsOk result }
        // The core began as these resets did.
        ensures fixed { IfOk result (λ core. core.start ≡ self.fixed) }
        // So each seat knew.
        ensures known { IfOk result (λ core. All (λ s. s.fixed ≡ Some core.start) seats.items) }
        // Its journal continues what each seat had seen.
        ensures seen { IfOk result (λ core. All (λ s. IsPrefix s.seen core.journal) seats.items) }
        // The entries of each seat's number are the seat's own.
        ensures mine { IfOk result (λ core. All (λ s. own (λ e. e.driver) s.number core.journal ≡ s.mine) seats.items) }
        // Each entry's number is below the number of seats that were made.
        ensures numbers { IfOk result (λ core. All (λ s. s.number ≡ 0 → AreBelow (λ e. e.driver) s.made core.journal) seats.items) }
        // The room that is left and all entries fit into the room at first.
        ensures room { IfOk result (λ core. sum_by (λ s. s.room) seats.items + length core.journal ≤ core.start.room) }
    {
        let Resets { shared } = self;
        Ok(Box::into_inner(shared.close(seats)))
    }
}
