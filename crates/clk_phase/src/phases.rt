//! Phases that drivers share.

ghost use Rattle.std.specs.Prelude.{◌≡◌, ◌<◌, ◌≤◌, ◌+◌, All, IfOk, IfSome, IsOk, Some, None, length, sum_by};
ghost use Rattle.tier_lock.specs.Entries.{own, IsPrefix, AreBelow};
ghost use Rattle.tier_lock.specs.Known.{parted, next_pass, AreAll};
ghost use Rattle.shared_log.specs.Entering.{first_seat, IsReady};
ghost use Rattle.clk_phase.specs.PhaseLogs.{phase_begins, EntersPhase};

use crate::phase::PhaseCore;
use crate::phase_call::{PhaseCall, PhaseReply};
use clk_base::{ClockId, ValidDesc};
use clk_io::NoMemory;
use shared_log::Shared;
use std::alloc::Global;
use std::marker::Model;
use std::sync::Wait;
use tier_lock::Pass;

/// What one driver has of shared phases: its number, the journal as far as it was shown it, its own
/// entries, and its room, which is how many calls it has left. Phases whose seat was dropped can't be
/// closed any more.
pub type PhaseSeat = Pass<Box<PhaseCore>>;

/// The refusal in the type of `close`, which always closes.
pub type Unclosed = (Phases, Vec<PhaseSeat>, NoMemory);

/// A phase core behind the counted lock. Contracts see it as a `KnownLock`.
#[derive(Drop)]
pub struct Phases {
    shared: Shared<Box<PhaseCore>>,
}

impl Model for Phases {
    ghost use Rattle.tier_lock.specs.Known.{KnownLock};
    ghost use Rattle.clk_phase.specs.declared.phase_call.PhaseStart.{PhaseStart};

    ghost Value = { KnownLock PhaseStart };

    ghost view = { λ p. p.shared };
}

impl Phases {
    /// Shares the clocks of a description at phase 0, with memory for so many entries. The one
    /// error is that memory runs out.
    pub fn create(
        alloc: Global,
        desc: &ValidDesc,
        steps: &[u32],
        room: u32,
    ) -> Result<(Phases, PhaseSeat), NoMemory>
        // There is a number of steps for each clock, 0 for one without phases.
        requires each { length steps.now ≡ length desc.now.defs }
        // No clock has more than 360 steps.
        requires few { All (λ n. n ≤ 360) steps.now }
        // They begin with these.
        ensures phases { IfOk result (λ r. r.0.fixed ≡ (phase_begins steps.now room).start) }
        // The seat has number 0, all room and the baton, and has seen no entry.
        ensures seat { IfOk result (λ r. r.1 ≡ first_seat r.0.table (phase_begins steps.now room).start room) }
    {
        let core = PhaseCore::create(alloc, desc, steps, room)?;
        let (shared, seat) = Shared::create(alloc, Box::new(alloc, core)?)?;
        Ok((Phases { shared }, seat))
    }

    /// A seat of the next number, with some of the room of number 0. Takes no memory.
    pub fn seat(&self, boot: &mut PhaseSeat, room: u32) -> PhaseSeat
        // The seat is one of these phases, between two calls.
        requires ready { IsReady self.now.table boot.old }
        // It is number 0.
        requires first { boot.old.number ≡ 0 }
        // It has as much room.
        requires fits { room ≤ boot.old.room }
        // A number is left.
        requires few { boot.old.made < 4294967295 }
        // Number 0 has made one seat more, and has this room no longer.
        ensures old { boot.new ≡ parted room boot.old }
        // The new seat has the next number and this room, has seen as much, and has no entry.
        ensures new { result ≡ next_pass room boot.old }
        // It is one of these phases, between two calls.
        ensures ready { IsReady self.now.table result }
        // No entry of its number stands in what it has seen.
        ensures own_ { own (λ e. e.driver) result.number result.seen ≡ result.mine }
    {
        self.shared.seat(boot, room)
    }

    /// Sets the phase of a clock as `PhaseCore::set` does, in one turn of the lock. Takes no memory.
    pub fn set<R: Wait>(&self, rt: &R, seat: &mut PhaseSeat, c: ClockId, degrees: i32) -> PhaseReply
        // The seat is one of these phases, between two calls.
        requires ready { IsReady self.now.table seat.old }
        // It has room.
        requires room { 0 < seat.old.room }
        // There is such a clock.
        requires place { IfSome seat.old.fixed (λ start. c.0 < length start.steps) }
        // The call is entered and answered so, in a legal journal.
        ensures { EntersPhase seat.old c (Some degrees) result seat.new }
    {
        let what = PhaseCall {
            clock: c,
            set: Some(degrees),
        };
        self.shared.call(rt, seat, &what)
    }

    /// The phase of a clock, as `PhaseCore::get` tells it, in one turn of the lock. Takes no memory.
    pub fn get<R: Wait>(&self, rt: &R, seat: &mut PhaseSeat, c: ClockId) -> PhaseReply
        // The seat is one of these phases, between two calls.
        requires ready { IsReady self.now.table seat.old }
        // It has room.
        requires room { 0 < seat.old.room }
        // There is such a clock.
        requires place { IfSome seat.old.fixed (λ start. c.0 < length start.steps) }
        // The call is entered and answered so, in a legal journal.
        ensures { EntersPhase seat.old c None result seat.new }
    {
        let what = PhaseCall {
            clock: c,
            set: None,
        };
        self.shared.call(rt, seat, &what)
    }

    /// Ends all seats, and gives the core. Takes no memory.
    pub fn close(self, seats: Vec<PhaseSeat>) -> Result<PhaseCore, Unclosed>
        // The seats are of these phases, between two calls.
        requires ready { All (λ s. IsReady self.table s) seats.items }
        // They are all that were made.
        requires all { AreAll seats.items }
        // It always closes.
        ensures closes { IsOk result }
        // The core began as these phases did.
        ensures fixed { IfOk result (λ core. core.start ≡ self.fixed) }
        // So each seat knew.
        ensures known { IfOk result (λ core. All (λ s. s.fixed ≡ Some core.start) seats.items) }
        // Its journal continues what each seat had seen.
        ensures seen { IfOk result (λ core. All (λ s. IsPrefix s.seen core.journal) seats.items) }
        // The entries of each seat's number are the seat's own.
        ensures mine { IfOk result (λ core. All (λ s. own (λ e. e.driver) s.number core.journal ≡ s.mine) seats.items) }
        // Each entry's number is below the number of seats that were made.
        ensures numbers { IfOk result (λ core. All (λ s. s.number ≡ 0 → AreBelow (λ e. e.driver) s.made core.journal) seats.items) }
        // The room that is left and all entries fit into the room at first.
        ensures room { IfOk result (λ core. sum_by (λ s. s.room) seats.items + length core.journal ≤ core.start.room) }
    {
        let Phases { shared } = self;
        Ok(Box::into_inner(shared.close(seats)))
    }
}
