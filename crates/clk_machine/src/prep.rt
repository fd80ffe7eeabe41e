//! A copy of the prepare tier of a core, over which calls are decided.

ghost use Rattle.std.specs.Prelude.{◌≡◌, false, None, Some, IfOk, IsOk, OnErr, OnOk};
ghost use Rattle.clk_model.specs.Journal.{is_going};
ghost use Rattle.clk_model.specs.State.{State};
ghost use Rattle.clk_machine.specs.Along.{KeepsShape};
ghost use Rattle.clk_machine.specs.Copied.{AreDecided, Follows, IsCopyOf, IsDecided, StaysCopy, room_after};
ghost use Rattle.clk_machine.specs.Sound.{IsPlaced, takes_memory};

mod creating;
mod ending;
mod following;
mod ready;
mod tracing;
mod words;

use self::ending::end_with;
use self::following::go_on;
use self::ready::{Ready, make_decided, make_ready};
use self::words::Words;
use crate::change::change_of;
use crate::decision::Decision;
use crate::machine::{Machine, is_asking};
use clk_base::{Entry, Pause, Sleeping, Turn};
use clk_io::NoMemory;
use rate_planner::Pausing;
use std::marker::Model;
use std::mem::swap;
use std::sync::Wait;

/// A copy of the prepare tier of a core: its tree, its handles without their enables, its notifiers, and
/// its words, in which the bits of gates mean nothing.
pub struct Prep {
    machine: Machine<Words>,
    // Whose call there is room for.
    room: Option<(u32, Sleeping)>,
    // What that call goes on with, and what the next one is made in.
    ready: Ready,
    spare: Ready,
}

// A copy is let go here, and not in each crate that drops one.
impl Drop for Prep {
    fn drop(self) {
        let Prep {
            machine: _,
            room: _,
            ready: _,
            spare: _,
        } = self;
    }
}

impl Model for Prep {
    ghost use Rattle.clk_machine.specs.Copied.{Copy};

    ghost Value = { Copy };

    ghost view = { λ p. record { parts = p.machine; room = p.room } };

    ghost use Rattle.clk_machine.specs.Changing.{course_of};
    ghost use Rattle.clk_machine.specs.Ready.{IsReserved};

    ghost invariant = { λ p. IsReserved p.machine p.room p.ready.flight (course_of p.ready.draft) p.ready.chain };
}

impl Prep {
    /// Decides how a call begins that asks or plans. Pauses at `Place::Planning` once a candidate of a
    /// rounding. The one error is want of memory.
    pub fn decide<R: Wait + Sync, Q: Pause>(
        &self,
        rt: &R,
        driver: u32,
        what: &Sleeping,
        pause: &Q,
    ) -> Result<Decision, NoMemory>
        // No call is in flight in the copy.
        requires quiet { self.now.parts.flight.going ≡ false }
        // The clocks that the call names are clocks of the description.
        requires place { IsPlaced self.now.parts.desc.defs what.now }
        // It is decided so over the prepare tier's part of each state that the copy is of.
        ensures decides { IfOk result (λ decision. (s : State) → IsCopyOf self.now s → IsDecided s driver what.now decision) }
        // So it is in each sound state that its parts stand for.
        ensures here { IfOk result (AreDecided self.now.parts driver what.now) }
        // Memory can run out only if the call takes memory.
        ensures memory { takes_memory what.now ≡ false → IsOk result }
    {
        if is_asking(what) {
            let reply = self
                .machine
                .asked_reply(&Pausing { rt, pause }, driver, *what);
            return Ok(Decision::Reply(reply));
        }
        match change_of(*what) {
            Some(change) => self.machine.planned(&Pausing { rt, pause }, driver, change),
            None => Ok(Decision::Inside),
        }
    }

    /// Makes what a call goes on with in the copy, before it begins: of a call that plans it is made from
    /// the plan that was decided. The one error is want of memory, and leaves the copy as it was.
    pub fn reserve(
        &mut self,
        driver: u32,
        what: &Sleeping,
        decision: &Decision,
    ) -> Result<(), NoMemory>
        // No call is in flight in the copy.
        requires quiet { self.old.parts.flight.going ≡ false }
        // The clocks that the call names are clocks of the description.
        requires place { IsPlaced self.old.parts.desc.defs what.now }
        // It was decided so over this copy.
        requires decided { AreDecided self.old.parts driver what.now decision.now }
        // The copy is of what it was of.
        ensures stays { StaysCopy self.old self.new }
        // Still no call is in flight in it.
        ensures quiet { self.new.parts.flight.going ≡ false }
        // Its description and the number of its words stay.
        ensures same { (self.new.parts.desc ≡ self.old.parts.desc) × (self.new.parts.window.size ≡ self.old.parts.window.size) }
        // There is room for this call.
        ensures room { OnOk result (self.new.room ≡ Some (driver, what.now)) }
        // Where memory runs out, the copy is as it was.
        ensures err { OnErr result (self.new ≡ self.old) }
        // That can be only if the call takes memory.
        ensures memory { takes_memory what.now ≡ false → IsOk result }
    {
        self.spare.flight.end();
        make_decided(&mut self.machine, &mut self.spare, driver, *what, decision)?;
        swap(&mut self.ready, &mut self.spare);
        self.room = Some((driver, *what));
        Ok(())
    }

    // Makes what a call goes on with in the copy that was not decided over it. The one error is want of
    // memory.
    fn reserve_anew(&mut self, driver: u32, what: &Sleeping) -> Result<(), NoMemory>
        requires quiet { self.old.parts.flight.going ≡ false }
        requires place { IsPlaced self.old.parts.desc.defs what.now }
        ensures stays { OnOk result (StaysCopy self.old self.new) }
        ensures same { OnOk result (KeepsShape self.old.parts self.new.parts) }
        ensures room { OnOk result (self.new.room ≡ Some (driver, what.now)) }
    {
        self.spare.flight.end();
        make_ready(&mut self.machine, &mut self.spare, driver, *what)?;
        swap(&mut self.ready, &mut self.spare);
        self.room = Some((driver, *what));
        Ok(())
    }

    /// Goes along with an entry of the core. Takes no memory.
    pub fn follow(&mut self, entry: &Entry)
        // The copy goes along with an entry of the call that there is room for.
        ensures follows { Follows self.old entry.now self.new }
        // There is room for that call as long as it goes on.
        ensures room { self.new.room ≡ room_after entry.now.turn self.old.room }
        // After an entry at which a call ends, no call is in flight in the copy.
        ensures quiet { is_going entry.now.turn ≡ false → self.new.parts.flight.going ≡ false }
        // Its description and the number of its words stay.
        ensures same { (self.new.parts.desc ≡ self.old.parts.desc) × (self.new.parts.window.size ≡ self.old.parts.window.size) }
    {
        let Some((driver, what)) = self.room else {
            self.pass(entry.turn);
            return;
        };
        match entry.turn {
            Turn::Going => {
                go_on(
                    &mut self.machine,
                    &mut self.ready,
                    driver,
                    what,
                    entry.event,
                )
            }
            Turn::Done(reply) => {
                self.room = None;
                let chain = &mut self.ready.chain;
                end_with(&mut self.machine, chain, driver, what, entry.event, reply)
            }
        }
    }

    // Passes an entry that there is no room for.
    fn pass(&mut self, turn: Turn)
        requires { self.old.room ≡ None }
        ensures room { self.new.room ≡ None }
        ensures quiet { is_going turn ≡ false → self.new.parts.flight.going ≡ false }
        ensures same { KeepsShape self.old.parts self.new.parts }
    {
        match turn {
            Turn::Going => {}
            Turn::Done(_) => self.machine.halt(),
        }
    }
}
