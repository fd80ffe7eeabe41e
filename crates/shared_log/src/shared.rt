//! A core behind the lock.

ghost use Rattle.std.specs.Prelude.{◌≡◌, ◌<◌, ◌≤◌, ◌+◌, ◌==◌, [], All, IfOk, IfSome, Some, map, position, sum_by};
ghost use Rattle.tier_lock.specs.Entries.{own, IsPrefix, AreBelow};
ghost use Rattle.tier_lock.specs.Known.{parted, next_pass, AreAll};
ghost use Rattle.shared_log.specs.Entering.{first_seat, without_baton, IsReady, Enters};

use crate::journaled::Journaled;
use clk_io::NoMemory;
use std::alloc::Global;
use std::marker::Model;
use std::sync::Wait;
use tier_lock::{Baton, Lock, Pass};

/// A core that drivers share, also from threads. Contracts see it as a `KnownLock`. The pass of
/// number 0 has the baton for good, since no entry needs it.
#[derive(Drop)]
pub struct Shared<T: Journaled> {
    lock: Lock<T>,
}

impl<T: Journaled> Model for Shared<T> {
    ghost use Rattle.tier_lock.specs.Known.{KnownLock};

    ghost Value = { KnownLock T.Fixed };

    ghost view = { λ s. s.lock };
}

// A call of a driver, in one turn of the lock.
fn turn<T: Journaled, R: Wait>(
    rt: &R,
    lock: &Lock<T>,
    pass: &mut Pass<T>,
    what: &T::Call,
) -> T::Reply
    requires ready { IsReady lock.now.table pass.old }
    requires room { 0 < pass.old.room }
    requires may { IfSome pass.old.fixed (λ fixed. T.may fixed what.now) }
    ensures { Enters T.legal T.by pass.old (T.entry pass.old.number what.now result) pass.new }
{
    let number = pass.number();
    let mut guard = lock.take(rt, pass);
    let reply = guard.value.answer(number, what);
    lock.give_entry(pass, guard);
    reply
}

// The place of number 0.
fn first_place<T: Journaled>(passes: &[Pass<T>]) -> Option<usize>
    ensures { result ≡ position (λ p. p.number == 0) passes.now }
{
    passes.iter().position(|pass| pass.number() == 0)
}

// Takes the baton from number 0, which is among the passes.
fn take_baton<T: Journaled>(lock: &Lock<T>, passes: &mut Vec<Pass<T>>) -> Baton<T>
    requires ready { All (λ p. IsReady lock.now.table p) passes.old.items }
    requires all { AreAll passes.old.items }
    ensures baton { result.table ≡ lock.now.table }
    ensures same { map without_baton passes.new.items ≡ map without_baton passes.old.items }
{
    let Some(place) = first_place(passes) else {
        unreachable!()
    };
    lock.hand_back(&mut passes[place])
}

impl<T: Journaled> Shared<T> {
    /// Shares a core. The one error is that memory runs out.
    pub fn create(alloc: Global, core: T) -> Result<(Shared<T>, Pass<T>), NoMemory>
        // The core has no entry.
        requires { T.entries core ≡ [] }
        // The lock knows the fixed part of the core.
        ensures lock { IfOk result (λ r. r.0.fixed ≡ T.fixed core) }
        // The pass has number 0, all room and the baton, and has seen no entry.
        ensures pass { IfOk result (λ r. r.1 ≡ first_seat r.0.table (T.fixed core) (T.most (T.fixed core))) }
    {
        let (lock, mut pass, baton) = Lock::create(alloc, core)?;
        lock.lend(&mut pass, baton);
        Ok((Shared { lock }, pass))
    }

    /// A pass of the next number, with some of the room of number 0. Takes no memory.
    pub fn seat(&self, boot: &mut Pass<T>, room: u32) -> Pass<T>
        // The pass is one of this lock, between two calls.
        requires ready { IsReady self.now.table boot.old }
        // It is number 0.
        requires first { boot.old.number ≡ 0 }
        // It has as much room.
        requires fits { room ≤ boot.old.room }
        // A number is left.
        requires few { boot.old.made < 4294967295 }
        // Number 0 has made one pass more, and has this room no longer.
        ensures old { boot.new ≡ parted room boot.old }
        // The new pass has the next number and this room, has seen as much, and has no entry.
        ensures new { result ≡ next_pass room boot.old }
        // It is one of this lock, between two calls.
        ensures ready { IsReady self.now.table result }
        // No entry of its number stands in what it has seen.
        ensures own_ { own T.by result.number result.seen ≡ result.mine }
    {
        self.lock.split(boot, room)
    }

    /// Makes a call, in one turn of the lock. Takes no memory.
    pub fn call<R: Wait>(&self, rt: &R, pass: &mut Pass<T>, what: &T::Call) -> T::Reply
        // The pass is one of this lock, between two calls.
        requires ready { IsReady self.now.table pass.old }
        // It has room.
        requires room { 0 < pass.old.room }
        // The call may be made.
        requires may { IfSome pass.old.fixed (λ fixed. T.may fixed what.now) }
        // The call is entered and answered so, in a legal journal.
        ensures { Enters T.legal T.by pass.old (T.entry pass.old.number what.now result) pass.new }
    {
        turn(rt, &self.lock, pass, what)
    }

    /// Ends all passes, and gives the core. Takes no memory.
    pub fn close(self, passes: Vec<Pass<T>>) -> T
        // The passes are of this lock, between two calls.
        requires ready { All (λ p. IsReady self.table p) passes.items }
        // They are all that were made.
        requires all { AreAll passes.items }
        // The core has the fixed part that the lock knows.
        ensures fixed { T.fixed result ≡ self.fixed }
        // Each pass knew it.
        ensures known { All (λ p. p.fixed ≡ Some (T.fixed result)) passes.items }
        // The entries continue what each pass had seen.
        ensures seen { All (λ p. IsPrefix p.seen (T.entries result)) passes.items }
        // Those of each pass's number are the pass's own.
        ensures mine { All (λ p. own T.by p.number (T.entries result) ≡ p.mine) passes.items }
        // Each is of a number that was given.
        ensures numbers { All (λ p. p.number ≡ 0 → AreBelow T.by p.made (T.entries result)) passes.items }
        // The rooms that are left and the costs of all entries fit into the total.
        ensures room { sum_by (λ p. p.room) passes.items + sum_by T.cost (T.entries result) ≤ T.most (T.fixed result) }
    {
        let Shared { lock } = self;
        let mut passes = passes;
        let baton = take_baton(&lock, &mut passes);
        match lock.close(passes, baton) {
            Ok(core) => core,
            Err(_) => unreachable!(),
        }
    }
}
