//! One driver adds lines, a turn each.
ghost use Rattle.std.specs.Prelude.{◌≡◌, ◌<◌, ◌-◌, true, false, [], ◌∷◌, ◌++◌};
ghost use Rattle.std.specs.Bool.{OnTrue, OnFalse};

use crate::roll::{Line, Roll};
use std::sync::Wait;
use tier_lock::{Lock, Pass};

/// Adds one line; false where there is no memory for it.
pub fn append<R: Wait>(
    rt: &R,
    lock: &Lock<Roll>,
    pass: &mut Pass<Roll>,
    number: u32,
    prepares: bool,
) -> bool
    requires lock { pass.old.table ≡ lock.now.table }
    requires idle { pass.old.turn ≡ false }
    requires room { 0 < pass.old.room }
    requires tier { prepares ≡ true → pass.old.baton ≡ true }
    ensures added { OnTrue result (pass.new ≡ record pass.old { seen = pass.new.seen; mine = pass.old.mine ++ record { driver = pass.old.number; number = number; prepares = prepares } ∷ []; room = pass.old.room - 1 }) }
    ensures missed { OnFalse result (pass.new ≡ record pass.old { seen = pass.new.seen }) }
{
    let mut guard = lock.take(rt, pass);
    let line = Line {
        driver: pass.number(),
        number,
        prepares,
    };
    match guard.value.add(line) {
        Ok(()) => {
            lock.give_entry(pass, guard);
            true
        }
        Err(_) => {
            lock.give_back(pass, guard);
            false
        }
    }
}
