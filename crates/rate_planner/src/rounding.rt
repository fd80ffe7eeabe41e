//! Rounding.

ghost use Rattle.std.specs.Prelude.{◌≡◌, ◌≤◌, true, length};
ghost use Rattle.std.specs.Option.{option_map};
ghost use Rattle.clk_model.specs.Round as model;
ghost use Rattle.clk_model.specs.State.{registered};
ghost use Rattle.rate_planner.specs.Rounded.{rounded_of, NamesRegistered};
ghost use Rattle.rate_planner.specs.Kept.{Always, Told};

use crate::asking::round_by;
use crate::rest::{NoRest, Pausing, Rest};
use crate::rounded::Rounded;
use clk_base::{ClockId, Pause, ValidDesc, depth};
use clk_tree::{Tree, View};
use reg_bank::Bank;
use std::sync::Wait;

/// How a clock would be rounded for a request.
pub(crate) fn rounding<V: View, W: Rest>(
    tree: &Tree,
    view: &V,
    rest: &W,
    c: ClockId,
    x: u64,
) -> Option<Rounded>
    requires seen { length tree.now.defs ≤ V.size view.now }
    requires there { registered tree.now.clocks c.0 ≡ true }
    ensures rounding { Always tree.now.defs tree.now (λ w. option_map rounded_of result ≡ model.round w (V.means view.now) c.0 x) }
    ensures names { NamesRegistered tree.now.clocks result }
{
    round_by(depth(), tree, view, rest, c, x)
}

// The rate that a clock would get for a request.
fn round_told<V: View, W: Rest>(tree: &Tree, view: &V, rest: &W, c: ClockId, x: u64) -> Option<u64>
    requires seen { length tree.now.defs ≤ V.size view.now }
    requires there { registered tree.now.clocks c.0 ≡ true }
    ensures { Always tree.now.defs tree.now (λ w. result ≡ model.round_rate w (V.means view.now) c.0 x) }
{
    match rounding(tree, view, rest, c, x) {
        Some(rounded) => Some(rounded.rate),
        None => None,
    }
}

/// The rate in Hz that a clock would get for a request; none if it can't be given one. Rests once a
/// candidate. Takes no memory.
pub fn round_resting<B: Bank, V: View, W: Rest>(
    tree: &Tree,
    _bank: &B,
    view: &V,
    rest: &W,
    c: ClockId,
    x: u64,
) -> Option<u64>
    requires seen { length tree.now.defs ≤ V.size view.now }
    requires there { registered tree.now.clocks c.0 ≡ true }
    ensures rate { Told (B.contents _bank.now) tree.now.defs tree.now (λ w. result ≡ model.round_rate w (V.means view.now) c.0 x) }
    ensures reads { Always tree.now.defs tree.now (λ w. result ≡ model.round_rate w (V.means view.now) c.0 x) }
{
    round_told(tree, view, rest, c, x)
}

/// The rate in Hz that a clock would get for a request; none if it can't be given one. Pauses at
/// `Place::Planning` once a candidate. Takes no memory.
pub fn round<R: Wait + Sync, B: Bank, V: View, Q: Pause>(
    rt: &R,
    _desc: &ValidDesc,
    tree: &Tree,
    _bank: &B,
    view: &V,
    c: ClockId,
    x: u64,
    pause: &Q,
) -> Option<u64>
    requires made { _desc.now.defs ≡ tree.now.defs }
    requires seen { length tree.now.defs ≤ V.size view.now }
    requires there { registered tree.now.clocks c.0 ≡ true }
    ensures rate { Told (B.contents _bank.now) _desc.now.defs tree.now (λ w. result ≡ model.round_rate w (V.means view.now) c.0 x) }
    ensures reads { Always _desc.now.defs tree.now (λ w. result ≡ model.round_rate w (V.means view.now) c.0 x) }
{
    round_resting(tree, _bank, view, &Pausing { rt, pause }, c, x)
}

/// The rate in Hz that a clock would get for a request, as `round` tells it, without a pause. Takes
/// no memory.
pub fn round_now<B: Bank, V: View>(
    _desc: &ValidDesc,
    tree: &Tree,
    _bank: &B,
    view: &V,
    c: ClockId,
    x: u64,
) -> Option<u64>
    requires made { _desc.now.defs ≡ tree.now.defs }
    requires seen { length tree.now.defs ≤ V.size view.now }
    requires there { registered tree.now.clocks c.0 ≡ true }
    ensures rate { Told (B.contents _bank.now) _desc.now.defs tree.now (λ w. result ≡ model.round_rate w (V.means view.now) c.0 x) }
    ensures reads { Always _desc.now.defs tree.now (λ w. result ≡ model.round_rate w (V.means view.now) c.0 x) }
{
    round_resting(tree, _bank, view, &NoRest, c, x)
}

/// How a clock would be rounded for a request: the rate that `round_resting` tells, with the parent that
/// gives it. A plan for the request begins with it (`plan_from`). Rests once a candidate. Takes no
/// memory.
pub fn first_rounding<B: Bank, V: View, W: Rest>(
    tree: &Tree,
    _bank: &B,
    view: &V,
    rest: &W,
    c: ClockId,
    x: u64,
) -> Option<Rounded>
    requires seen { length tree.now.defs ≤ V.size view.now }
    requires there { registered tree.now.clocks c.0 ≡ true }
    ensures rounding { Told (B.contents _bank.now) tree.now.defs tree.now (λ w.
        option_map rounded_of result ≡ model.round w (V.means view.now) c.0 x) }
    ensures reads { Always tree.now.defs tree.now (λ w. option_map rounded_of result ≡ model.round w (V.means view.now) c.0 x) }
    ensures names { NamesRegistered tree.now.clocks result }
{
    rounding(tree, view, rest, c, x)
}
