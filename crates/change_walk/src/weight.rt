//! What scripts weigh.

ghost use Rattle.std.specs.Prelude.{◌≡◌, ◌+◌, ◌*◌, ◌-◌, ◌^◌, ◌≤◌, min, length, sum_by};
ghost use Rattle.std.specs.List.{list_any};
ghost use Rattle.clk_model.specs.Script.{is_raise};
ghost use Rattle.change_walk.specs.Tellings.{notifiers_at};
ghost use Rattle.change_walk.specs.Weights.{step_weight};

use crate::changes::Changed;
use crate::places::{changed_at, micro_at};
use clk_base::Micro;
use notifiers::Notifiers;

// What a step weighs, if a line of possible parents has so many PLLs at most.
fn step_weight(notifiers: &Notifiers, plls: u32, step: Micro) -> u64
    ensures { result ≡ step_weight plls notifiers.now step }
{
    match step {
        Micro::Raise(_clock) => 34 * (plls as u64) + 1,
        Micro::Lower(_clock) => (plls as u64) + 1,
        Micro::Visit(clock) => 1 + notifiers.chain(clock).len() as u64,
        _ => 1,
    }
}

/// How many entries of a journal steps may come to together, and 2^64 - 1 if it is more. Takes no
/// memory.
pub fn weigh(notifiers: &Notifiers, plls: u32, steps: &[Micro]) -> u64
    ensures { result ≡ min (sum_by (step_weight plls notifiers.now) steps.now) (2 ^ 64 - 1) }
{
    let mut sum: u64 = 0;
    for place in 0..steps.len() {
        sum = sum.saturating_add(step_weight(notifiers, plls, micro_at(steps, place)));
    }
    sum
}

/// How many notifiers the changed clocks have, and 2^64 - 1 if it is more.
pub(crate) fn count_notifiers(notifiers: &Notifiers, changed: &[Changed]) -> u64
    ensures { result ≡ min (sum_by (λ x. length (notifiers_at notifiers.now x)) changed.now) (2 ^ 64 - 1) }
{
    let mut sum: u64 = 0;
    for place in 0..changed.len() {
        let chain = notifiers.chain(changed_at(changed, place).clock);
        sum = sum.saturating_add(chain.len() as u64);
    }
    sum
}

/// Whether a step raises PLLs.
pub(crate) fn raises(steps: &[Micro]) -> bool
    ensures { result ≡ list_any is_raise steps.now }
{
    steps.iter().any(|step| matches!(step, Micro::Raise(_)))
}
