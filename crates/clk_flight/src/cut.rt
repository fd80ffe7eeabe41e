//! What a timeout leaves of a script.

ghost use Rattle.std.specs.Prelude.{◌≡◌, ◌≤◌, ◌++◌, ◌∷◌, [], true, None, length, drop, position, not, if◌then◌else◌};
ghost use Rattle.std.specs.Option.{option_map};
ghost use Rattle.std.specs.List.{list_any};
ghost use Rattle.clk_model.specs.Step.{cut_short, from_first, behind_first, first_alone, behind_lets, lets_go, is_close, is_end, is_visit, is_register, is_settle, next_visit, missed_by, visit_clock};
ghost use Rattle.clk_flight.specs.Parts.{keeps_visit, visit_alone, missed_of};

use clk_base::{ClockId, Micro, Sleeping};

// Whether a step is the end, a visit, a registration or the settling of a last request.
fn is_end(step: &Micro) -> bool
    ensures { result ≡ is_end step.now }
{
    matches!(step, Micro::End)
}

fn is_visit(step: &Micro) -> bool
    ensures { result ≡ is_visit step.now }
{
    matches!(step, Micro::Visit(_))
}

fn is_register(step: &Micro) -> bool
    ensures { result ≡ is_register step.now }
{
    matches!(step, Micro::Register(_))
}

fn is_settle(step: &Micro) -> bool
    ensures { result ≡ is_settle step.now }
{
    matches!(step, Micro::Settle(_))
}

// The place of the first end, visit or settling.
fn end_place(steps: &[Micro]) -> Option<usize>
    ensures { result ≡ position is_end steps.now }
{
    steps.iter().position(|step| is_end(step))
}

fn visit_place(steps: &[Micro]) -> Option<usize>
    ensures { result ≡ position is_visit steps.now }
{
    steps.iter().position(|step| is_visit(step))
}

fn settle_place(steps: &[Micro]) -> Option<usize>
    ensures { result ≡ position is_settle steps.now }
{
    steps.iter().position(|step| is_settle(step))
}

// How many steps stand in front of the first end.
fn before_end(steps: &[Micro]) -> usize
    ensures left { drop result steps.now ≡ from_first is_end steps.now }
    ensures within { result ≤ length steps.now }
{
    match end_place(steps) {
        Some(place) => place,
        None => steps.len(),
    }
}

// How many steps there are up to the first settling.
fn behind_settle(steps: &[Micro]) -> usize
    ensures left { drop result steps.now ≡ behind_first is_settle steps.now }
    ensures within { result ≤ length steps.now }
{
    match settle_place(steps) {
        Some(place) => place + 1,
        None => steps.len(),
    }
}

// Whether there is a registration among the steps.
fn has_register(steps: &[Micro]) -> bool
    ensures { result ≡ list_any is_register steps.now }
{
    steps.iter().any(|step| is_register(step))
}

// Of a registration: only the end where the clock isn't registered yet, or else what stands behind
// the adoption.
fn cut_probe(steps: &[Micro]) -> usize
    ensures left { drop result steps.now ≡ (if list_any is_register steps.now then from_first is_end steps.now else behind_first is_settle steps.now) }
    ensures within { result ≤ length steps.now }
{
    if has_register(steps) {
        return before_end(steps);
    }
    behind_settle(steps)
}

// Whether a step lets go of what was kept running.
fn lets_go(step: &Micro) -> bool
    ensures { result ≡ lets_go step.now }
{
    matches!(
        step,
        Micro::DropEnable(_) | Micro::DropPrepare(_) | Micro::Lower(_)
    )
}

// Whether a step closes a gate.
fn is_close(step: &Micro) -> bool
    ensures { result ≡ is_close step.now }
{
    matches!(step, Micro::Close(_))
}

// The place of the first step that doesn't let go.
fn stay_place(steps: &[Micro]) -> Option<usize>
    ensures { result ≡ position (λ m. not (lets_go m)) steps.now }
{
    steps.iter().position(|step| !lets_go(step))
}

// The place of the first step that closes a gate.
fn close_place(steps: &[Micro]) -> Option<usize>
    ensures { result ≡ position is_close steps.now }
{
    steps.iter().position(|step| is_close(step))
}

/// How many steps let go before the first that doesn't.
pub(crate) fn lets(steps: &[Micro]) -> usize
    ensures left { drop result steps.now ≡ behind_lets steps.now }
    ensures within { result ≤ length steps.now }
{
    match stay_place(steps) {
        Some(place) => place,
        None => steps.len(),
    }
}

// How many steps there are up to the first that closes a gate.
fn up_to_close(steps: &[Micro]) -> usize
    ensures left { drop result steps.now ≡ behind_first is_close steps.now }
    ensures within { result ≤ length steps.now }
{
    match close_place(steps) {
        Some(place) => place + 1,
        None => steps.len(),
    }
}

// Of a sweep: the gate that isn't closed is dropped, with the steps that let its parent go.
fn cut_sweep(steps: &[Micro]) -> usize
    ensures left { drop result steps.now ≡ behind_lets (behind_first is_close steps.now) }
    ensures within { result ≤ length steps.now }
{
    let closed = up_to_close(steps);
    closed + lets(&steps[closed..])
}

/// Whether a timeout of the call leaves the visit that comes next.
pub(crate) fn keeps_visit(call: Sleeping) -> bool
    ensures { result ≡ keeps_visit call }
{
    !matches!(
        call,
        Sleeping::Prepare(_) | Sleeping::SetParent(_, _) | Sleeping::Probe(_) | Sleeping::Sweep
    )
}

/// What a timeout leaves of the steps that are left: the visit of a clock, if it keeps one, and what
/// stands after so many of them.
pub(crate) struct Remainder {
    pub(crate) alone: Option<ClockId>,
    pub(crate) dropped: usize,
}

// Nothing but what stands after so many steps.
fn without(dropped: usize) -> Remainder
    ensures alone { result.alone ≡ None }
    ensures dropped { result.dropped ≡ dropped }
{
    Remainder {
        alone: None,
        dropped,
    }
}

// The clock of a visit.
fn clock_of(step: Micro) -> Option<ClockId>
    ensures clock { option_map (λ c. c.0) result ≡ visit_clock step }
    ensures visit { is_visit step ≡ true → visit_alone result ≡ step ∷ [] }
{
    match step {
        Micro::Visit(clock) => Some(clock),
        _ => None,
    }
}

// Of a change of rates: the visit of the next clock without what keeps a clock running for it, and
// what stands after that.
fn cut_rates(steps: &[Micro]) -> Remainder
    ensures left { visit_alone result.alone ++ drop result.dropped steps.now ≡ first_alone (from_first is_visit steps.now) }
    ensures missed { option_map (λ c. c.0) result.alone ≡ next_visit steps.now }
    ensures within { result.dropped ≤ length steps.now }
{
    match visit_place(steps) {
        Some(place) => Remainder {
            alone: clock_of(steps[place]),
            dropped: place + 1 + lets(&steps[place + 1..]),
        },
        None => without(steps.len()),
    }
}

/// The clock that isn't set after a timeout, if the visit of this one stays.
pub(crate) fn missed(call: Sleeping, alone: Option<ClockId>) -> Option<ClockId>
    ensures { option_map (λ c. c.0) result ≡ missed_of call (option_map (λ c. c.0) alone) }
{
    match call {
        Sleeping::SetRate(_, _) | Sleeping::SetRateExclusive(_, _) | Sleeping::SetRange(_, _, _) =>
            { alone }
        _ => None,
    }
}

/// What a timeout of the call leaves.
pub(crate) fn cut(call: Sleeping, steps: &[Micro]) -> Remainder
    ensures left { visit_alone result.alone ++ drop result.dropped steps.now ≡ cut_short call steps.now }
    ensures missed { missed_of call (option_map (λ c. c.0) result.alone) ≡ missed_by call steps.now }
    ensures within { result.dropped ≤ length steps.now }
{
    match call {
        Sleeping::Prepare(_) | Sleeping::SetParent(_, _) => without(before_end(steps)),
        Sleeping::Probe(_) => without(cut_probe(steps)),
        Sleeping::Sweep => without(cut_sweep(steps)),
        _ => cut_rates(steps),
    }
}
