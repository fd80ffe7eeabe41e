//! The notices before a change, and those that it is called off.

ghost use Rattle.std.specs.Prelude.{◌≡◌, ◌++◌, ◌||◌, flat_map, map, slice_index_or, [], IfOk};
ghost use Rattle.std.specs.List.{list_any};
ghost use Rattle.clk_base.specs.declared.call.Notice.TheVariants as notice;
ghost use Rattle.clk_model.specs.Notices.{is_veto, vetoes};
ghost use Rattle.change_walk.specs.Tellings.{notifiers_at, notify, tell_before, tell_off};

use crate::changes::Changed;
use crate::places::{changed_at, notifier_at};
use clk_base::{Micro, Notice, Policy};
use clk_io::NoMemory;
use notifiers::{Notifier, Notifiers};

// Whether a notifier of this policy vetoes a new rate in Hz.
fn vetoes(policy: Policy, new: u64) -> bool
    ensures { result ≡ vetoes policy new }
{
    match policy {
        Policy::Accept => false,
        Policy::VetoAbove(rate) => rate < new,
        Policy::VetoBelow(rate) => new < rate,
        Policy::VetoAll => true,
    }
}

// The notice of this kind to a notifier of a clock.
fn notify(kind: Notice, changed: Changed, id: u32) -> Micro
    ensures { result ≡ notify kind changed id }
{
    Micro::Notify {
        kind,
        clock: changed.clock,
        id,
        old: changed.before,
        new: changed.after,
    }
}

// Tells the notifiers of one clock what is to come, up to and with the first that vetoes. Answers
// whether one does.
fn tell_before(
    steps: &mut Vec<Micro>,
    chain: &[Notifier],
    changed: Changed,
) -> Result<bool, NoMemory>
    ensures told { IfOk result (λ vetoed. steps.new.items ≡ steps.old.items ++ tell_before changed chain.now) }
    ensures vetoed { IfOk result (λ vetoed. vetoed ≡ list_any is_veto (tell_before changed chain.now)) }
{
    for place in 0..chain.len() {
        let notifier = notifier_at(chain, place);
        let veto = vetoes(notifier.policy, changed.after);
        steps.push(notify(Notice::Pre(veto), changed, notifier.id))?;
        if veto {
            return Ok(true);
        }
    }
    Ok(false)
}

// Whether one of two is so.
fn either(one: bool, other: bool) -> bool
    ensures { result ≡ (one || other) }
{
    one || other
}

/// Tells the notifiers of each of these clocks what is to come. Answers whether one vetoes.
pub(crate) fn tell_all_before(
    steps: &mut Vec<Micro>,
    notifiers: &Notifiers,
    changed: &[Changed],
) -> Result<bool, NoMemory>
    ensures told { IfOk result (λ vetoed. steps.new.items
        ≡ steps.old.items ++ flat_map (λ x. tell_before x (notifiers_at notifiers.now x)) changed.now) }
    ensures vetoed { IfOk result (λ vetoed. vetoed
        ≡ list_any is_veto (flat_map (λ x. tell_before x (notifiers_at notifiers.now x)) changed.now)) }
{
    let mut vetoed = false;
    for place in 0..changed.len() {
        let one = changed_at(changed, place);
        let veto = tell_before(steps, notifiers.chain(one.clock), one)?;
        vetoed = either(vetoed, veto);
    }
    Ok(vetoed)
}

// Tells all notifiers of one clock that the change is called off.
fn tell_off(steps: &mut Vec<Micro>, chain: &[Notifier], changed: Changed) -> Result<(), NoMemory>
    ensures { IfOk result (λ done. steps.new.items ≡ steps.old.items ++ tell_off changed chain.now) }
{
    for place in 0..chain.len() {
        let notifier = notifier_at(chain, place);
        steps.push(notify(Notice::Abort, changed, notifier.id))?;
    }
    Ok(())
}

/// Tells all notifiers of each of these clocks that the change is called off.
pub(crate) fn tell_all_off(
    steps: &mut Vec<Micro>,
    notifiers: &Notifiers,
    changed: &[Changed],
) -> Result<(), NoMemory>
    ensures { IfOk result (λ done. steps.new.items
        ≡ steps.old.items ++ flat_map (λ x. tell_off x (notifiers_at notifiers.now x)) changed.now) }
{
    for place in 0..changed.len() {
        let one = changed_at(changed, place);
        tell_off(steps, notifiers.chain(one.clock), one)?;
    }
    Ok(())
}
