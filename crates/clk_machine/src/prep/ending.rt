//! How a copy goes along with an event at which its call ends.

ghost use Rattle.std.specs.Prelude.{◌≡◌, ℕ, Bool, List, Option, false};
ghost use Rattle.clk_base.specs.declared.call.Micro.{Micro};
ghost use Rattle.clk_base.specs.declared.event.Event.TheVariants.{Begin, Step};
ghost use Rattle.clk_base.specs.declared.event.Reply.{Reply};
ghost use Rattle.clk_base.specs.declared.handle.Handle.{Handle};
ghost use Rattle.clk_base.specs.declared.event.Reply.TheVariants.{Fine};
ghost use Rattle.clk_base.specs.declared.event.Reply.TheVariants as reply;
ghost use Rattle.clk_base.specs.declared.event.Turn.TheVariants.{Done};
ghost use Rattle.notifiers.specs.declared.notifier.Notifier.{Notifier};
ghost use Rattle.clk_machine.specs.Along.{IsEventOf, KeepsShape, PartsFollow, clock_got};
ghost use Rattle.clk_machine.specs.Parts.{IsWhole};
ghost use Rattle.clk_machine.specs.Ready.{HasPlaceFor};
ghost use Rattle.clk_machine.specs.Sound.{IsPlaced};

use super::words::Words;
use crate::machine::Machine;
use clk_base::{ClockId, Event, Reply, Sleeping};
use notifiers::Chain;

// Goes along with the step at which the call in flight ends.
fn end_along(machine: &mut Machine<Words>)
    ensures follows { (d : ℕ) (m : Micro) (a : Option Bool) (r : Reply) → PartsFollow machine.old d (Step m a) (Done r) machine.new }
    ensures quiet { machine.new.flight.going ≡ false }
    ensures same { KeepsShape machine.old machine.new }
{
    if machine.is_quiet() {
        return;
    }
    if machine.sweeps() {
        machine.halt();
        return;
    }
    machine.step_out();
}

// Goes along with a call that was answered by Ok at once.
fn fine_along(machine: &mut Machine<Words>, chain: &mut Option<Chain>, driver: u32, what: Sleeping)
    requires quiet { machine.old.flight.going ≡ false }
    requires place { IsPlaced machine.old.desc.defs what }
    requires whole { IsWhole machine.old }
    requires has { HasPlaceFor machine.old driver what chain.old }
    ensures follows { PartsFollow machine.old driver (Begin what) (Done Fine) machine.new }
    ensures quiet { machine.new.flight.going ≡ false }
    ensures same { KeepsShape machine.old machine.new }
{
    match what {
        Sleeping::Put(handle) => machine.put_along(driver, handle),
        Sleeping::Prepare(handle) => machine.prepare_along(driver, handle),
        Sleeping::Unprepare(handle) => machine.unprepare_along(driver, handle),
        Sleeping::SetRateExclusive(handle, _) => machine.exclusive_get_along(driver, handle),
        Sleeping::SetRange(handle, least, most) => {
            machine.range_along(driver, handle, least, most)
        }
        Sleeping::ExclusiveGet(handle) => machine.exclusive_get_along(driver, handle),
        Sleeping::ExclusivePut(handle) => machine.exclusive_put_along(driver, handle),
        Sleeping::NotifierAdd(handle, _id, _priority, _policy) => {
            machine.notifier_add_along(chain, driver, handle)
        }
        Sleeping::NotifierRemove(handle, id) => {
            machine.notifier_remove_along(driver, handle, id)
        }
        Sleeping::Probe(clock) => machine.probe_along(driver, clock),
        _ => {}
    }
}

// The clock of which a call gets a handle.
fn clock_got(what: Sleeping) -> Option<ClockId>
    ensures { result ≡ clock_got what }
{
    match what {
        Sleeping::Get(found) => found,
        _ => None,
    }
}

// Goes along with a call that was answered by a handle.
fn given_along(machine: &mut Machine<Words>, driver: u32, what: Sleeping)
    requires quiet { machine.old.flight.going ≡ false }
    requires whole { IsWhole machine.old }
    requires has { (chain : Option (List Notifier)) × HasPlaceFor machine.old driver what chain }
    ensures follows { (h : Handle) → PartsFollow machine.old driver (Begin what) (Done (reply.Handle h)) machine.new }
    ensures quiet { machine.new.flight.going ≡ false }
    ensures same { KeepsShape machine.old machine.new }
{
    let Some(clock) = clock_got(what) else {
        return;
    };
    machine.get_along(driver, clock);
}

// Goes along with a call that was answered at once.
fn answer_along(
    machine: &mut Machine<Words>,
    chain: &mut Option<Chain>,
    driver: u32,
    what: Sleeping,
    reply: Reply,
)
    requires place { IsPlaced machine.old.desc.defs what }
    requires has { machine.old.flight.going ≡ false → HasPlaceFor machine.old driver what chain.old }
    ensures follows { PartsFollow machine.old driver (Begin what) (Done reply) machine.new }
    ensures quiet { machine.new.flight.going ≡ false }
    ensures same { KeepsShape machine.old machine.new }
{
    if !machine.is_quiet() {
        machine.halt();
        return;
    }
    match reply {
        Reply::Fine => fine_along(machine, chain, driver, what),
        Reply::Handle(_) => given_along(machine, driver, what),
        _ => {}
    }
}

/// Goes along with an event at which a call ends, with the chain that was made ready for it.
pub(super) fn end_with(
    machine: &mut Machine<Words>,
    chain: &mut Option<Chain>,
    driver: u32,
    what: Sleeping,
    event: Event,
    reply: Reply,
)
    requires place { IsPlaced machine.old.desc.defs what }
    requires has { machine.old.flight.going ≡ false → HasPlaceFor machine.old driver what chain.old }
    ensures follows { IsEventOf what event → PartsFollow machine.old driver event (Done reply) machine.new }
    ensures quiet { machine.new.flight.going ≡ false }
    ensures same { KeepsShape machine.old machine.new }
{
    match event {
        Event::Begin(_) => answer_along(machine, chain, driver, what, reply),
        _ => end_along(machine),
    }
}
