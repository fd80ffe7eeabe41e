//! How a copy goes along with an event after which its call goes on.

ghost use Rattle.std.specs.Prelude.{◌≡◌, ℕ, Bool, Option, false};
ghost use Rattle.clk_base.specs.declared.event.Event.TheVariants.{Begin, Step};
ghost use Rattle.clk_base.specs.declared.event.Turn.TheVariants.{Going};
ghost use Rattle.clk_machine.specs.Along.{IsEventOf, KeepsShape, PartsFollow};
ghost use Rattle.clk_machine.specs.Changing.{course_of};
ghost use Rattle.clk_machine.specs.Ready.{IsReadyFor};

use super::ready::{Ready, set_out};
use super::words::Words;
use crate::machine::Machine;
use clk_base::{Event, Micro, Sleeping};

// Begins the call that was made ready, unless one is in flight.
fn begin_along(machine: &mut Machine<Words>, ready: &mut Ready, driver: u32, what: Sleeping)
    requires ready { machine.old.flight.going ≡ false
        → IsReadyFor machine.old driver what ready.old.flight (course_of ready.old.draft) ready.old.chain }
    ensures follows { PartsFollow machine.old driver (Begin what) Going machine.new }
    ensures ready { machine.new.flight.going ≡ false
        → IsReadyFor machine.new driver what ready.new.flight (course_of ready.new.draft) ready.new.chain }
    ensures same { KeepsShape machine.old machine.new }
{
    if !machine.is_quiet() {
        return;
    }
    set_out(machine, ready, driver, what);
}

// Goes along with a step of the call in flight.
fn step_along(machine: &mut Machine<Words>, step: Micro, answer: Option<bool>)
    ensures follows { (d : ℕ) → PartsFollow machine.old d (Step step answer) Going machine.new }
    ensures kept { machine.new.flight.going ≡ false → machine.new ≡ machine.old }
    ensures same { KeepsShape machine.old machine.new }
{
    if machine.is_quiet() {
        return;
    }
    if machine.sweeps() {
        machine.sweep_on(step);
        return;
    }
    machine.step_on(answer);
}

/// Goes along with an event of a call that goes on after it, with what was made ready for the call.
pub(super) fn go_on(
    machine: &mut Machine<Words>,
    ready: &mut Ready,
    driver: u32,
    what: Sleeping,
    event: Event,
)
    requires ready { machine.old.flight.going ≡ false
        → IsReadyFor machine.old driver what ready.old.flight (course_of ready.old.draft) ready.old.chain }
    ensures follows { IsEventOf what event → PartsFollow machine.old driver event Going machine.new }
    ensures ready { machine.new.flight.going ≡ false
        → IsReadyFor machine.new driver what ready.new.flight (course_of ready.new.draft) ready.new.chain }
    ensures same { KeepsShape machine.old machine.new }
{
    match event {
        Event::Begin(_) => begin_along(machine, ready, driver, what),
        Event::Step(step, answer) => step_along(machine, step, answer),
        _ => {}
    }
}
