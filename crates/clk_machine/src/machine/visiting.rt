//! The steps of a change of rate or parent: its notices, and the visits of its clocks.

ghost use Rattle.std.specs.Prelude.{◌≡◌, ◌<◌, true, Some, None, length, slice_index};
ghost use Rattle.clk_base.specs.declared.call.Micro.TheVariants as micro;
ghost use Rattle.clk_base.specs.declared.event.Event.TheVariants.{Step};
ghost use Rattle.clk_base.specs.declared.event.Turn.TheVariants.{Going};
ghost use Rattle.clk_model.specs.Laws.Paced.{is_notice};
ghost use Rattle.clk_flight.specs.Flights.{own_step};
ghost use Rattle.core_parts.specs.Course.{behind_visit};
ghost use Rattle.clk_machine.specs.Making.{ComesFirst, TellsNext};
ghost use Rattle.clk_machine.specs.Posted.{IsPosted};
ghost use Rattle.clk_machine.specs.Stands.{Enters};

use super::Machine;
use clk_base::{ClockId, Micro};
use clk_flight::Flight;
use clk_tree::Tree;
use core_parts::{Course, posts_of, set_along};
use reg_bank::Bank;

// A visit goes on. Where the clock has notifiers, they are told next if its rate is another than before
// the change, and the course leaves it behind. Where it has none, nothing is told.
fn post(flight: &mut Flight, course: &mut Course, tree: &Tree, clock: ClockId, count: usize)
    requires next { own_step flight.old ≡ Some (micro.Visit clock) }
    requires place { clock.0 < length tree.now.defs }
    ensures posted { IsPosted course.old clock count (slice_index tree.now.rates clock.0) flight.old flight.new }
    ensures chain { course.new.chain ≡ course.old.chain }
    ensures notified { course.new.notified ≡ behind_visit count course.old.notified }
{
    if count == 0 {
        flight.go_on();
        return;
    }
    let rate = tree.rate(clock);
    let posts = posts_of(course, count, rate);
    flight.visit(clock, posts.count, posts.before, posts.after);
    course.pass(true);
}

impl<B: Bank> Machine<B> {
    // A notifier is told.
    pub(super) fn tell(&mut self, step: Micro)
        requires going { self.old.flight.going ≡ true }
        requires notice { is_notice step ≡ true }
        requires next { TellsNext self.old }
        requires first { ComesFirst self.old step }
        ensures { Enters self.old self.old.flight.driver (Step step None) Going self.new }
    {
        self.flight.go_on();
        self.steps += 1;
    }

    // A clock is visited: its planned setting is written, and its notifiers are told next where its
    // rate is another than before the change.
    pub(super) fn visit(&mut self, clock: ClockId)
        requires going { self.old.flight.going ≡ true }
        requires next { own_step self.old.flight ≡ Some (micro.Visit clock) }
        requires first { ComesFirst self.old (micro.Visit clock) }
        ensures { Enters self.old self.old.flight.driver (Step (micro.Visit clock) None) Going self.new }
    {
        let missed = self.flight.missed();
        set_along(
            &self.course,
            missed,
            &mut self.window,
            &mut self.tree,
            clock,
        );
        let count = self.notifiers.chain(clock).len();
        post(&mut self.flight, &mut self.course, &self.tree, clock, count);
        self.steps += 1;
    }
}
