//! The steps that give a clock another parent, and those behind them.

ghost use Rattle.std.specs.Prelude.{◌≡◌, true, Some, None};
ghost use Rattle.std.specs.Option.{option_map};
ghost use Rattle.clk_model.specs.State.{link_in};
ghost use Rattle.clk_base.specs.declared.call.Micro.TheVariants as micro;
ghost use Rattle.clk_base.specs.declared.event.Event.TheVariants.{Step};
ghost use Rattle.clk_base.specs.declared.event.Turn.TheVariants.{Going};
ghost use Rattle.clk_flight.specs.Flights.{own_step};
ghost use Rattle.clk_machine.specs.Making.{ComesFirst};
ghost use Rattle.clk_machine.specs.Stands.{Enters};

use super::Machine;
use clk_base::{ClockId, depth};
use core_parts::{HoldKind, end_holds, link_to, pass_holds, set_to, settle_below};
use reg_bank::Bank;

impl<B: Bank> Machine<B> {
    // The parent of a clock, if it has one.
    fn parent_now(&self, clock: ClockId) -> Option<ClockId>
        ensures { option_map (λ p. p.0) result ≡ link_in self.now.tree.clocks clock.0 }
    {
        self.tree.parent(clock)
    }

    // A clock that has a parent gets another one. What is held of that parent is held of the one that
    // it had.
    fn pass_on(&mut self, clock: ClockId, parent: ClockId, from: ClockId)
        requires going { self.old.flight.going ≡ true }
        requires next { own_step self.old.flight ≡ Some (micro.Relink clock parent) }
        requires first { ComesFirst self.old (micro.Relink clock parent) }
        requires link { link_in self.old.tree.clocks clock.0 ≡ Some from.0 }
        ensures { Enters self.old self.old.flight.driver (Step (micro.Relink clock parent) None) Going self.new }
    {
        link_to(&self.window, &mut self.tree, clock, parent);
        self.counts.moved(&self.tree, clock, Some(from));
        pass_holds(
            HoldKind::Prepare,
            &self.tree,
            &mut self.counts,
            &mut self.prepare_holds,
            parent,
            from,
        );
        pass_holds(
            HoldKind::Enable,
            &self.tree,
            &mut self.counts,
            &mut self.enable_holds,
            parent,
            from,
        );
        self.flight.go_on();
        self.steps += 1;
    }

    // An orphan gets a parent. What is held of that parent is held no more.
    fn adopt(&mut self, clock: ClockId, parent: ClockId)
        requires going { self.old.flight.going ≡ true }
        requires next { own_step self.old.flight ≡ Some (micro.Relink clock parent) }
        requires first { ComesFirst self.old (micro.Relink clock parent) }
        requires link { link_in self.old.tree.clocks clock.0 ≡ None }
        ensures { Enters self.old self.old.flight.driver (Step (micro.Relink clock parent) None) Going self.new }
    {
        link_to(&self.window, &mut self.tree, clock, parent);
        self.counts.moved(&self.tree, clock, None);
        end_holds(
            HoldKind::Prepare,
            &self.tree,
            &mut self.counts,
            &mut self.prepare_holds,
            parent,
        );
        end_holds(
            HoldKind::Enable,
            &self.tree,
            &mut self.counts,
            &mut self.enable_holds,
            parent,
        );
        self.flight.go_on();
        self.steps += 1;
    }

    /// A clock gets a parent, and is its newest child. What is held of that parent is held of the one
    /// that the clock had, and ends where it had none.
    pub(super) fn relink(&mut self, clock: ClockId, parent: ClockId)
        requires going { self.old.flight.going ≡ true }
        requires next { own_step self.old.flight ≡ Some (micro.Relink clock parent) }
        requires first { ComesFirst self.old (micro.Relink clock parent) }
        ensures { Enters self.old self.old.flight.driver (Step (micro.Relink clock parent) None) Going self.new }
    {
        match self.parent_now(clock) {
            Some(from) => self.pass_on(clock, parent, from),
            None => self.adopt(clock, parent),
        }
    }

    /// The field of a mux selects the parent at a place.
    pub(super) fn select(&mut self, clock: ClockId, place: u32)
        requires going { self.old.flight.going ≡ true }
        requires next { own_step self.old.flight ≡ Some (micro.WriteMux clock place) }
        requires first { ComesFirst self.old (micro.WriteMux clock place) }
        ensures { Enters self.old self.old.flight.driver (Step (micro.WriteMux clock place) None) Going self.new }
    {
        set_to(&mut self.window, &mut self.tree, clock, place);
        self.flight.go_on();
        self.steps += 1;
    }

    /// The rates of a clock and of all below it become their last requests.
    pub(super) fn settle(&mut self, clock: ClockId)
        requires going { self.old.flight.going ≡ true }
        requires next { own_step self.old.flight ≡ Some (micro.Settle clock) }
        requires first { ComesFirst self.old (micro.Settle clock) }
        ensures { Enters self.old self.old.flight.driver (Step (micro.Settle clock) None) Going self.new }
    {
        settle_below(depth(), &mut self.tree, clock);
        self.flight.go_on();
        self.steps += 1;
    }
}
