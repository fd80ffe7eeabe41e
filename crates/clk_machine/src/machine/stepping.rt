//! The steps of the change in flight.

ghost use Rattle.std.specs.Prelude.{◌≡◌, ◌<◌, true, [], Some, None, length, reverse, IfSome};
ghost use Rattle.clk_base.specs.declared.call.Micro.TheVariants as micro;
ghost use Rattle.clk_base.specs.declared.event.Event.TheVariants.{Step};
ghost use Rattle.clk_base.specs.declared.event.Turn.TheVariants.{Going};
ghost use Rattle.clk_model.specs.State.{registered};
ghost use Rattle.clk_model.specs.Tree.{path, path_to_be};
ghost use Rattle.clk_flight.specs.Flights.{own_step, comes_next};
ghost use Rattle.core_parts.specs.InFlight.{is_near};
ghost use Rattle.core_parts.specs.MadeSteps.{step_of, answer_of, turn_of};
ghost use Rattle.clk_machine.specs.Kinds.{is_answer_to};
ghost use Rattle.clk_machine.specs.Making.{ComesFirst, ComesNext, FindsNothing, only_goes_on};
ghost use Rattle.clk_machine.specs.Parts.{IsWhole};
ghost use Rattle.clk_machine.specs.Polls.{FollowsLocks, PollsLock, StartsLock};
ghost use Rattle.core_parts.specs.Plls.{raisable, lowerable, Finds};
ghost use Rattle.clk_machine.specs.Sound.{links_well};
ghost use Rattle.clk_machine.specs.Stands.{Enters};

use super::Machine;
use clk_base::{ClockId, Micro, Turn};
use core_parts::{
    Made, Sought, given_parent, next_to_lower, next_to_raise, next_to_raise_under, set_power,
};
use reg_bank::Bank;

impl<B: Bank> Machine<B> {
    // The highest PLL above a clock that is to be raised, where the clock is registered or the one that
    // the call registers.
    fn to_raise(&self, clock: ClockId) -> Sought
        requires going { self.now.flight.going ≡ true }
        requires near { is_near self.now.flight.call (registered self.now.tree.clocks) clock.0 ≡ true }
        ensures found { IfSome self.now.window.words (λ regs. Finds result
            (reverse (raisable self.now.desc.defs self.now.counts self.now.flight.raised
            (path_to_be self.now.desc.defs regs self.now.tree.clocks clock.0)))) }
        ensures near { IfSome result.pll (λ pll. is_near self.now.flight.call (registered self.now.tree.clocks) pll.0 ≡ true) }
        ensures whole { IsWhole self.now }
    {
        if self.tree.registered(clock) {
            return next_to_raise(&self.tree, &self.counts, &self.flight, clock);
        }
        let parent = given_parent(&self.window, &self.tree, clock);
        next_to_raise_under(&self.tree, &self.counts, &self.flight, parent, clock)
    }

    /// The lowest PLL above a clock that is powered without a prepare.
    pub(super) fn to_lower(&self, clock: ClockId) -> Sought
        requires { registered self.now.tree.clocks clock.0 ≡ true }
        ensures found { IfSome self.now.window.words (λ regs. Finds result
            (lowerable self.now.desc.defs self.now.counts regs (path self.now.tree.clocks clock.0))) }
        ensures place { IfSome result.pll (λ pll. pll.0 < length self.now.desc.defs) }
        ensures whole { IsWhole self.now }
    {
        next_to_lower(&self.tree, &self.counts, &self.window, clock)
    }

    // A raise or a lower has found no PLL.
    fn find_none(&mut self, step: Micro)
        requires going { self.old.flight.going ≡ true }
        requires next { own_step self.old.flight ≡ Some step }
        requires seeks { FindsNothing self.old step }
        ensures enters { Enters self.old self.old.flight.driver (Step step None) Going self.new }
        ensures starts { StartsLock self.old self.new }
    {
        self.flight.find_none();
        self.steps += 1;
    }

    // A raise has found a PLL: it is powered, and polled next.
    fn power_up(&mut self, clock: ClockId, pll: ClockId, more: bool)
        requires going { self.old.flight.going ≡ true }
        requires next { own_step self.old.flight ≡ Some (micro.Raise clock) }
        requires first { ComesFirst self.old (micro.Raise clock) }
        requires near { is_near self.old.flight.call (registered self.old.tree.clocks) pll.0 ≡ true }
        requires found { IfSome self.old.window.words (λ regs. Finds (record { pll = Some pll; more = more })
            (reverse (raisable self.old.desc.defs self.old.counts self.old.flight.raised
            (path_to_be self.old.desc.defs regs self.old.tree.clocks clock.0)))) }
        ensures enters { Enters self.old self.old.flight.driver (Step (micro.Raise clock) None) Going self.new }
        ensures starts { StartsLock self.old self.new }
    {
        set_power(self.tree.def(pll).kind, &mut self.window, true);
        self.window.start(pll);
        self.flight.raise(clock, pll, more);
        self.steps += 1;
    }

    // A lower has found a PLL: it is switched off.
    fn power_down(&mut self, clock: ClockId, pll: ClockId, more: bool)
        requires going { self.old.flight.going ≡ true }
        requires next { own_step self.old.flight ≡ Some (micro.Lower clock) }
        requires first { ComesFirst self.old (micro.Lower clock) }
        requires place { pll.0 < length self.old.desc.defs }
        requires found { IfSome self.old.window.words (λ regs. Finds (record { pll = Some pll; more = more })
            (lowerable self.old.desc.defs self.old.counts regs (path self.old.tree.clocks clock.0))) }
        ensures { Enters self.old self.old.flight.driver (Step (micro.Lower clock) None) Going self.new }
    {
        set_power(self.tree.def(pll).kind, &mut self.window, false);
        self.flight.lower(clock, more);
        self.steps += 1;
    }

    // Powers the highest PLL above a clock that is to be raised, if there is one.
    fn raise(&mut self, clock: ClockId)
        requires going { self.old.flight.going ≡ true }
        requires next { own_step self.old.flight ≡ Some (micro.Raise clock) }
        requires first { ComesFirst self.old (micro.Raise clock) }
        requires near { is_near self.old.flight.call (registered self.old.tree.clocks) clock.0 ≡ true }
        ensures enters { Enters self.old self.old.flight.driver (Step (micro.Raise clock) None) Going self.new }
        ensures starts { StartsLock self.old self.new }
    {
        let found = self.to_raise(clock);
        match found.pll {
            Some(pll) => self.power_up(clock, pll, found.more),
            None => self.find_none(Micro::Raise(clock)),
        }
    }

    // Switches the lowest PLL above a clock off that is powered without a prepare, if there is one.
    fn lower(&mut self, clock: ClockId)
        requires going { self.old.flight.going ≡ true }
        requires next { own_step self.old.flight ≡ Some (micro.Lower clock) }
        requires first { ComesFirst self.old (micro.Lower clock) }
        requires there { registered self.old.tree.clocks clock.0 ≡ true }
        ensures { Enters self.old self.old.flight.driver (Step (micro.Lower clock) None) Going self.new }
    {
        let found = self.to_lower(clock);
        match found.pll {
            Some(pll) => self.power_down(clock, pll, found.more),
            None => self.find_none(Micro::Lower(clock)),
        }
    }

    // Polls a PLL: the bank answers.
    fn poll(&mut self, pll: ClockId) -> bool
        requires going { self.old.flight.going ≡ true }
        requires next { own_step self.old.flight ≡ Some (micro.Poll pll) }
        requires first { ComesFirst self.old (micro.Poll pll) }
        ensures enters { Enters self.old self.old.flight.driver (Step (micro.Poll pll) (Some result)) Going self.new }
        ensures polls { PollsLock pll (Some result) self.old self.new }
    {
        let yes = self.window.locked(pll);
        self.flight.poll(yes);
        self.steps += 1;
        yes
    }

    // The PLL that was raised last falls.
    fn fall(&mut self, pll: ClockId)
        requires going { self.old.flight.going ≡ true }
        requires next { comes_next [] self.old.flight ≡ Some (micro.Fall pll) }
        requires first { ComesFirst self.old (micro.Fall pll) }
        ensures { Enters self.old self.old.flight.driver (Step (micro.Fall pll) None) Going self.new }
    {
        set_power(self.tree.def(pll).kind, &mut self.window, false);
        self.flight.fall();
        self.steps += 1;
    }

    // The step that comes next of the change in flight.
    pub(super) fn next_step(&self) -> Option<Micro>
        requires { self.now.flight.going ≡ true }
        ensures next { ComesNext self.now result }
        ensures whole { IsWhole self.now }
    {
        self.flight.next(&self.notifiers)
    }

    // Makes the step that comes next, which is neither a poll nor the end of the call.
    #[inline(always)]
    pub(super) fn make(&mut self, step: Micro)
        requires going { self.old.flight.going ≡ true }
        requires next { ComesNext self.old (Some step) }
        requires on { only_goes_on step ≡ true }
        requires whole { IsWhole self.old }
        ensures enters { Enters self.old self.old.flight.driver (Step step None) Going self.new }
        ensures links { links_well self.old.desc.defs self.old.tree.clocks step ≡ true }
        ensures locks { FollowsLocks self.old (Step step None) self.new }
    {
        match step {
            Micro::Raise(clock) => self.raise(clock),
            Micro::Fall(pll) => self.fall(pll),
            Micro::Lower(clock) => self.lower(clock),
            Micro::Notify { .. } => self.tell(step),
            Micro::HoldPrepare(clock) => self.hold_prepare(clock),
            Micro::HoldEnable(clock) => self.hold_enable(clock),
            Micro::DropEnable(clock) => self.let_enable_go(clock),
            Micro::DropPrepare(clock) => self.let_prepare_go(clock),
            Micro::Relink(clock, parent) => self.relink(clock, parent),
            Micro::WriteMux(clock, place) => self.select(clock, place),
            Micro::Settle(clock) => self.settle(clock),
            Micro::Close(clock) => self.close(clock),
            Micro::Unpower(clock) => self.unpower(clock),
            Micro::Visit(clock) => self.visit(clock),
            Micro::Register(clock) => self.register_next(clock),
            Micro::Poll(_) | Micro::End => unreachable!(),
        }
    }

    /// Makes the next step of the change in flight.
    pub(crate) fn step(&mut self) -> Made
        requires { self.old.flight.going ≡ true }
        ensures enters { Enters self.old self.old.flight.driver (Step (step_of result) (answer_of result)) (turn_of result) self.new }
        ensures kind { is_answer_to (Step (step_of result) (answer_of result)) (turn_of result) ≡ true }
        ensures links { links_well self.old.desc.defs self.old.tree.clocks (step_of result) ≡ true }
        ensures locks { FollowsLocks self.old (Step (step_of result) (answer_of result)) self.new }
    {
        match self.next_step() {
            Some(Micro::Poll(pll)) => {
                let yes = self.poll(pll);
                Made::GoesOn(Micro::Poll(pll), Some(yes))
            }
            Some(Micro::End) | None => Made::Ends(self.end()),
            Some(step) => {
                self.make(step);
                Made::GoesOn(step, None)
            }
        }
    }
}
