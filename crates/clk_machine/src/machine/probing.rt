//! Registrations that go on: PLLs are raised first where a critical clock is to be registered, and
//! orphans are adopted behind it.

ghost use Rattle.std.specs.Prelude.{◌≡◌, ◌+◌, ◌-◌, ◌^◌, ◌<◌, ◌≤◌, ◌||◌, not, true};
ghost use Rattle.std.specs.Prelude.{false, None, Some, length, min, sum_by, IfOk, OnOk, OnErr};
ghost use Rattle.std.specs.List.{list_all};
ghost use Rattle.clk_base.specs.declared.call.Micro.TheVariants as micro;
ghost use Rattle.clk_base.specs.declared.call.Sleeping.TheVariants.{Probe};
ghost use Rattle.clk_base.specs.declared.event.Event.TheVariants.{Begin, Step};
ghost use Rattle.clk_base.specs.declared.event.Turn.TheVariants.{Going};
ghost use Rattle.clk_base.specs.Places.{places};
ghost use Rattle.clk_base.specs.Flags.{is_critical};
ghost use Rattle.clk_model.specs.Begin.{most_credits, register};
ghost use Rattle.clk_model.specs.Journal.{is_going};
ghost use Rattle.clk_model.specs.Script.{plls};
ghost use Rattle.clk_model.specs.State.{State, registered};
ghost use Rattle.clk_flight.specs.Flights.{own_step};
ghost use Rattle.clk_flight.specs.LeftOver.{step_weight};
ghost use Rattle.clk_machine.specs.Adopting.{adopted};
ghost use Rattle.clk_machine.specs.Holding.{stays};
ghost use Rattle.core_parts.specs.InFlight.{can_link, is_script};
ghost use Rattle.clk_machine.specs.Making.{ComesFirst};
ghost use Rattle.core_parts.specs.Listed.{rows_from};
ghost use Rattle.clk_machine.specs.Kinds.{is_answer_to};
ghost use Rattle.clk_machine.specs.Parts.{IsWhole, steps_left};
ghost use Rattle.clk_machine.specs.Probing.{must_raise, goes_on};
ghost use Rattle.clk_machine.specs.Sound.{IsSound};
ghost use Rattle.clk_machine.specs.Stands.{Enters, Stands};
ghost use Rattle.clk_machine.specs.Starting.{StartsCall};

use super::Machine;
use crate::log::Log;
use change_walk::weigh;
use clk_base::{ClockId, Errno, Micro, Reply, Sleeping, Turn};
use clk_flight::Start;
use clk_io::NoMemory;
use core_parts::{
    fits, given_parent, is_critical, is_unprepared_under, let_go_under, open_path, register_clock,
};
use reg_bank::Bank;

// Whether a registration goes on behind which orphans are adopted or none are, and for which a PLL has
// to be raised or none has.
fn goes_on(alone: bool, raises: bool) -> bool
    ensures { result ≡ (not alone || raises) }
{
    !alone || raises
}

impl<B: Bank> Machine<B> {
    // Whether a clock that isn't registered is critical, and a PLL of the path that it is to get isn't
    // prepared.
    fn must_raise(&self, clock: ClockId) -> bool
        requires place { clock.0 < length self.now.desc.defs }
        requires free { registered self.now.tree.clocks clock.0 ≡ false }
        ensures told { (s : State) → Stands self.now s → result ≡ must_raise s clock.0 }
        ensures whole { IsWhole self.now }
    {
        if !is_critical(&self.tree, clock) {
            return false;
        }
        let parent = given_parent(&self.window, &self.tree, clock);
        is_unprepared_under(&self.tree, &self.counts, parent, clock)
    }

    // Whether the registration of a clock goes on behind which these orphans are adopted.
    pub(super) fn goes_on(&self, clock: ClockId, orphans: &[ClockId]) -> bool
        requires place { clock.0 < length self.now.desc.defs }
        requires free { registered self.now.tree.clocks clock.0 ≡ false }
        ensures told { (s : State) → Stands self.now s → IsSound self.now.window.size s
            → places orphans.now ≡ adopted (register s clock.0) → result ≡ goes_on s clock.0 }
        ensures whole { IsWhole self.now }
    {
        let raises = self.must_raise(clock);
        goes_on(orphans.is_empty(), raises)
    }

    // How many entries the steps of a registration may come to, and 2^64 - 1 where it is more.
    pub(super) fn weigh(&self, steps: &[Micro]) -> u64
        ensures { result ≡ min (sum_by (step_weight (rows_from 0 self.now.chains) (plls self.now.desc.defs)) steps.now) (2 ^ 64 - 1) }
    {
        weigh(&self.notifiers, self.tree.plls(), steps)
    }

    // A registration goes on with its script. All memory that it needs is taken.
    fn start_probe(
        &mut self,
        driver: u32,
        clock: ClockId,
        steps: Vec<Micro>,
    ) -> Result<(), NoMemory>
        requires credit { self.old.spent < self.old.credits }
        requires quiet { self.old.flight.going ≡ false }
        requires place { clock.0 < length self.old.desc.defs }
        requires script { is_script (Probe clock) (registered self.old.tree.clocks) steps.items ≡ true }
        requires links { list_all (can_link self.old.desc.defs self.old.tree.clocks) steps.items ≡ true }
        requires room { self.old.credits + self.old.steps
            + sum_by (step_weight (rows_from 0 self.old.chains) (plls self.old.desc.defs)) steps.items ≤ most_credits }
        ensures ok { OnOk result (StartsCall self.old driver (Probe clock) steps.items stays self.new) }
        ensures err { OnErr result (self.new ≡ self.old) }
    {
        let start = Start {
            driver,
            call: Sleeping::Probe(clock),
            script: steps,
            range: None,
            extra: 0,
            vetoed: false,
        };
        self.flight.begin(start, self.tree.plls())?;
        self.spent += 1;
        Ok(())
    }

    /// Begins the registration of a clock: at once where no orphan is adopted behind it and no PLL has to
    /// be raised for it, and else it goes on, with room in the log for the entries of its steps, unless
    /// there is none behind the credits and the steps so far.
    pub(crate) fn begin_probe(
        &mut self,
        log: &mut Log,
        driver: u32,
        clock: ClockId,
    ) -> Result<Turn, NoMemory>
        requires credit { self.old.spent < self.old.credits }
        requires quiet { self.old.flight.going ≡ false }
        requires place { clock.0 < length self.old.desc.defs }
        requires paid { self.old.credits ≤ self.old.spent + log.old.room }
        ensures ok { IfOk result (λ turn. Enters self.old driver (Begin (Probe clock)) turn self.new) }
        ensures kind { IfOk result (λ turn. is_answer_to (Begin (Probe clock)) turn ≡ true) }
        ensures room { IfOk result (λ turn. is_going turn ≡ true → self.old.credits + steps_left self.new ≤ self.old.spent + log.new.room) }
        ensures entries { log.new.entries ≡ log.old.entries }
        ensures kept { log.old.room ≤ log.new.room }
        ensures err { OnErr result (self.new ≡ self.old) }
    {
        if self.is_registered(clock) {
            self.spend();
            return Ok(Turn::Done(Reply::Refused(Errno::EEXIST)));
        }
        let orphans = self.adopted(clock)?;
        if !self.goes_on(clock, orphans.as_slice()) {
            self.probe_at_once(driver, clock);
            return Ok(Turn::Done(Reply::Fine));
        }
        let steps = self.probe_steps(clock, orphans.as_slice())?;
        let weight = self.weigh(steps.as_slice());
        if !fits(self.used(), weight) {
            self.spend();
            return Ok(Turn::Done(Reply::Refused(Errno::ENOSPC)));
        }
        log.make_room(self.credits_left(), weight)?;
        self.start_probe(driver, clock, steps)?;
        Ok(Turn::Going)
    }

    // Whether the clock that is registered next is critical.
    fn is_critical_next(&self, clock: ClockId) -> bool
        requires going { self.now.flight.going ≡ true }
        requires next { own_step self.now.flight ≡ Some (micro.Register clock) }
        ensures critical { result ≡ is_critical self.now.desc.defs clock.0 }
    {
        is_critical(&self.tree, clock)
    }

    // A clock is registered that isn't critical.
    fn register_plain_next(&mut self, clock: ClockId)
        requires going { self.old.flight.going ≡ true }
        requires next { own_step self.old.flight ≡ Some (micro.Register clock) }
        requires first { ComesFirst self.old (micro.Register clock) }
        requires plain { is_critical self.old.desc.defs clock.0 ≡ false }
        ensures { Enters self.old self.old.flight.driver (Step (micro.Register clock) None) Going self.new }
    {
        let parent = given_parent(&self.window, &self.tree, clock);
        self.flight.go_on();
        let_go_under(&self.tree, &mut self.flight, parent, clock);
        register_clock(&self.window, &mut self.tree, clock);
        self.counts.moved(&self.tree, clock, None);
        self.steps += 1;
    }

    // A critical clock is registered: it is prepared and enabled from now on, so that no PLL above it
    // counts as raised any more, and the gates of its path open.
    fn register_critical_next(&mut self, clock: ClockId)
        requires going { self.old.flight.going ≡ true }
        requires next { own_step self.old.flight ≡ Some (micro.Register clock) }
        requires first { ComesFirst self.old (micro.Register clock) }
        requires critical { is_critical self.old.desc.defs clock.0 ≡ true }
        ensures { Enters self.old self.old.flight.driver (Step (micro.Register clock) None) Going self.new }
    {
        let parent = given_parent(&self.window, &self.tree, clock);
        self.flight.go_on();
        let_go_under(&self.tree, &mut self.flight, parent, clock);
        register_clock(&self.window, &mut self.tree, clock);
        self.counts.moved(&self.tree, clock, None);
        self.counts.hold(&self.tree, clock);
        let begun = self.counts.enable_walk(&self.tree, clock);
        open_path(begun, &self.tree, &mut self.window, clock);
        self.steps += 1;
    }

    /// The clock of the call in flight is registered.
    pub(super) fn register_next(&mut self, clock: ClockId)
        requires going { self.old.flight.going ≡ true }
        requires next { own_step self.old.flight ≡ Some (micro.Register clock) }
        requires first { ComesFirst self.old (micro.Register clock) }
        ensures { Enters self.old self.old.flight.driver (Step (micro.Register clock) None) Going self.new }
    {
        if self.is_critical_next(clock) {
            self.register_critical_next(clock);
        } else {
            self.register_plain_next(clock);
        }
    }
}
