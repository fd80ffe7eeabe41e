//! The unused sweep: gates that are open and PLLs that are powered without need are switched off.

ghost use Rattle.std.specs.Prelude.{◌≡◌, ◌+◌, ◌<◌, ◌≤◌, ◌&&◌, ◌∷◌, [], not, true};
ghost use Rattle.std.specs.Prelude.{false, None, Some, length, slice_get, sum_by, IfOk, IfSome, OnOk, OnErr};
ghost use Rattle.std.specs.Option.{option_map, option_map_or};
ghost use Rattle.std.specs.List.{list_all};
ghost use Rattle.clk_base.specs.declared.call.Micro.TheVariants as micro;
ghost use Rattle.clk_base.specs.declared.call.Sleeping.TheVariants.{Sweep};
ghost use Rattle.clk_base.specs.declared.event.Event.TheVariants.{Begin, Step};
ghost use Rattle.clk_base.specs.declared.event.Turn.TheVariants.{Going};
ghost use Rattle.clk_base.specs.Fields.{gate_of};
ghost use Rattle.clk_base.specs.Flags.{ignores_unused};
ghost use Rattle.clk_base.specs.Places.{places};
ghost use Rattle.clk_model.specs.Begin.{most_credits};
ghost use Rattle.clk_model.specs.Gates.{follow};
ghost use Rattle.clk_model.specs.Holders.{prepared};
ghost use Rattle.clk_model.specs.Journal.{is_going};
ghost use Rattle.clk_model.specs.Script.{lets_through, plls, runs, sweep_script};
ghost use Rattle.clk_flight.specs.LeftOver.{step_weight};
ghost use Rattle.core_parts.specs.Listed.{rows_from};
ghost use Rattle.clk_model.specs.State.{State, registered};
ghost use Rattle.clk_flight.specs.Flights.{own_step};
ghost use Rattle.clk_machine.specs.Holding.{stays};
ghost use Rattle.core_parts.specs.InFlight.{is_script};
ghost use Rattle.clk_machine.specs.Making.{ComesFirst};
ghost use Rattle.clk_machine.specs.Kinds.{is_answer_to};
ghost use Rattle.clk_machine.specs.Parts.{IsWhole, steps_left};
ghost use Rattle.clk_machine.specs.Stands.{Enters, Stands};
ghost use Rattle.clk_machine.specs.Starting.{StartsCall};
ghost use Rattle.clk_machine.specs.Sweeping.{Adds, closes, unpowers, close_steps, unpower_steps};

use super::Machine;
use crate::log::Log;
use bitflags::Flags;
use clk_base::{ClkFlags, ClockId, Errno, Kind, Micro, Reply, Sleeping, Turn};
use clk_flight::Start;
use clk_io::NoMemory;
use core_parts::{Window, close_gate, fits, is_open, is_running, set_power};
use reg_bank::Bank;
use unused_sweep::{push_close, sweep_order};

// Whether a clock is to be switched off that is passed over or isn't, is on or off, and is held or isn't.
fn is_idle(passed_over: bool, on: bool, held: bool) -> bool
    ensures { result ≡ (not passed_over && on && not held) }
{
    !passed_over && on && !held
}

// Closes a gate where its clock isn't active. A clock of another kind has none.
fn close_unless<B: Bank>(active: bool, kind: Kind, window: &mut Window<B>)
    requires { IfSome (gate_of kind) (λ gate. (gate.word < window.old.size) × (gate.bit < 32)) }
    ensures size { window.new.size ≡ window.old.size }
    ensures words { window.new.words ≡ option_map (λ regs. option_map_or (follow regs true active) (gate_of kind) regs) window.old.words }
    ensures behind { window.new.behind ≡ window.old.behind }
    ensures locks { window.new.locks ≡ window.old.locks }
{
    if !active {
        close_gate(kind, window);
    }
}

/// The clock of an order at a place.
pub(super) fn clock_at(order: &[ClockId], place: usize) -> ClockId
    requires { place < length order.now }
    ensures { slice_get order.now place ≡ Some result }
{
    order[place]
}

impl<B: Bank> Machine<B> {
    // Whether the sweep passes a clock over.
    fn ignores_unused(&self, clock: ClockId) -> bool
        requires { registered self.now.tree.clocks clock.0 ≡ true }
        ensures told { (s : State) → Stands self.now s → result ≡ ignores_unused s.defs clock.0 }
        ensures whole { IsWhole self.now }
    {
        Flags::contains(&self.tree.def(clock).flags, ClkFlags::IGNORE_UNUSED)
    }

    // Whether a clock has a gate that is open.
    fn lets_through(&self, clock: ClockId) -> bool
        requires { registered self.now.tree.clocks clock.0 ≡ true }
        ensures { (s : State) → Stands self.now s → result ≡ lets_through s.defs s.regs clock.0 }
    {
        is_open(self.tree.def(clock).kind, &self.window)
    }

    // Whether a clock is a PLL that is powered.
    fn is_powered(&self, clock: ClockId) -> bool
        requires { registered self.now.tree.clocks clock.0 ≡ true }
        ensures { (s : State) → Stands self.now s → result ≡ runs s.defs s.regs clock.0 }
    {
        is_running(self.tree.def(clock).kind, &self.window)
    }

    /// Whether something keeps a clock prepared.
    pub(super) fn is_prepared(&self, clock: ClockId) -> bool
        requires { registered self.now.tree.clocks clock.0 ≡ true }
        ensures { (s : State) → Stands self.now s → result ≡ prepared s clock.0 }
    {
        self.counts.prepared(clock) > 0
    }

    // Whether the sweep closes a clock's gate.
    fn closes(&self, clock: ClockId) -> bool
        requires { registered self.now.tree.clocks clock.0 ≡ true }
        ensures { (s : State) → Stands self.now s → result ≡ closes s clock.0 }
    {
        let passed_over = self.ignores_unused(clock);
        let open = self.lets_through(clock);
        let held = self.is_active(clock);
        is_idle(passed_over, open, held)
    }

    // Whether the sweep switches a PLL off.
    fn unpowers(&self, clock: ClockId) -> bool
        requires { registered self.now.tree.clocks clock.0 ≡ true }
        ensures { (s : State) → Stands self.now s → result ≡ unpowers s clock.0 }
    {
        let passed_over = self.ignores_unused(clock);
        let powered = self.is_powered(clock);
        let held = self.is_prepared(clock);
        is_idle(passed_over, powered, held)
    }

    // The steps that close a clock's gate are added, if the sweep closes it.
    fn push_close(&self, steps: &mut Vec<Micro>, clock: ClockId) -> Result<(), NoMemory>
        requires { registered self.now.tree.clocks clock.0 ≡ true }
        ensures { IfOk result (λ done. Adds self.now (close_steps self.now) closes (places (clock ∷ [])) steps.old.items steps.new.items) }
    {
        if self.closes(clock) {
            push_close(steps, &self.tree, clock)?;
        }
        Ok(())
    }

    // The step that switches a PLL off is added, if the sweep does so.
    fn push_unpower(&self, steps: &mut Vec<Micro>, clock: ClockId) -> Result<(), NoMemory>
        requires { registered self.now.tree.clocks clock.0 ≡ true }
        ensures { IfOk result (λ done. Adds self.now unpower_steps unpowers (places (clock ∷ [])) steps.old.items steps.new.items) }
    {
        if self.unpowers(clock) {
            steps.push(Micro::Unpower(clock))?;
        }
        Ok(())
    }

    // The steps that close gates of an order of clocks are added.
    fn push_closes(&self, steps: &mut Vec<Micro>, order: &[ClockId]) -> Result<(), NoMemory>
        requires { list_all (registered self.now.tree.clocks) (places order.now) ≡ true }
        ensures { IfOk result (λ done. Adds self.now (close_steps self.now) closes (places order.now) steps.old.items steps.new.items) }
    {
        for place in 0..order.len() {
            self.push_close(steps, clock_at(order, place))?;
        }
        Ok(())
    }

    // The steps that switch PLLs of an order of clocks off are added.
    fn push_unpowers(&self, steps: &mut Vec<Micro>, order: &[ClockId]) -> Result<(), NoMemory>
        requires { list_all (registered self.now.tree.clocks) (places order.now) ≡ true }
        ensures { IfOk result (λ done. Adds self.now unpower_steps unpowers (places order.now) steps.old.items steps.new.items) }
    {
        for place in 0..order.len() {
            self.push_unpower(steps, clock_at(order, place))?;
        }
        Ok(())
    }

    // The script of the sweep.
    fn sweep_steps(&self) -> Result<Vec<Micro>, NoMemory>
        ensures script { IfOk result (λ steps. is_script Sweep (registered self.now.tree.clocks) steps.items ≡ true) }
        ensures told { (s : State) → Stands self.now s → IfOk result (λ steps. steps.items ≡ sweep_script s) }
        ensures whole { IsWhole self.now }
    {
        let order = sweep_order(self.alloc, &self.tree)?;
        let mut steps = Vec::new(self.alloc);
        self.push_closes(&mut steps, order.as_slice())?;
        self.push_unpowers(&mut steps, order.as_slice())?;
        steps.push(Micro::End)?;
        Ok(steps)
    }

    // The sweep goes on with its script. All memory that it needs is taken.
    fn start_sweep(&mut self, driver: u32, steps: Vec<Micro>) -> Result<(), NoMemory>
        requires credit { self.old.spent < self.old.credits }
        requires quiet { self.old.flight.going ≡ false }
        requires script { is_script Sweep (registered self.old.tree.clocks) steps.items ≡ true }
        requires room { self.old.credits + self.old.steps
            + sum_by (step_weight (rows_from 0 self.old.chains) (plls self.old.desc.defs)) steps.items ≤ most_credits }
        ensures ok { OnOk result (StartsCall self.old driver Sweep steps.items stays self.new) }
        ensures err { OnErr result (self.new ≡ self.old) }
    {
        let start = Start {
            driver,
            call: Sleeping::Sweep,
            script: steps,
            range: None,
            extra: 0,
            vetoed: false,
        };
        self.flight.begin(start, self.tree.plls())?;
        self.spent += 1;
        Ok(())
    }

    /// Begins the sweep: at once where it is switched off, and else it goes on, with room in the log
    /// for the entries of its steps, unless there is none after the credits and the steps so far.
    pub(crate) fn begin_sweep(&mut self, log: &mut Log, driver: u32) -> Result<Turn, NoMemory>
        requires credit { self.old.spent < self.old.credits }
        requires quiet { self.old.flight.going ≡ false }
        requires paid { self.old.credits ≤ self.old.spent + log.old.room }
        ensures ok { IfOk result (λ turn. Enters self.old driver (Begin Sweep) turn self.new) }
        ensures kind { IfOk result (λ turn. is_answer_to (Begin Sweep) turn ≡ true) }
        ensures room { IfOk result (λ turn. is_going turn ≡ true → self.old.credits + steps_left self.new ≤ self.old.spent + log.new.room) }
        ensures entries { log.new.entries ≡ log.old.entries }
        ensures kept { log.old.room ≤ log.new.room }
        ensures err { OnErr result (self.new ≡ self.old) }
    {
        if self.ignore_unused {
            self.spend();
            return Ok(Turn::Done(Reply::Fine));
        }
        let steps = self.sweep_steps()?;
        let weight = self.weigh(steps.as_slice());
        if !fits(self.used(), weight) {
            self.spend();
            return Ok(Turn::Done(Reply::Refused(Errno::ENOSPC)));
        }
        log.make_room(self.credits_left(), weight)?;
        self.start_sweep(driver, steps)?;
        Ok(Turn::Going)
    }

    /// The gate of a clock closes, where nothing keeps the clock active.
    pub(super) fn close(&mut self, clock: ClockId)
        requires going { self.old.flight.going ≡ true }
        requires next { own_step self.old.flight ≡ Some (micro.Close clock) }
        requires first { ComesFirst self.old (micro.Close clock) }
        ensures { Enters self.old self.old.flight.driver (Step (micro.Close clock) None) Going self.new }
    {
        let active = self.is_active(clock);
        close_unless(active, self.tree.def(clock).kind, &mut self.window);
        self.flight.go_on();
        self.steps += 1;
    }

    /// A PLL is switched off.
    pub(super) fn unpower(&mut self, clock: ClockId)
        requires going { self.old.flight.going ≡ true }
        requires next { own_step self.old.flight ≡ Some (micro.Unpower clock) }
        requires first { ComesFirst self.old (micro.Unpower clock) }
        ensures { Enters self.old self.old.flight.driver (Step (micro.Unpower clock) None) Going self.new }
    {
        set_power(self.tree.def(clock).kind, &mut self.window, false);
        self.flight.go_on();
        self.steps += 1;
    }
}
