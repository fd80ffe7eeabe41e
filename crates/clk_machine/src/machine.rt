//! The state of the machine, kept in parts.

ghost use Rattle.std.specs.Prelude.{◌≡◌, ℕ, ◌+◌, ◌<◌, ◌≤◌, true, false, None, length, is_some, IfSome, IfOk, IsOk, OnErr, Some};
ghost use Rattle.clk_base.specs.Valid.{IsValid};
ghost use Rattle.clk_model.specs.State.{State, registered, handle_at};
ghost use Rattle.clk_model.specs.Journal.{is_going, opening};
ghost use Rattle.clk_model.specs.Begin.{most_credits};

mod adopting;
mod asking;
mod beginning;
mod calls;
mod changing;
mod changing_along;
mod deciding;
mod enabling;
mod exclusives;
mod getting_along;
mod going_along;
mod holding;
mod holds;
mod landing;
mod lowering;
mod moving;
mod notifying;
mod notifying_along;
mod probing;
mod ranging;
mod readying;
mod registering;
mod reparenting;
mod rows;
mod setting_out;
mod starting;
mod stepping;
mod sweeping;
mod sweeping_along;
mod telling;
mod visiting;

use crate::change::change_of;
use crate::log::Log;
pub(crate) use beginning::is_asking;
use clk_base::{Handle, Sleeping, Turn, ValidDesc};
use clk_flight::Flight;
use clk_io::NoMemory;
use clk_model::HandleRow;
use clk_tree::Tree;
use core_parts::{Course, Draft, Held, Window, no_holds, nobody};
use counts_core::Counts;
use notifiers::Notifiers;
use rate_requests::Requests;
use reg_bank::Bank;
use std::alloc::Global;
use std::marker::Model;

/// The machine without its journal, seen by contracts as its parts. They stand for a state of the
/// definitions.
#[derive(Drop)]
pub(crate) struct Machine<B: Bank> {
    window: Window<B>,
    tree: Tree,
    handles: Requests,
    counts: Counts,
    notifiers: Notifiers,
    credits: u32,
    spent: u32,
    ignore_unused: bool,
    flight: Flight,
    course: Course,
    prepare_holds: Held,
    enable_holds: Held,
    alloc: Global,
    /// How many steps were made.
    steps: u32,
}

impl<B: Bank> Model for Machine<B> {
    ghost use Rattle.clk_machine.specs.Parts.{Parts, parts_of, IsWhole};

    ghost Value = { Parts };

    ghost view = { λ m. parts_of m.window m.tree m.handles m.counts m.notifiers m.credits m.spent m.ignore_unused m.flight m.course
        m.prepare_holds m.enable_holds m.steps };

    ghost invariant = { λ m. IsWhole (parts_of m.window m.tree m.handles m.counts m.notifiers m.credits m.spent m.ignore_unused m.flight
        m.course m.prepare_holds m.enable_holds m.steps) };
}

impl<B: Bank> Machine<B> {
    ghost use Rattle.clk_base.specs.declared.event.Event.TheVariants.{Begin};
    ghost use Rattle.clk_machine.specs.Sound.{IsPlaced, takes_memory};
    ghost use Rattle.clk_machine.specs.Kinds.{is_answer_to};
    ghost use Rattle.clk_machine.specs.Memory.{NeedsMemory};
    ghost use Rattle.clk_machine.specs.Parts.{Parts, own_in, steps_left, IsWhole};
    ghost use Rattle.clk_machine.specs.Holding.{stays};
    ghost use Rattle.clk_machine.specs.Stands.{Stands, is_told, nothing, Becomes, Enters};
    ghost use Rattle.core_parts.specs.Window.{behind_of};

    /// The machine at its opening. The words are written to the bank.
    pub(crate) fn create(
        alloc: Global,
        desc: ValidDesc,
        bank: B,
        words: &[u32],
        ignore_unused: bool,
        credits: u32,
    ) -> Result<Machine<B>, NoMemory>
        requires words { length words.now ≡ desc.words }
        requires bank { length words.now ≤ B.size bank }
        requires credits { credits ≤ most_credits }
        ensures told { IfOk result (λ m. is_told m ≡ is_some (B.contents bank)) }
        ensures stands { IfOk result (λ m. is_told m ≡ true → Stands m (opening desc.defs words.now ignore_unused credits)) }
        ensures fixed { IfOk result (λ m. (m.desc ≡ desc) × (m.credits ≡ credits) × (m.ignore_unused ≡ ignore_unused) × (m.spent ≡ 0)) }
        ensures quiet { IfOk result (λ m. m.flight.going ≡ false) }
        ensures none { IfOk result (λ m. (c : ℕ) → registered m.tree.clocks c ≡ false) }
        ensures size { IfOk result (λ m. m.window.size ≡ length words.now) }
        ensures behind { IfOk result (λ m. m.window.behind ≡ behind_of (length words.now) (B.contents bank) (B.lock bank)) }
        ensures valid { IsValid (length words.now) desc.defs }
    {
        let tree = Tree::create(alloc, &desc)?;
        let lists = nobody(alloc, &desc)?;
        let holds = no_holds(alloc, desc.len())?;
        let window = Window::create(bank, words);
        let flight = Flight::create(alloc);
        let course = Course::none(alloc);
        Ok(Machine {
            window,
            tree,
            handles: lists.0,
            counts: lists.1,
            notifiers: lists.2,
            credits,
            spent: 0,
            ignore_unused,
            flight,
            course,
            prepare_holds: holds.0,
            enable_holds: holds.1,
            alloc,
            steps: 0,
        })
    }

    // Spends a credit, and nothing else.
    fn spend(&mut self)
        requires { self.old.spent < self.old.credits }
        ensures { Becomes self.old nothing stays self.new }
    {
        self.spent += 1;
    }

    // The row of a driver's own live handle.
    pub(super) fn own(&self, driver: u32, handle: Handle) -> Option<HandleRow>
        ensures row { own_in self.now.table.handles driver handle.number ≡ result }
        ensures live { IfSome result (λ row. handle_at self.now.table.handles handle.number ≡ Some row) }
        ensures whole { IsWhole self.now }
    {
        if self.handles.live(driver, handle) {
            Some(self.handles.of(handle))
        } else {
            None
        }
    }

    /// Begins a call, with room in the log for the entries of its steps.
    pub(crate) fn begin(
        &mut self,
        draft: &mut Draft,
        log: &mut Log,
        driver: u32,
        what: Sleeping,
    ) -> Result<Turn, NoMemory>
        requires credit { self.old.spent < self.old.credits }
        requires quiet { self.old.flight.going ≡ false }
        requires place { IsPlaced self.old.desc.defs what }
        requires paid { self.old.credits ≤ self.old.spent + log.old.room }
        ensures ok { IfOk result (λ turn. Enters self.old driver (Begin what) turn self.new) }
        ensures kind { IfOk result (λ turn. is_answer_to (Begin what) turn ≡ true) }
        ensures room { IfOk result (λ turn. is_going turn ≡ true → self.old.credits + steps_left self.new ≤ self.old.spent + log.new.room) }
        ensures entries { log.new.entries ≡ log.old.entries }
        ensures kept { log.old.room ≤ log.new.room }
        ensures err { OnErr result (self.new ≡ self.old) }
        ensures memory { takes_memory what ≡ false → IsOk result }
        ensures needs { OnErr result ((s : State) → Stands self.old s → NeedsMemory s driver what) }
    {
        if let Some(change) = change_of(what) {
            return self.begin_change(draft, log, driver, change);
        }
        match what {
            Sleeping::Sweep => self.begin_sweep(log, driver),
            Sleeping::Probe(clock) => self.begin_probe(log, driver, clock),
            Sleeping::Prepare(handle) => self.begin_prepare(log, driver, handle),
            Sleeping::Unprepare(handle) => self.begin_unprepare(log, driver, handle),
            Sleeping::Get(found) => Ok(Turn::Done(self.get(driver, found)?)),
            Sleeping::Put(handle) => Ok(Turn::Done(self.put(driver, handle))),
            Sleeping::ExclusiveGet(handle) => Ok(Turn::Done(self.exclusive_get(driver, handle))),
            Sleeping::ExclusivePut(handle) => Ok(Turn::Done(self.exclusive_put(driver, handle))),
            Sleeping::NotifierAdd(handle, id, priority, policy) => {
                let reply = self.notifier_add(driver, handle, id, priority, policy)?;
                Ok(Turn::Done(reply))
            }
            Sleeping::NotifierRemove(handle, id) => {
                Ok(Turn::Done(self.notifier_remove(driver, handle, id)))
            }
            _ => Ok(Turn::Done(self.asked(driver, what))),
        }
    }
}
