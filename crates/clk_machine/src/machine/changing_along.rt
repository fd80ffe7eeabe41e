//! What a change of rate or parent goes on with, made before it begins. Beginning with it takes no memory.

ghost use Rattle.std.specs.Prelude.{◌≡◌, ◌<◌, true, false, Some, IfOk, OnOk, OnErr};
ghost use Rattle.clk_machine.specs.Beginning.{AllGoOn};
ghost use Rattle.clk_machine.specs.ChangeCalls.{call_of};
ghost use Rattle.clk_machine.specs.Changing.{course_of};
ghost use Rattle.clk_machine.specs.ChangingAlong.{Changes, SetsAlong, range_of, set_along};
ghost use Rattle.clk_machine.specs.Parts.{IsOwnCall, IsWhole};
ghost use Rattle.clk_machine.specs.Readied.{scripted_of};
ghost use Rattle.clk_machine.specs.SettingOut.{NeverGoes};

use super::Machine;
use crate::change::{ChangeCall, Wanted};
use clk_flight::{Flight, Start};
use clk_io::NoMemory;
use clk_tree::{Plan, PlannedChain, WalkRates};
use core_parts::{Draft, Verdict};
use reg_bank::Bank;
use std::alloc::Global;
use std::mem::swap;

// A plan that says the same.
fn copy_of(alloc: Global, plan: &Plan) -> Result<Plan, NoMemory>
    ensures { IfOk result (λ made. made ≡ plan.now) }
{
    let chain = Vec::from_slice(alloc, plan.chain.as_slice())?;
    let rates = Vec::from_slice(alloc, plan.rates.as_slice())?;
    Ok(Plan {
        chain: PlannedChain::new(chain),
        rates: WalkRates::new(rates),
        set_parent: plan.set_parent,
    })
}

impl<B: Bank> Machine<B> {
    // The range in Hz that a handle has before a call that sets one.
    fn range_of(&self, driver: u32, change: ChangeCall) -> Option<(u64, u64)>
        requires { IsOwnCall self.now.table.handles driver (call_of change) }
        ensures { result ≡ range_of self.now driver (call_of change) }
    {
        match change.wanted {
            Wanted::Range(_, _) => {
                let row = self.known(driver, change.handle);
                Some((row.min, row.max))
            }
            _ => None,
        }
    }

    // Has the flight of a change begin with the script that the draft has.
    fn fly_along(
        &self,
        flight: &mut Flight,
        draft: &mut Draft,
        driver: u32,
        change: ChangeCall,
    ) -> Result<(), NoMemory>
        requires { IsOwnCall self.now.table.handles driver (call_of change) }
        ensures ok { OnOk result (SetsAlong self.now driver (call_of change) (scripted_of draft.old) flight.new) }
        ensures course { course_of draft.new ≡ course_of draft.old }
        ensures err { OnErr result (flight.new ≡ flight.old) }
        ensures whole { IsWhole self.now }
    {
        let start = Start {
            driver,
            call: change.call(),
            script: draft.script.take_steps(self.alloc),
            range: self.range_of(driver, change),
            extra: draft.script.extra() as usize,
            vetoed: draft.script.vetoed(),
        };
        let before = flight.begin(start, self.tree.plls())?;
        draft.script.keep_memory(before);
        Ok(())
    }

    /// What a change of rate or parent goes on with, if it does: its flight, and its course in the draft.
    pub(crate) fn ready_change(
        &self,
        flight: &mut Flight,
        draft: &mut Draft,
        driver: u32,
        change: ChangeCall,
    ) -> Result<(), NoMemory>
        requires machine { self.now.flight.going ≡ false }
        requires quiet { flight.old.going ≡ false }
        ensures ready { OnOk result (flight.new.going ≡ true → Changes self.now driver (call_of change) flight.new (course_of draft.new)) }
        ensures never { OnOk result (flight.new.going ≡ false → NeverGoes self.now driver (call_of change)) }
        ensures err { OnErr result (flight.new ≡ flight.old) }
    {
        if self.credits_left() == 0 {
            return Ok(());
        }
        let verdict = self.ready(draft, driver, change)?;
        match verdict {
            Verdict::Refused(_) => Ok(()),
            Verdict::AtOnce => Ok(()),
            Verdict::Change => self.fly_along(flight, draft, driver, change),
        }
    }

    /// What a change of rate or parent goes on with that was decided to go on with this plan. Nothing is
    /// rounded or planned here: its script is made from the plan.
    pub(crate) fn ready_decided(
        &self,
        flight: &mut Flight,
        draft: &mut Draft,
        driver: u32,
        change: ChangeCall,
        plan: &Plan,
    ) -> Result<(), NoMemory>
        requires machine { self.now.flight.going ≡ false }
        requires quiet { flight.old.going ≡ false }
        requires decided { AllGoOn self.now driver (call_of change) plan.now }
        ensures ready { OnOk result (flight.new.going ≡ true → Changes self.now driver (call_of change) flight.new (course_of draft.new)) }
        ensures never { OnOk result (flight.new.going ≡ false → NeverGoes self.now driver (call_of change)) }
        ensures err { OnErr result (flight.new ≡ flight.old) }
    {
        if self.credits_left() == 0 {
            return Ok(());
        }
        draft.planning.plan = copy_of(self.alloc, plan)?;
        let verdict = self.ready_planned(draft, driver, change)?;
        match verdict {
            Verdict::Refused(_) => Ok(()),
            Verdict::AtOnce => Ok(()),
            Verdict::Change => self.fly_along(flight, draft, driver, change),
        }
    }

    /// A change of rate or parent begins with what was made for it.
    pub(crate) fn set_along(&mut self, flight: &mut Flight, draft: &mut Draft)
        requires { IsWhole (set_along self.old flight.old (course_of draft.old)) }
        ensures parts { self.new ≡ set_along self.old flight.old (course_of draft.old) }
        ensures before { flight.new ≡ self.old.flight }
    {
        swap(&mut self.flight, flight);
        self.course
            .begin(&mut draft.planning.plan.chain, &mut draft.told);
        self.spent += 1;
    }
}
