//! What a registration lets adopt.

ghost use Rattle.std.specs.Prelude.{◌≡◌, ◌<◌, ◌∷◌, [], true, false, length, slice_get, IfOk, IfSome, OnOk, Some};
ghost use Rattle.std.specs.List.{list_all};
ghost use Rattle.std.specs.Option.{option_map};
ghost use Rattle.clk_base.specs.Description.{parents_of};
ghost use Rattle.clk_base.specs.Places.{places};
ghost use Rattle.clk_model.specs.Begin.{register};
ghost use Rattle.clk_model.specs.Holders.{prepared};
ghost use Rattle.clk_model.specs.Lists.{is_in};
ghost use Rattle.clk_model.specs.State.{State, registered};
ghost use Rattle.clk_model.specs.Tree.{link_given, path_to_be};
ghost use Rattle.clk_machine.specs.Adopting.{adopted, is_beside, Adopts, AreProbeSteps};
ghost use Rattle.clk_machine.specs.Parts.{IsWhole};
ghost use Rattle.clk_machine.specs.Sound.{IsSound};
ghost use Rattle.clk_machine.specs.Stands.{Stands};

use super::Machine;
use super::sweeping::clock_at;
use clk_base::{ClockId, Micro, depth};
use clk_io::NoMemory;
use core_parts::{is_among, is_held, push_adoption_by, push_registration};
use orphans::{adoptable_in, link_beside, read_link};
use reg_bank::Bank;

impl<B: Bank> Machine<B> {
    /// The orphans that are adopted behind the registration of a clock, in their order.
    pub(super) fn adopted(&self, new: ClockId) -> Result<Vec<ClockId>, NoMemory>
        requires place { new.0 < length self.now.desc.defs }
        requires free { registered self.now.tree.clocks new.0 ≡ false }
        ensures told { (s : State) → Stands self.now s → IfOk result (λ list. places list.items ≡ adopted (register s new.0)) }
        ensures there { IfOk result (λ list. list_all (registered self.now.tree.clocks) (places list.items) ≡ true) }
        ensures whole { IsWhole self.now }
    {
        adoptable_in(self.alloc, &self.tree, self.window.bank(), new)
    }

    // The parent that a registered clock is given behind the registration of another.
    fn parent_beside(&self, new: ClockId, clock: ClockId) -> Option<ClockId>
        requires place { new.0 < length self.now.desc.defs }
        requires there { registered self.now.tree.clocks clock.0 ≡ true }
        ensures told { (s : State) → Stands self.now s
            → option_map (λ p. p.0) result ≡ link_given (register s new.0).defs (register s new.0).regs (register s new.0).clocks clock.0 }
        ensures possible { IfSome result (λ p. is_in p.0 (parents_of self.now.desc.defs clock.0) ≡ true) }
        ensures beside { IfSome result (λ p. is_beside self.now new.0 p.0 ≡ true) }
        ensures whole { IsWhole self.now }
    {
        link_beside(&self.tree, self.window.bank(), new, clock)
    }

    // Whether a clock stands above one that isn't registered yet.
    fn is_above(&self, new: ClockId, clock: ClockId) -> bool
        requires place { new.0 < length self.now.desc.defs }
        requires free { registered self.now.tree.clocks new.0 ≡ false }
        requires there { registered self.now.tree.clocks clock.0 ≡ true }
        ensures { (s : State) → Stands self.now s → result ≡ is_in clock.0 (path_to_be s.defs s.regs s.clocks new.0) }
    {
        match read_link(&self.tree, self.window.bank(), new) {
            Some(parent) => is_among(depth(), &self.tree, parent, clock),
            None => false,
        }
    }

    // Whether a registered clock is prepared behind the registration of another.
    fn is_prepared_beside(&self, new: ClockId, clock: ClockId) -> bool
        requires quiet { self.now.flight.going ≡ false }
        requires place { new.0 < length self.now.desc.defs }
        requires free { registered self.now.tree.clocks new.0 ≡ false }
        requires there { registered self.now.tree.clocks clock.0 ≡ true }
        ensures { (s : State) → Stands self.now s → IsSound self.now.window.size s → result ≡ prepared (register s new.0) clock.0 }
    {
        let prepared = self.is_prepared(clock);
        let critical = self.is_critical(new);
        let above = self.is_above(new, clock);
        is_held(prepared, critical, above)
    }

    // The steps that adopt an orphan behind the registration of a clock, behind these.
    fn push_adoption(
        &self,
        steps: &mut Vec<Micro>,
        new: ClockId,
        orphan: ClockId,
    ) -> Result<(), NoMemory>
        requires quiet { self.now.flight.going ≡ false }
        requires place { new.0 < length self.now.desc.defs }
        requires free { registered self.now.tree.clocks new.0 ≡ false }
        requires there { registered self.now.tree.clocks orphan.0 ≡ true }
        ensures { OnOk result (Adopts self.now new.0 (places (orphan ∷ [])) steps.old.items steps.new.items) }
    {
        let Some(parent) = self.parent_beside(new, orphan) else {
            return Ok(());
        };
        let prepared = self.is_prepared_beside(new, orphan);
        push_adoption_by(steps, orphan, parent, prepared)?;
        Ok(())
    }

    /// The steps that adopt these orphans behind the registration of a clock, behind these.
    pub(super) fn push_adoptions(
        &self,
        steps: &mut Vec<Micro>,
        new: ClockId,
        orphans: &[ClockId],
    ) -> Result<(), NoMemory>
        requires quiet { self.now.flight.going ≡ false }
        requires place { new.0 < length self.now.desc.defs }
        requires free { registered self.now.tree.clocks new.0 ≡ false }
        requires there { list_all (registered self.now.tree.clocks) (places orphans.now) ≡ true }
        ensures { OnOk result (Adopts self.now new.0 (places orphans.now) steps.old.items steps.new.items) }
    {
        for place in 0..orphans.len() {
            self.push_adoption(steps, new, clock_at(orphans, place))?;
        }
        Ok(())
    }

    // No steps.
    pub(super) fn no_steps(&self) -> Vec<Micro>
        ensures { result.items ≡ [] }
    {
        Vec::new(self.alloc)
    }

    /// The script of the registration of a clock behind which these orphans are adopted.
    pub(super) fn probe_steps(
        &self,
        new: ClockId,
        orphans: &[ClockId],
    ) -> Result<Vec<Micro>, NoMemory>
        requires quiet { self.now.flight.going ≡ false }
        requires place { new.0 < length self.now.desc.defs }
        requires free { registered self.now.tree.clocks new.0 ≡ false }
        requires there { list_all (registered self.now.tree.clocks) (places orphans.now) ≡ true }
        ensures { IfOk result (λ steps. AreProbeSteps self.now new (places orphans.now) steps.items) }
    {
        let mut steps = self.no_steps();
        let critical = self.is_critical(new);
        push_registration(&mut steps, new, critical)?;
        self.push_adoptions(&mut steps, new, orphans)?;
        steps.push(Micro::End)?;
        Ok(steps)
    }
}
