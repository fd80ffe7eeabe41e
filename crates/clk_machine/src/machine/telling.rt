//! What the machine tells of itself.

ghost use Rattle.std.specs.Prelude.{◌≡◌, ◌+◌, ◌^◌, ◌<◌, ◌≤◌, false, not, length, is_some, take, drop, slice_index, IfSome};
ghost use Rattle.std.specs.Option.{option_map};
ghost use Rattle.clk_model.specs.State.{State, is_quiet};
ghost use Rattle.core_parts.specs.Window.{delays_in, locks_of};
ghost use Rattle.clk_machine.specs.Parts.{IsWhole};
ghost use Rattle.clk_machine.specs.Row.{IsTreeOf};
ghost use Rattle.clk_machine.specs.Stands.{Stands, is_told};

use super::Machine;
use clk_base::ValidDesc;
use clk_tree::Tree;
use reg_bank::Bank;
use std::alloc::Global;

impl<B: Bank> Machine<B> {
    /// The description.
    pub(crate) fn desc(&self) -> &ValidDesc
        ensures desc { result.now ≡ self.now.desc }
        ensures whole { IsWhole self.now }
    {
        self.tree.desc()
    }

    /// The tree with its kept rates.
    pub(crate) fn tree(&self) -> &Tree
        ensures made { result.now.defs ≡ self.now.desc.defs }
        ensures tree { (s : State) → Stands self.now s → IsTreeOf s result.now }
    {
        &self.tree
    }

    /// Whether no change is in flight.
    pub(crate) fn is_quiet(&self) -> bool
        ensures tells { (s : State) → Stands self.now s → result ≡ is_quiet s.change }
        ensures going { result ≡ not self.now.flight.going }
        ensures whole { IsWhole self.now }
    {
        !self.flight.going()
    }

    /// The driver whose call is in flight.
    pub(crate) fn driver(&self) -> u32
        ensures driver { result ≡ self.now.flight.driver }
        ensures paid { self.now.spent ≤ self.now.credits }
    {
        self.flight.driver()
    }

    /// The parts keep what they keep.
    pub(crate) fn keep(&self)
        ensures { IsWhole self.now }
    {
        let _ = &self.tree;
    }

    /// How many credits are left.
    pub(crate) fn credits_left(&self) -> u32
        ensures { result + self.now.spent ≡ self.now.credits }
    {
        self.credits - self.spent
    }

    /// How many credits there were.
    pub(crate) fn credits(&self) -> u32
        ensures credits { result ≡ self.now.credits }
        ensures whole { IsWhole self.now }
    {
        self.credits
    }

    /// Whether the sweep leaves the unused clocks alone.
    pub(crate) fn ignore_unused(&self) -> bool
        ensures { result ≡ self.now.ignore_unused }
    {
        self.ignore_unused
    }

    /// Where its memory is taken from.
    pub(crate) fn alloc(&self) -> Global {
        self.alloc
    }

    /// How many words the registers are.
    pub(crate) fn word_count(&self) -> usize
        ensures size { result ≡ self.now.window.size }
        ensures registers { (s : State) → Stands self.now s → length s.regs ≡ self.now.window.size }
    {
        self.window.len()
    }

    /// The word at this place.
    pub(crate) fn word(&self, place: usize) -> u32
        requires { place < self.now.window.size }
        ensures { (s : State) → Stands self.now s → result ≡ slice_index s.regs place }
    {
        self.window.word(place)
    }

    /// The bank.
    pub(crate) fn into_bank(self) -> B
        ensures words { option_map (take self.window.size) (B.contents result) ≡ self.window.words }
        ensures behind { option_map (drop self.window.size) (B.contents result) ≡ self.window.behind.words }
        ensures delays { delays_in (locks_of (B.lock result)) ≡ self.window.behind.delays }
    {
        let Machine {
            window,
            tree: _,
            handles: _,
            counts: _,
            notifiers: _,
            credits: _,
            spent: _,
            ignore_unused: _,
            flight: _,
            course: _,
            prepare_holds: _,
            enable_holds: _,
            alloc: _,
            steps: _,
        } = self;
        window.into_bank()
    }
}
