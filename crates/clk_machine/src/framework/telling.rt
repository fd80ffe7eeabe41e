//! What a core tells of itself.

ghost use Rattle.std.specs.Prelude.{◌≡◌, ℕ, ◌+◌, ◌<◌, ◌≤◌, true, not, length, take, is_some, slice_index};
ghost use Rattle.clk_base.specs.Valid.{IsValid};
ghost use Rattle.clk_model.specs.Begin.{most_credits};
ghost use Rattle.clk_model.specs.Fed.{Fed};
ghost use Rattle.clk_model.specs.Journal.{replay, Legal, Polled, cost};
ghost use Rattle.clk_model.specs.Laws.Paced.{left_of};
ghost use Rattle.clk_model.specs.State.{is_quiet};
ghost use Rattle.core_parts.specs.Window.{HasDelays};
ghost use Rattle.clk_machine.specs.Lawful.{KeepsLaws};
ghost use Rattle.clk_machine.specs.Row.{IsRowOf, IsTreeOf};
ghost use Rattle.clk_machine.specs.Run.{in_flight, now_of, was_registered};

use super::Core;
use crate::row::Row;
use clk_base::{ClockId, Entry, ValidDesc};
use clk_tree::Tree;
use reg_bank::Bank;

impl<B: Bank> Core<B> {
    /// The entries so far. After each prefix of them, the clocks that are active are fed.
    pub fn journal(&self) -> &[Entry]
        // These are the entries.
        ensures entries { result.now ≡ self.now.journal }
        // Where the bank tells its words, they are a legal run from the opening.
        ensures legal { self.now.told ≡ true → Legal self.now.start self.now.journal }
        // Where the bank tells its words and its locks, each poll among them is answered by the delay of its PLL,
        // counted from the last raise on.
        ensures polled { self.now.told ≡ true → (delay : ℕ → ℕ) → HasDelays self.now.behind.delays delay → Polled delay self.now.journal }
        // Where the bank tells its words, after each prefix of them each active clock is fed.
        ensures fed { self.now.told ≡ true → (n : ℕ) → Fed (replay self.now.start (take n self.now.journal)) }
        // And they keep the laws of journals: rates that are held exclusively, what each call writes and tells, and
        // that vetoes and timeouts leave nothing.
        ensures laws { self.now.told ≡ true → KeepsLaws self.now.start self.now.journal }
    {
        self.log.as_slice()
    }

    /// The description.
    pub fn desc(&self) -> &ValidDesc
        // It is that of the opening.
        ensures defs { result.now.defs ≡ self.now.start.defs }
        // It was checked for as many words as the opening has.
        ensures words { result.now.words ≡ length self.now.start.regs }
        // For so many it is valid.
        ensures valid { IsValid (length self.now.start.regs) self.now.start.defs }
    {
        self.machine.desc()
    }

    /// The clock tree: links, the order of attachment, and the kept rates in Hz.
    pub fn tree(&self) -> &Tree
        // It is a tree over the description.
        ensures made { result.now.defs ≡ self.now.start.defs }
        // Where the bank tells its words, its clocks, its order and its rates are those of the state, also in the middle of a change.
        ensures tree { self.now.told ≡ true → IsTreeOf (now_of self.now) result.now }
    {
        self.machine.tree()
    }

    /// Whether no change is in flight.
    pub fn quiet(&self) -> bool
        // It tells whether a call is in flight behind the journal.
        ensures quiet { result ≡ not (in_flight self.now.journal) }
        // Where the bank tells its words, it tells whether the state has no change.
        ensures tells { self.now.told ≡ true → result ≡ is_quiet (now_of self.now).change }
        // Where none is, no step is to come.
        ensures none { result ≡ true → self.now.left ≡ 0 }
        // Where the bank tells its words, the steps to come are the weight that is left of the change in flight.
        ensures weight { self.now.told ≡ true → self.now.left ≡ left_of (now_of self.now) }
        // And never more than a run may have entries, besides its credits.
        ensures few { self.now.start.credits + self.now.left ≤ most_credits }
    {
        self.machine.is_quiet()
    }

    /// What keeps a clock running, and how it runs. None of a clock that isn't registered.
    pub fn row(&self, c: ClockId) -> Option<Row>
        // The clock is one of the description.
        requires { c.0 < length self.now.start.defs }
        // There is a row exactly where the clock was registered.
        ensures found { is_some result ≡ was_registered self.now.journal c.0 }
        // Where the bank tells its words, the row tells the counts, the rate and the switch of the clock in the state.
        ensures row { self.now.told ≡ true → IsRowOf (now_of self.now) c.0 result }
    {
        self.machine.row(c)
    }

    /// How many events can still be paid for.
    pub fn credits_left(&self) -> u32
        // With the credits that the journal has spent they are those of the opening.
        ensures { result + cost self.now.journal ≡ self.now.start.credits }
    {
        self.machine.credits_left()
    }

    /// How many words of the bank the registers are.
    pub fn word_count(&self) -> usize
        // They are as many as the words of the opening.
        ensures size { result ≡ length self.now.start.regs }
        // Where the bank tells its words, so are those of the state.
        ensures registers { self.now.told ≡ true → length (now_of self.now).regs ≡ result }
    {
        self.machine.word_count()
    }

    /// The word of the bank at this place.
    pub fn word(&self, place: usize) -> u32
        // The place is one of these words.
        requires { place < length self.now.start.regs }
        // Where the bank tells its words, it is that of the state.
        ensures { self.now.told ≡ true → result ≡ slice_index (now_of self.now).regs place }
    {
        self.machine.word(place)
    }
}
