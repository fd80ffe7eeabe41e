//! A law of journals, as the contract of a function that does nothing.

ghost use Rattle.std.specs.Prelude.{ℕ, Bool, List, length, take};
ghost use Rattle.clk_base.specs.Description.{Description};
ghost use Rattle.clk_base.specs.Valid.{IsValid};
ghost use Rattle.clk_base.specs.declared.event.Entry.{Entry};
ghost use Rattle.clk_model.specs.Fed.{Fed};
ghost use Rattle.clk_model.specs.Journal.{opening, replay};

/// Behind every prefix of a journal, from an opening with a valid description, the active clocks are
/// fed. Whose calls they are and in which order they come doesn't matter.
pub fn always_fed()
    ensures { (words : List ℕ) (defs : Description) (ignore_unused : Bool) (credits : ℕ) (journal : List Entry)
        → IsValid (length words) defs
        → (n : ℕ) → Fed (replay (opening defs words ignore_unused credits) (take n journal)) }
{}
