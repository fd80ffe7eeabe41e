//! What a refusal leaves.

ghost use Rattle.std.specs.Prelude.{◌≡◌, ℕ, true, Some};
ghost use Rattle.clk_base.specs.declared.event.Event.{Event};
ghost use Rattle.clk_base.specs.declared.event.Turn.{Turn};
ghost use Rattle.clk_model.specs.State.{State};
ghost use Rattle.clk_model.specs.Laws.Causes.{LeavesRefused};
ghost use Rattle.clk_model.specs.Journal.{is_paid};
ghost use Rattle.clk_model.specs.Machine.{next};

/// A call that is refused at once, of either tier, is an entry that spends a credit and changes
/// nothing else.
pub fn refusals_change_nothing()
    ensures { (s t : State) (driver : ℕ) (e : Event) (answer : Turn) → is_paid e ≡ true → next s driver e ≡ Some (t, answer)
        → LeavesRefused answer s t }
{}
