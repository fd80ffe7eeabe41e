//! What the two tiers of events leave to each other.

ghost use Rattle.std.specs.Prelude.{◌≡◌, ◌<◌, ◌⊎◌, ℕ, Some, IsTrue, IsSome};
ghost use Rattle.clk_base.specs.declared.event.Event.{Event};
ghost use Rattle.clk_base.specs.declared.event.Turn.{Turn};
ghost use Rattle.clk_model.specs.State.{State, Change};
ghost use Rattle.clk_model.specs.Machine.{next};
ghost use Rattle.clk_model.specs.Prep.{prep};
ghost use Rattle.clk_model.specs.Laws.PrepTold.{PrepTells};
ghost use Rattle.clk_model.specs.Laws.PlansRead.{AnswersReadPrep, PlansReadPrep, CopiesServe, PlanningReadsPrep};
ghost use Rattle.clk_model.specs.Tier.{is_enable_tier, is_step};

/// What planning reads of a state isn't changed by an enable, a disable or the question whether a
/// clock runs, in whatever state they come: also in the middle of a change.
pub fn enable_tier_leaves_prep()
    ensures leaves { (s t : State) (driver : ℕ) (e : Event) (turn : Turn) →
        IsTrue (is_enable_tier e) → next s driver e ≡ Some (t, turn) → prep t ≡ prep s }
{}

/// The enable tier never waits for a call in flight, and everything else does: an enable, a disable or
/// the question whether a clock runs is defined wherever a credit is left; while a call is in flight,
/// beside them only its own driver's steps are.
pub fn enable_tier_never_waits()
    ensures defined { (s : State) (driver : ℕ) (e : Event) →
        IsTrue (is_enable_tier e) → s.spent < s.credits → IsSome (next s driver e) }
    ensures others_wait { (s : State) (k : Change) (driver : ℕ) (e : Event) →
        s.change ≡ Some k → IsSome (next s driver e) →
        IsTrue (is_enable_tier e) ⊎ (IsTrue (is_step e) × (driver ≡ k.driver)) }
{}

/// Where the prepare tier's part of two states is the same, over a valid description, so are links, last
/// requests, prepares, ranges, exclusive holds, notifiers, rates and every field that isn't a gate.
pub fn prep_tells()
    ensures law { PrepTells }
{}

/// Planning reads the prepare tier's part of a state alone. Where that part is the same in two
/// states, over a wired tree, a rate, a rounding or a parent that is asked for is answered alike;
/// and a change of a rate, of a range or of a parent is answered alike, or goes on with the same
/// plan and the same script, room for its steps aside. So a call can be planned over that part
/// itself; and so it is with the states behind any two journals of one opening with a valid
/// description.
pub fn planning_reads_prep()
    ensures answers { AnswersReadPrep }
    ensures plans { PlansReadPrep }
    ensures copies { CopiesServe }
    ensures runs { PlanningReadsPrep }
{}
