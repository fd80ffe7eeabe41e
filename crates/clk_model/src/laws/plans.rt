//! Laws of plans.

ghost use Rattle.clk_model.specs.Laws.Plans.{ChainsLead, MovedAreFed, OutcomesKeep};

/// A planned chain leads upwards over possible parents, has no clock twice, and keeps the
/// boundaries of its clocks.
pub fn chains_lead()
    ensures law { ChainsLead }
{}

/// The outcome of a plan gives the clocks of its chain their planned parents, and leaves the links
/// and fields of all others.
pub fn outcomes_keep()
    ensures law { OutcomesKeep }
{}

/// In the outcome of a plan each clock that it moves is fed by its planned parent.
pub fn moved_are_fed()
    ensures law { MovedAreFed }
{}
