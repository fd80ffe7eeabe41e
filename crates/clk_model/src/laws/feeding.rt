//! Laws of feeding.

ghost use Rattle.clk_model.specs.Laws.RunsFed.{QuietRunsAreSettled, RunsAreFed};
ghost use Rattle.clk_model.specs.Laws.Supplied.{EnableTierKeepsFed, OpeningIsSupplied, SettledFollowsGates, SettledIsSupplied, SuppliedIsFed};

/// In a supplied state each active clock is fed.
pub fn supplied_is_fed()
    ensures law { SuppliedIsFed }
{}

/// The rule by which gates follow their clocks leaves a state supplied, whatever became active or
/// stopped.
pub fn settled_is_supplied()
    ensures law { SettledIsSupplied }
{}

/// No enable and no disable of any driver, at any moment of another driver's change, leaves an
/// active clock unfed.
pub fn enable_tier_keeps_fed()
    ensures law { EnableTierKeepsFed }
{}

/// The gate of a clock that became active is open, that of one that stopped is closed, and every
/// other gate and every other field reads as before.
pub fn settled_follows_gates()
    ensures law { SettledFollowsGates }
{}

/// Each run over a valid description begins supplied.
pub fn opening_is_supplied()
    ensures law { OpeningIsSupplied }
{}

/// Each active clock is fed behind each journal that begins at an opening with a valid description:
/// between calls and behind each step of a call, also where a PLL doesn't lock, whatever the
/// drivers' enables and disables between.
pub fn runs_are_fed()
    ensures law { RunsAreFed }
{}

/// Between calls nothing is held; each prepared PLL is powered, each handle with an enable has a
/// prepare, each clock with a link is fed by it, and the clock of each handle is rooted.
pub fn quiet_runs_are_settled()
    ensures law { QuietRunsAreSettled }
{}
