//! Laws of weight.

ghost use Rattle.clk_model.specs.Laws.RunsEnd.{EventsLeaveRoom, RunsEnd, RunsHaveRoom};
ghost use Rattle.clk_model.specs.Laws.Paced.{CallsBeginPaced, EnableTierKeepsPaced, StepsKeepPaced, StepsLowerWeight};

/// A call that goes on begins with a paced change, which weighs what its script weighs, with the
/// notices that a timeout may bring, and for which there is room.
pub fn calls_begin_paced()
    ensures law { CallsBeginPaced }
{}

/// Each step of a paced change lowers the weight that is left, so that the change ends.
pub fn steps_lower_weight()
    ensures law { StepsLowerWeight }
{}

/// Each step of a paced change leaves it paced, where it goes on.
pub fn steps_keep_paced()
    ensures law { StepsKeepPaced }
{}

/// An event of the enable tier, at any moment of a change, leaves the change, paced as it was, and
/// the weight that is left.
pub fn enable_tier_keeps_paced()
    ensures law { EnableTierKeepsPaced }
{}

/// Runs end: from an opening with a valid description and at most 4,194,304 credits, behind each
/// journal a change in flight is paced and has room for the entries that it may still come to, and
/// no legal journal has more than 4,194,304 entries, however few its credits are.
pub fn runs_end()
    ensures events { EventsLeaveRoom }
    ensures room { RunsHaveRoom }
    ensures entries { RunsEnd }
{}
