//! Laws of links.

ghost use Rattle.clk_model.specs.Laws.LinksKept.{EventsKeepLinks, EventsKeepShape, RunsAreWired, RunsKeepLinks};

/// Links lead to possible parents, and will when the change in flight has gone on, whatever event
/// comes; so they do behind each journal that begins at an opening with a valid description.
pub fn links_stay_possible()
    ensures events { EventsKeepLinks }
    ensures runs { RunsKeepLinks }
{}

/// Each event leaves the description, and as many rows and words; so behind each journal that
/// begins at an opening with a valid description the tree is wired, and the laws of plans and walks
/// hold there.
pub fn runs_are_wired()
    ensures shape { EventsKeepShape }
    ensures wired { RunsAreWired }
{}
