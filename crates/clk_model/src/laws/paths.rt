//! Laws of paths.

ghost use Rattle.clk_model.specs.Laws.Paths.{PathsEnd, RatesAreOverLinks, RegistersGivePaths, RegistersLeaveOthers, RegistersStayPossible, RelinksLeavePaths, RelinksLeaveRates, RelinksStayPossible, RelinksTurnPaths, RootedEndsFixed, WritesLeaveRates};

/// A path is the whole line of links from its clock to one that has none, within the levels of the
/// description: no clock stands twice on it, and each is the first or one of its possible
/// ancestors.
pub fn paths_end()
    ensures law { PathsEnd }
{}

/// A clock is rooted exactly where it is registered and its path ends in a fixed-rate clock.
pub fn rooted_ends_fixed()
    ensures law { RootedEndsFixed }
{}

/// A new link of a clock leaves the path of each clock that isn't below it; the path of one that is
/// goes up to the clock as before, and then on with the path of the new parent. Links still lead to
/// possible parents.
pub fn relinks_turn_paths()
    ensures others { RelinksLeavePaths }
    ensures below { RelinksTurnPaths }
    ensures possible { RelinksStayPossible }
{}

/// A registration gives its clock the path that it was to have, and leaves the path and the rate of
/// each clock whose path hasn't it. Links still lead to possible parents.
pub fn registrations_give_paths()
    ensures own { RegistersGivePaths }
    ensures others { RegistersLeaveOthers }
    ensures possible { RegistersStayPossible }
{}

/// A rate is that of the clock's kind over the rate of the clock that it is linked to, within the
/// levels of the description. So it depends on the path of its clock alone: a new link of a clock
/// that isn't on it leaves the rate, and so does each write that leaves the fields by which the
/// clocks on it divide and multiply.
pub fn rates_follow_paths()
    ensures over { RatesAreOverLinks }
    ensures links { RelinksLeaveRates }
    ensures fields { WritesLeaveRates }
{}
