//! Laws of the ends of calls.

ghost use Rattle.clk_model.specs.Laws.NothingLeft.{RaisedEndAsPrepared, TimeoutsLeaveNothing, UnmovedStay, MovesOnce, TimedOutMovesStay};

/// At the end of each call, whether it went well, was called off or timed out, each PLL that it
/// raised is powered exactly where it is prepared: what it raised for nothing has fallen, and what
/// it let go has been lowered.
pub fn raised_end_as_prepared()
    ensures law { RaisedEndAsPrepared }
{}

/// A prepare or a change of parent that is refused since a PLL didn't lock leaves all as it was but
/// power bits, and what enables and disables of any driver have done meanwhile: no prepare, no
/// link, no rate and no field has changed.
pub fn timeouts_leave_nothing()
    ensures law { TimeoutsLeaveNothing }
{}

/// Through each call and at its end, however it ends, each clock that none of its steps gave a link
/// has the parent that it had before the call: so has one whose move was dropped, since a PLL above
/// its new parent didn't lock.
pub fn unmoved_stay()
    ensures law { UnmovedStay }
{}

/// A step that gives a clock a link is the first of its call that does: no call moves a clock twice.
pub fn moves_once()
    ensures law { MovesOnce }
{}

/// After a move that has timed out its clock is on its old parent: where a poll times out, and the
/// move at hand was still to give a clock its link, that clock has the parent that it had before
/// the call, behind each later step of the call and at its end.
pub fn timed_out_moves_stay()
    ensures law { TimedOutMovesStay }
{}
