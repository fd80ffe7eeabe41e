//! The prepare tier goes on by itself: what its events make of its part of a state, and what they
//! answer, depends on that part and the event.

ghost use Rattle.clk_model.specs.Laws.PrepSteps.{StepsReadPrep, SweepsReadPrep, RunsStepByPrep, RunsSweepByPrep};
ghost use Rattle.clk_model.specs.Laws.PrepBegins.{BeginsReadPrep, BareBeginsReadPrep, EventsReadPrep, SweepsBeginByPrep, DecisionsReadPrep};
ghost use Rattle.clk_model.specs.Laws.Lifting.{LiftingSees};
ghost use Rattle.clk_model.specs.Laws.Shadows.{ShadowsStay, ShadowsBegin, ShadowsStep};
ghost use Rattle.clk_model.specs.Laws.Twins.{TwinsStay, TwinsStep, TwinsBegin};

/// What a step makes of the prepare tier's part of a state depends on that part and the step. Where
/// that part is the same in two states, over a wired tree, a step of a call in the one is made in the
/// other, is answered alike and leaves the same part. A step of the sweep leaves the same part in the
/// other too, whatever is left of the sweep there; and a gate that the sweep closes is no part of it.
/// So it is with the steps of each call in flight, over a valid description.
pub fn steps_read_prep()
    ensures calls { StepsReadPrep }
    ensures sweeps { SweepsReadPrep }
    ensures runs { RunsStepByPrep }
    ensures sweeping { RunsSweepByPrep }
{}

/// How a call begins depends on the prepare tier's part of a state, and on two things more: a put and an
/// unprepare look at the enables of their handle, and a call that goes on needs room, of which a state
/// with more steps made has less. A sweep looks at enables and gates for its script alone, and what is
/// left of that is no part of the prepare tier.
pub fn calls_read_prep()
    ensures begins { BeginsReadPrep }
    ensures bare { BareBeginsReadPrep }
    ensures events { EventsReadPrep }
    ensures sweep { SweepsBeginByPrep }
{}

/// What is decided of a call that asks or plans is a function of the prepare tier's part of a state and
/// the call: the answers of a rate, a rounding and a parent that are asked for, and the plans and the
/// scripts of changes of a rate, of a range and of a parent. It is what the definitions say over that
/// part itself.
pub fn decisions_read_prep()
    ensures law { DecisionsReadPrep }
{}

/// What planning sees with one exclusive of a handle less. If that exclusive alone protects the clock of
/// the handle, so that the clock's protect count is 1, planning sees it as free; else it sees what it saw
/// before, since no guarded clock changes.
pub fn lifting_frees_or_keeps()
    ensures law { LiftingSees }
{}

/// A state without enables that has the same part of the prepare tier as another, its enable holds, and no
/// more credits spent and steps made, goes along with each event of the other, and stays such a twin. It
/// makes each beginning and each step of a call too, but for a sweep. If a call lacks room in the other, or
/// is kept there by an enable from giving back, the twin may stay as it is.
pub fn twins_go_along()
    ensures beside { TwinsStay }
    ensures steps { TwinsStep }
    ensures begins { TwinsBegin }
{}

/// A state without enables follows a sweep of another by the sweep's steps alone, though it doesn't know
/// its script, nor which PLL a raise powers. At its beginning a twin becomes a shadow. The shadow has the
/// other's part of the prepare tier, but for the change in flight, what that holds, and the PLL that is
/// polled next: this it powers at the poll. It holds nothing itself, since nothing is held at a lower and at
/// the end of a sweep. At the end it is a twin again, in which no change is in flight.
pub fn shadows_go_along()
    ensures beside { ShadowsStay }
    ensures begins { ShadowsBegin }
    ensures steps { ShadowsStep }
{}
