//! Laws on flights.

ghost use Rattle.clk_flight.specs.Laws.{LeftIsWeight, CallsStart, PacedSeekFew};

/// What is left over of a flight that is the change of a state is the weight that is left of that
/// change: as many entries as it may still come to.
pub fn left_is_weight()
    ensures law { LeftIsWeight }
{}

/// Each call that goes on begins as a flight takes it, so whoever begins a flight has to show no more
/// than that its script and its other fields are those of the call.
pub fn calls_start()
    ensures law { CallsStart }
{}

/// What a raise and a lower of a flight ask of a change is so for each paced one, as all are behind a
/// legal journal: no more PLLs are still to go than a line of possible parents has.
pub fn paced_seek_few()
    ensures law { PacedSeekFew }
{}
