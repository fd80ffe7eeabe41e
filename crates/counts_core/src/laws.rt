//! Laws of the three counts.

ghost use Rattle.counts_core.specs.Standing.{TellsHolds, TellsCounts};

/// A clock is active, prepared and guarded in counts exactly if it is so in the state of the
/// machine that they stand for.
pub fn counts_tell_holds()
    ensures law { TellsHolds }
{}

/// The three sums of counts are the counts of the state of the machine that they stand for.
pub fn counts_tell_counts()
    ensures law { TellsCounts }
{}
