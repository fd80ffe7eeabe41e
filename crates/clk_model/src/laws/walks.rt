//! Laws of walks.

ghost use Rattle.clk_model.specs.Laws.Walks.{WalksList};

/// The walk of a plan begins at its top and lists the clocks that will be below it, each once; the
/// changing clocks are those of them from which up to the top each clock will have another rate.
pub fn walks_list()
    ensures law { WalksList }
{}
