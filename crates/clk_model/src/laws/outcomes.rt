//! What a change that ends well leaves.

ghost use Rattle.clk_model.specs.Laws.Outcomes.{OutcomesWritten, RunsWriteOutcomes};

/// A change of a rate, of a range or of a parent that ends well leaves the links, and the fields by
/// which muxes select, dividers divide and PLLs multiply, as the outcome of its plan has them: of
/// each clock of the tree, whatever enables and disables of any driver have come between its steps.
pub fn outcomes_are_written()
    ensures changes { OutcomesWritten }
    ensures runs { RunsWriteOutcomes }
{}
