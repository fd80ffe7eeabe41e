//! The law of notices of changes that went well.

ghost use Rattle.clk_model.specs.Laws.ChangesTold.{ChangesAreTold, ChangesAreAsked};

/// At the end of a change of rates or of a parent that went well, each clock that the notices
/// before it were for has been told once that its rate has changed: over all its notifiers, in
/// their order, with the rates of those notices.
pub fn changes_are_told()
    ensures law { ChangesAreTold }
    // and nobody else was asked before it
    ensures asked { ChangesAreAsked }
{}
