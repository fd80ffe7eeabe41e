//! Why each call is answered as it is.

ghost use Rattle.clk_model.specs.Laws.CallCauses.{CallsHaveCauses, TierHasCauses, GoingLeavesChanges};
ghost use Rattle.clk_model.specs.Laws.EndCauses.{EndsHaveCauses, JournalsHaveCauses, LateHaveDelays};

/// Each call begins as it does for a cause: each of its answers comes exactly where its cause
/// holds, over the state before; so does each answer of the enable tier. A call goes on exactly
/// where a change is left in flight.
pub fn calls_have_causes()
    ensures begins { CallsHaveCauses }
    ensures tier { TierHasCauses }
    ensures going { GoingLeavesChanges }
{}

/// A call that goes on ends as it does for a cause, over the entries since its beginning: it is
/// refused by EBUSY exactly where a notice before the change was a veto, by ETIMEDOUT exactly where
/// all 32 polls of a PLL since one raise answered no, and else all went well. So each end in each
/// legal journal does. Where polls answer by the delays of the PLLs, such a PLL has a delay above
/// 32.
pub fn ends_have_causes()
    ensures ends { EndsHaveCauses }
    ensures journals { JournalsHaveCauses }
    ensures delays { LateHaveDelays }
{}
