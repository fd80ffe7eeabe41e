//! The loop over a command's calls.

ghost use Rattle.std.specs.Prelude.{◌≡◌, ◌⊎◌, ◌<◌, ◌≤◌, ◌+◌, All, IfOk, OnErr, length, map};
ghost use Rattle.clk_phase.specs.Bulk.{credits_for, step_of};
ghost use Rattle.clk_phase.specs.Going.{IsPlacedStep, FailsIn};
ghost use Rattle.clk_phase.specs.Doing.{Does, Stops};

use crate::bulk_call::{BulkCall, BulkReply, BulkStep};
use crate::bulk_run::BulkRun;
use crate::consumer::Consumer;
use clk_base::Reply;
use clk_io::NoMemory;
use std::alloc::Global;
use std::sync::Wait;

// One call.
fn make<C: Consumer, R: Wait + Sync>(
    rt: &R,
    who: &mut C,
    step: &BulkStep,
) -> Result<Reply, NoMemory>
    requires credit { 0 < C.credits who.old }
    requires place { IsPlacedStep (C.clocks who.old) step.now }
    ensures makes { IfOk result (λ r. C.makes who.old step.now r who.new) }
    ensures fails { OnErr result (FailsIn C.fails who.old step.now who.new) }
    ensures credits { C.credits who.old ≤ C.credits who.new + 1 }
    ensures clocks { C.clocks who.new ≡ C.clocks who.old }
{
    match step {
        BulkStep::Enable(handle) => Ok(who.enable(rt, *handle)),
        BulkStep::Disable(handle) => Ok(who.disable(rt, *handle)),
        BulkStep::Call(what) => who.call(rt, what),
    }
}

/// Runs one command on several handles. The one error is that memory runs out: room for the handles is
/// taken before the first call.
pub fn bulk<C: Consumer, R: Wait + Sync>(
    rt: &R,
    alloc: Global,
    who: &mut C,
    what: &BulkCall,
) -> Result<BulkReply, NoMemory>
    // Each place is a number of 32 bits.
    requires few { length what.now.items.items < 4294967295 }
    // The driver has the credits of the command: two for each item if it goes forward, else one.
    requires credits { credits_for what.now.kind (length what.now.items.items) ≤ C.credits who.old }
    // The clocks of its items are among those that there are.
    requires places { All (IsPlacedStep (C.clocks who.old)) (map (step_of what.now.kind) what.now.items.items) }
    // The command's calls are made, each once, and it answers so.
    ensures does { IfOk result (λ reply. Does C.makes who.old what.now.kind what.now.items.items reply.fail reply.handles.items who.new) }
    // No call was made, or memory ran out in a sleeping call: the command ends there.
    ensures err { OnErr result ((who.new ≡ who.old) ⊎ Stops C.makes C.fails who.old what.now.kind what.now.items.items who.new) }
    // No more credits than those are spent.
    ensures credits { C.credits who.old ≤ C.credits who.new + credits_for what.now.kind (length what.now.items.items) }
    ensures clocks { C.clocks who.new ≡ C.clocks who.old }
{
    let mut run = BulkRun::create(alloc, what)?;
    while let Some(step) = run.next() {
        let reply = make(rt, who, &step)?;
        run.answered(&reply);
    }
    Ok(run.finish())
}
