//! Commands on several handles, and their answers.

ghost use Rattle.std.specs.Prelude.{◌≡◌};
ghost use Rattle.clk_phase.specs.Bulk.{is_forward, is_good, step_of, undo_of};

use clk_base::{ClockId, Handle, Reply, Sleeping};

/// The call that the command makes on each of its items. The first three go forward, and the last three
/// backward.
#[derive(Clone, Copy, Debug, PartialEq, Eq)]
pub enum BulkKind {
    Get,
    Prepare,
    Enable,
    Disable,
    Unprepare,
    Put,
}

/// What a variable of the command stands for: of a get the clock of the name that was asked for, if
/// there is one; of the others a handle.
#[derive(Clone, Copy, Debug, PartialEq, Eq)]
pub enum BulkItem {
    Clock(Option<ClockId>),
    Handle(Handle),
}

/// A command. An item of the other form is like a get of a name that no clock has.
#[derive(Debug, Drop)]
pub struct BulkCall {
    pub kind: BulkKind,
    pub items: Vec<BulkItem>,
}

/// What a command answers.
#[derive(Debug, Drop)]
pub struct BulkReply {
    /// The place of the first call that failed, counted from 1, and its reply.
    pub fail: Option<(u32, Reply)>,
    /// The handles that a get made, if none of its calls failed.
    pub handles: Vec<Handle>,
}

/// One call of a command.
#[derive(Clone, Copy, Debug, PartialEq, Eq)]
pub enum BulkStep {
    Enable(Handle),
    Disable(Handle),
    Call(Sleeping),
}

// Whether the command makes its calls in the order of its items.
pub(crate) fn is_forward(kind: BulkKind) -> bool
    ensures { result ≡ is_forward kind }
{
    match kind {
        BulkKind::Get | BulkKind::Prepare | BulkKind::Enable => true,
        BulkKind::Disable | BulkKind::Unprepare | BulkKind::Put => false,
    }
}

// Whether a call that was answered so went well.
pub(crate) fn is_good(reply: Reply) -> bool
    ensures { result ≡ is_good reply }
{
    match reply {
        Reply::Fine | Reply::Handle(_) => true,
        Reply::Warn
        | Reply::Yes
        | Reply::No
        | Reply::Rate(_)
        | Reply::Clock(_)
        | Reply::Refused(_) => false,
    }
}

// The call on one item.
pub(crate) fn step_of(kind: BulkKind, item: BulkItem) -> BulkStep
    ensures { result ≡ step_of kind item }
{
    match (kind, item) {
        (BulkKind::Get, BulkItem::Clock(found)) => BulkStep::Call(Sleeping::Get(found)),
        (BulkKind::Prepare, BulkItem::Handle(h)) => BulkStep::Call(Sleeping::Prepare(h)),
        (BulkKind::Enable, BulkItem::Handle(h)) => BulkStep::Enable(h),
        (BulkKind::Disable, BulkItem::Handle(h)) => BulkStep::Disable(h),
        (BulkKind::Unprepare, BulkItem::Handle(h)) => BulkStep::Call(Sleeping::Unprepare(h)),
        (BulkKind::Put, BulkItem::Handle(h)) => BulkStep::Call(Sleeping::Put(h)),
        (_, _) => BulkStep::Call(Sleeping::Get(None)),
    }
}

// The call that undoes a call that was answered so.
pub(crate) fn undo_of(step: BulkStep, reply: Reply) -> BulkStep
    ensures { result ≡ undo_of step reply }
{
    match (step, reply) {
        (BulkStep::Call(Sleeping::Get(_)), Reply::Handle(h)) => BulkStep::Call(Sleeping::Put(h)),
        (BulkStep::Call(Sleeping::Prepare(h)), _) => BulkStep::Call(Sleeping::Unprepare(h)),
        (BulkStep::Enable(h), _) => BulkStep::Disable(h),
        (step, _) => step,
    }
}
