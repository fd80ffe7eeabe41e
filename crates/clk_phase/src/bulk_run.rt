//! A command under way: which call comes next, given the replies so far.

ghost use Rattle.std.specs.Prelude.{◌≡◌, IsSome, IfOk, IfSome, None, if◌then◌else◌, ◌<◌, length, map, reverse};
ghost use Rattle.clk_phase.specs.Bulk.{is_forward, step_of};
ghost use Rattle.clk_phase.specs.Running.{begun, undoes, next_of, made_of, handles_at};

use crate::bulk_call::{
    BulkCall, BulkItem, BulkKind, BulkReply, BulkStep, is_forward, is_good, step_of, undo_of,
};
use clk_base::{Handle, Reply};
use clk_io::NoMemory;
use std::alloc::Global;
use std::marker::Model;

/// A command under way. Contracts see it as a `Run`.
#[derive(Debug, Drop)]
pub struct BulkRun {
    forward: bool,
    // The calls in their order, and how many of them were made.
    steps: Vec<BulkStep>,
    at: usize,
    // The calls that undo what was made, the first first.
    undo: Vec<BulkStep>,
    fail: Option<(u32, Reply)>,
    // Of the next call.
    place: u32,
    handles: Vec<Handle>,
}

impl Model for BulkRun {
    ghost use Rattle.std.specs.Prelude.{drop, reverse, length, vec_capacity};
    ghost use Rattle.clk_phase.specs.Running.{Run};
    ghost use Rattle.clk_phase.specs.Kept.{HasSpace};

    ghost Value = { Run };

    ghost view = { λ r. record { forward = r.forward; left = drop r.at r.steps.items; undo = reverse r.undo.items; fail = r.fail; place = r.place; handles = r.handles.items } };

    ghost invariant = { λ r. HasSpace (length r.steps.items) r.at (length r.undo.items) (vec_capacity r.undo) (length r.handles.items) (vec_capacity r.handles) r.forward r.place };
}

// The calls on the items, in the items' order.
fn steps_in_order(
    alloc: Global,
    kind: BulkKind,
    items: &[BulkItem],
) -> Result<Vec<BulkStep>, NoMemory>
    ensures { IfOk result (λ steps. steps.items ≡ map (step_of kind) items.now) }
{
    let mut steps = Vec::with_capacity(alloc, items.len())?;
    for item in items {
        steps.push_reserved(step_of(kind, *item));
    }
    Ok(steps)
}

// The calls in the order in which they are made if all go well.
fn steps_to_make(
    alloc: Global,
    kind: BulkKind,
    items: &[BulkItem],
) -> Result<Vec<BulkStep>, NoMemory>
    ensures { IfOk result (λ steps. steps.items ≡ (if is_forward kind then map (step_of kind) items.now else reverse (map (step_of kind) items.now))) }
{
    let mut steps = steps_in_order(alloc, kind, items)?;
    if !is_forward(kind) {
        steps.reverse();
    }
    Ok(steps)
}

impl BulkRun {
    /// The command with no call made. The one error is that memory runs out.
    pub fn create(alloc: Global, what: &BulkCall) -> Result<BulkRun, NoMemory>
        // Each place is a number of 32 bits.
        requires { length what.now.items.items < 4294967295 }
        // All calls are left.
        ensures { IfOk result (λ run. run ≡ begun what.now.kind what.now.items.items) }
    {
        let count = what.items.len();
        let forward = is_forward(what.kind);
        Ok(BulkRun {
            forward,
            steps: steps_to_make(alloc, what.kind, what.items.as_slice())?,
            at: 0,
            undo: Vec::with_capacity(alloc, count)?,
            fail: None,
            place: if forward { 1 } else { count as u32 },
            handles: Vec::with_capacity(alloc, count)?,
        })
    }

    // Whether the calls that were made are being undone.
    fn undoes(&self) -> bool
        ensures { result ≡ undoes self.now }
    {
        self.forward && self.fail.is_some()
    }

    /// The next call, none if and only if no call is left. Takes no memory.
    pub fn next(&self) -> Option<BulkStep>
        ensures { result ≡ next_of self.now }
    {
        if self.undoes() {
            self.undo.last().copied()
        } else {
            self.steps.get(self.at).copied()
        }
    }

    /// Takes the reply of the next call. Takes no memory.
    pub fn answered(&mut self, reply: &Reply)
        // A call is left.
        requires { IsSome (next_of self.old) }
        // It was made and answered so.
        ensures { IfSome (next_of self.old) (λ s. self.new ≡ made_of self.old s reply.now) }
    {
        if self.undoes() {
            let _ = self.undo.pop();
            return;
        }
        let step = self.steps[self.at];
        let place = self.place;
        self.at += 1;
        self.place = if self.forward { place + 1 } else { place - 1 };
        if is_good(*reply) {
            self.undo.push_reserved(undo_of(step, *reply));
            if let Reply::Handle(handle) = *reply {
                self.handles.push_reserved(handle);
            }
        } else if self.fail.is_none() {
            self.fail = Some((place, *reply));
        }
    }

    /// What the command answers. Takes no memory.
    pub fn finish(self) -> BulkReply
        // No call is left.
        requires { next_of self ≡ None }
        // The first call that failed.
        ensures fail { result.fail ≡ self.fail }
        // The handles that a get without a failure made.
        ensures handles { result.handles.items ≡ handles_at self }
    {
        let BulkRun {
            forward,
            fail,
            mut handles,
            ..
        } = self;
        if !forward || fail.is_some() {
            handles.clear();
        }
        BulkReply { fail, handles }
    }
}
