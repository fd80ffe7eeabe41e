//! Bulk commands, made by a driver whose calls are answered from a list.

ghost use Rattle.std.specs.Prelude.{◌≤◌, ◌+◌};

use clk_base::{ClockId, Errno, Handle, Reply, Sleeping};
use clk_io::NoMemory;
use clk_phase::{BulkCall, BulkItem, BulkKind, BulkReply, BulkRun, BulkStep, Consumer, bulk};
use std::alloc::Global;
use std::process::Abort;
use std::sync::Wait;
use std::test::Fail;

/// A driver whose calls are to be these, and are answered so.
#[derive(Drop)]
pub struct Scripted {
    script: Vec<(BulkStep, Reply)>,
    // How many of them were made.
    at: usize,
    credits: u32,
}

impl Scripted {
    // Any other call is refused, and doesn't count.
    fn answer(&mut self, step: BulkStep) -> Reply
        ensures { self.old.credits ≤ self.new.credits + 1 }
    {
        self.credits = self.credits.saturating_sub(1);
        match self.script.get(self.at) {
            Some((wanted, reply)) if *wanted == step => {
                self.at += 1;
                *reply
            }
            _ => Reply::Refused(Errno::ENOENT),
        }
    }
}

impl Consumer for Scripted {
    ghost credits = { λ s. s.credits };

    ghost clocks = { λ s. 2 };

    ghost makes = { λ old step r new. Unit {0} };

    ghost fails = { λ old new. Unit {0} };

    fn enable<R: Wait + Sync>(&mut self, _rt: &R, handle: Handle) -> Reply {
        self.answer(BulkStep::Enable(handle))
    }

    fn disable<R: Wait + Sync>(&mut self, _rt: &R, handle: Handle) -> Reply {
        self.answer(BulkStep::Disable(handle))
    }

    fn call<R: Wait + Sync>(&mut self, _rt: &R, what: &Sleeping) -> Result<Reply, NoMemory> {
        Ok(self.answer(BulkStep::Call(*what)))
    }
}

const ONE: Handle = Handle {
    number: 1,
    slot: 0,
    driver: 1,
};

const TWO: Handle = Handle {
    number: 2,
    slot: 0,
    driver: 1,
};

const LATE: Reply = Reply::Refused(Errno::ETIMEDOUT);

const UNPREPARED: Reply = Reply::Refused(Errno::ESHUTDOWN);

// Runs a command on handles 1 and 2 whose calls are to be these, and checks that they are and what it answers.
fn check_command<R: Wait + Sync + Abort>(
    rt: &R,
    alloc: Global,
    kind: BulkKind,
    script: &[(BulkStep, Reply)],
    fail: Option<(u32, Reply)>,
) -> Result<(), Fail> {
    let mut driver = Scripted {
        script: Vec::from_slice(alloc, script)?,
        at: 0,
        credits: 4,
    };
    let items = Vec::from_array(alloc, [BulkItem::Handle(ONE), BulkItem::Handle(TWO)])?;
    let reply = bulk(rt, alloc, &mut driver, &BulkCall { kind, items })?;
    assert_eq!(rt; driver.at, script.len());
    assert_eq!(rt; reply.fail, fail);
    assert!(rt; reply.handles.is_empty());
    Ok(())
}

const fn prepare(handle: Handle) -> BulkStep {
    BulkStep::Call(Sleeping::Prepare(handle))
}

const fn unprepare(handle: Handle) -> BulkStep {
    BulkStep::Call(Sleeping::Unprepare(handle))
}

#[test]
fn a_failed_prepare_is_undone(rt: HostRuntime) -> Result<(), Fail> {
    let script = [
        (prepare(ONE), Reply::Fine),
        (prepare(TWO), LATE),
        (unprepare(ONE), Reply::Fine),
    ];
    check_command(&rt, rt.alloc(), BulkKind::Prepare, &script, Some((2, LATE)))
}

#[test]
fn a_failed_first_call_undoes_nothing(rt: HostRuntime) -> Result<(), Fail> {
    let script = [(BulkStep::Enable(ONE), UNPREPARED)];
    check_command(
        &rt,
        rt.alloc(),
        BulkKind::Enable,
        &script,
        Some((1, UNPREPARED)),
    )
}

#[test]
fn a_command_backward_makes_all_calls(rt: HostRuntime) -> Result<(), Fail> {
    let script = [
        (BulkStep::Disable(TWO), Reply::Warn),
        (BulkStep::Disable(ONE), Reply::Fine),
    ];
    check_command(
        &rt,
        rt.alloc(),
        BulkKind::Disable,
        &script,
        Some((2, Reply::Warn)),
    )?;
    let script = [(unprepare(TWO), Reply::Fine), (unprepare(ONE), Reply::Warn)];
    check_command(
        &rt,
        rt.alloc(),
        BulkKind::Unprepare,
        &script,
        Some((1, Reply::Warn)),
    )
}

// Takes the replies of a command's calls one by one.
fn run_on(rt: &impl Abort, mut run: BulkRun, script: &[(BulkStep, Reply)]) -> Option<BulkReply> {
    for (step, reply) in script {
        let next = run.next();
        assert!(rt; next == Some(*step));
        run.answered(reply);
    }
    if run.next().is_some() {
        return None;
    }
    Some(run.finish())
}

#[test]
fn a_get_gives_its_handles(rt: HostRuntime) -> Result<(), Fail> {
    let items = [
        BulkItem::Clock(Some(ClockId(0))),
        BulkItem::Clock(Some(ClockId(1))),
    ];
    let call = BulkCall {
        kind: BulkKind::Get,
        items: Vec::from_slice(rt.alloc(), &items)?,
    };
    let first = BulkStep::Call(Sleeping::Get(Some(ClockId(0))));
    let second = BulkStep::Call(Sleeping::Get(Some(ClockId(1))));
    let both = [(first, Reply::Handle(ONE)), (second, Reply::Handle(TWO))];
    let reply = run_on(&rt, BulkRun::create(rt.alloc(), &call)?, &both).ok_or("a call is left")?;
    assert_eq!(rt; reply.fail, None);
    assert_eq!(rt; reply.handles.as_slice(), [ONE, TWO].as_slice());
    let deferred = Reply::Refused(Errno::EPROBE_DEFER);
    let put = BulkStep::Call(Sleeping::Put(ONE));
    let undone = [
        (first, Reply::Handle(ONE)),
        (second, deferred),
        (put, Reply::Fine),
    ];
    let reply = run_on(&rt, BulkRun::create(rt.alloc(), &call)?, &undone).ok_or("a call is left")?;
    assert_eq!(rt; reply.fail, Some((2, deferred)));
    assert!(rt; reply.handles.is_empty());
    Ok(())
}
