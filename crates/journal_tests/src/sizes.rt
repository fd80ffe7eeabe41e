//! Bulk commands of few and of many items, and of items of each form.

use clk_base::{ClockId, Errno, Handle, Reply, Sleeping};
use clk_phase::{BulkCall, BulkItem, BulkKind, BulkReply, BulkRun, BulkStep};
use std::alloc::Global;
use std::process::Abort;
use std::test::Fail;

// A handle of this number.
const fn numbered(number: u32) -> Handle {
    Handle {
        number,
        slot: 0,
        driver: 1,
    }
}

// A command on handles with the numbers from 0 up, of which no call is made.
fn begin(rt: &impl Abort, alloc: Global, kind: BulkKind, count: u32) -> Result<BulkRun, Fail> {
    let mut items = Vec::new(alloc);
    for number in 0..count {
        items.push(BulkItem::Handle(numbered(number)))?;
    }
    assert!(rt; items.len() <= 65);
    Ok(BulkRun::create(alloc, &BulkCall { kind, items })?)
}

// The next call has to be this one, and is answered so.
fn answer(rt: &impl Abort, run: &mut BulkRun, step: BulkStep, reply: &Reply) {
    let next = run.next();
    assert!(rt; next == Some(step));
    run.answered(reply);
}

// No call may be left.
fn finish(rt: &impl Abort, run: BulkRun) -> BulkReply {
    let next = run.next();
    assert!(rt; next.is_none());
    run.finish()
}

const SIZES: [u32; 4] = [0, 1, 64, 65];

#[test]
fn enables_that_go_well(rt: HostRuntime) -> Result<(), Fail> {
    for count in SIZES {
        let mut run = begin(&rt, rt.alloc(), BulkKind::Enable, count)?;
        for number in 0..count {
            answer(
                &rt,
                &mut run,
                BulkStep::Enable(numbered(number)),
                &Reply::Fine,
            );
        }
        assert_eq!(rt; finish(&rt, run).fail, None);
    }
    Ok(())
}

// All enables before the last are undone, the last first.
#[test]
fn enables_of_which_the_last_fails(rt: HostRuntime) -> Result<(), Fail> {
    let late = Reply::Refused(Errno::ETIMEDOUT);
    for count in [1, 64, 65] {
        let mut run = begin(&rt, rt.alloc(), BulkKind::Enable, count)?;
        for number in 0..count {
            let reply = if number + 1 == count {
                late
            } else {
                Reply::Fine
            };
            answer(&rt, &mut run, BulkStep::Enable(numbered(number)), &reply);
        }
        for number in (0..count - 1).rev() {
            answer(
                &rt,
                &mut run,
                BulkStep::Disable(numbered(number)),
                &Reply::Fine,
            );
        }
        assert_eq!(rt; finish(&rt, run).fail, Some((count, late)));
    }
    Ok(())
}

// All calls are made, from the last item to the first, and the last item's failure is told.
#[test]
fn puts_that_all_fail(rt: HostRuntime) -> Result<(), Fail> {
    let busy = Reply::Refused(Errno::EBUSY);
    for count in SIZES {
        let mut run = begin(&rt, rt.alloc(), BulkKind::Put, count)?;
        for number in (0..count).rev() {
            let put = BulkStep::Call(Sleeping::Put(numbered(number)));
            answer(&rt, &mut run, put, &busy);
        }
        let fail = if count == 0 {
            None
        } else {
            Some((count, busy))
        };
        assert_eq!(rt; finish(&rt, run).fail, fail);
    }
    Ok(())
}

// What a command on this one item calls first.
fn first_step(alloc: Global, kind: BulkKind, item: BulkItem) -> Result<Option<BulkStep>, Fail> {
    let items = Vec::from_array(alloc, [item])?;
    Ok(BulkRun::create(alloc, &BulkCall { kind, items })?.next())
}

// An item of the other form is like a get of a name that no clock has.
#[test]
fn each_kind_of_command_on_each_form_of_item(rt: HostRuntime) -> Result<(), Fail> {
    let last = numbered(u32::MAX);
    let handle = BulkItem::Handle(last);
    let clock = BulkItem::Clock(Some(ClockId(u32::MAX)));
    let get = Sleeping::Get(Some(ClockId(u32::MAX)));
    let nothing = BulkStep::Call(Sleeping::Get(None));
    let steps = [
        (BulkKind::Get, clock, BulkStep::Call(get)),
        (BulkKind::Get, BulkItem::Clock(None), nothing),
        (BulkKind::Get, handle, nothing),
        (
            BulkKind::Prepare,
            handle,
            BulkStep::Call(Sleeping::Prepare(last)),
        ),
        (BulkKind::Prepare, clock, nothing),
        (BulkKind::Enable, handle, BulkStep::Enable(last)),
        (BulkKind::Enable, clock, nothing),
        (BulkKind::Disable, handle, BulkStep::Disable(last)),
        (BulkKind::Disable, clock, nothing),
        (
            BulkKind::Unprepare,
            handle,
            BulkStep::Call(Sleeping::Unprepare(last)),
        ),
        (BulkKind::Unprepare, clock, nothing),
        (BulkKind::Put, handle, BulkStep::Call(Sleeping::Put(last))),
        (BulkKind::Put, clock, nothing),
    ];
    for (kind, item, step) in steps {
        assert!(rt; first_step(rt.alloc(), kind, item)? == Some(step));
    }
    Ok(())
}

// Of all replies ok and a handle alone go well.
#[test]
fn each_reply_of_an_enable(rt: HostRuntime) -> Result<(), Fail> {
    let replies = [
        (Reply::Fine, true),
        (Reply::Handle(numbered(0)), true),
        (Reply::Warn, false),
        (Reply::Yes, false),
        (Reply::No, false),
        (Reply::Rate(0), false),
        (Reply::Rate(u64::MAX), false),
        (Reply::Clock(None), false),
        (Reply::Clock(Some(ClockId(0))), false),
        (Reply::Refused(Errno::ENOSPC), false),
    ];
    for (reply, goes_well) in replies {
        let mut run = begin(&rt, rt.alloc(), BulkKind::Enable, 1)?;
        answer(&rt, &mut run, BulkStep::Enable(numbered(0)), &reply);
        let fail = if goes_well { None } else { Some((1, reply)) };
        assert_eq!(rt; finish(&rt, run).fail, fail);
    }
    Ok(())
}
