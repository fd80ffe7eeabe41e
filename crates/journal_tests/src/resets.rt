//! Calls on reset lines, with the answers of each.

ghost use Rattle.std.specs.Prelude.{◌≡◌};
ghost use Rattle.reset_core.specs.Standing.{ArePlaced};
ghost use Rattle.reset_core.specs.Sound.{AreApart};

use clk_base::{Errno, Handle, Reply};
use reset_core::{ResetCall, ResetCore, ResetKind, ResetLine};
use std::alloc::Global;
use std::process::Abort;
use std::test::Fail;
use tier_lock::Kept;

pub(crate) const USB: Option<u32> = Some(0);

pub(crate) const DMA: Option<u32> = Some(1);

/// A core with so many words.
#[derive(Drop)]
pub struct Board {
    core: ResetCore,
    words: usize,
    ghost words_: { core.start.words ≡ words },
}

impl Board {
    fn create(alloc: Global, words: u32, lines: &[ResetLine], room: u32) -> Result<Board, Fail>
        requires placed { ArePlaced words lines.now }
        requires apart { AreApart lines.now }
    {
        let core = ResetCore::create(alloc, words, lines, room)?;
        Ok(Board {
            core,
            words: words as usize,
        })
    }

    // Makes a call for which there has to be room.
    fn call(&mut self, rt: &impl Abort, driver: u32, what: &ResetCall) -> Reply {
        let has_room = self.core.journal().len() < self.core.total() as usize;
        assert!(rt; has_room);
        self.core.call(driver, what)
    }

    // A word that there has to be.
    fn word(&self, rt: &impl Abort, word: usize) -> u32 {
        assert!(rt; word < self.words);
        self.core.word(word)
    }
}

// Lines at bits 3 and 4 of the one word.
fn two_lines(alloc: Global, room: u32) -> Result<Board, Fail> {
    let lines = [ResetLine { word: 0, bit: 3 }, ResetLine { word: 0, bit: 4 }];
    Board::create(alloc, 1, &lines, room)
}

pub(crate) fn handle(number: u32, driver: u32) -> Reply {
    Reply::Handle(Handle {
        number,
        slot: 0,
        driver,
    })
}

const NOT_FOUND: Reply = Reply::Refused(Errno::ENOENT);

const BUSY: Reply = Reply::Refused(Errno::EBUSY);

const NOT_ALLOWED: Reply = Reply::Refused(Errno::EPERM);

const OF_ANOTHER_KIND: Reply = Reply::Refused(Errno::EINVAL);

// Makes the calls in their order, for which there is just room, and checks each answer, and then the
// first word.
fn check_calls(
    rt: &impl Abort,
    alloc: Global,
    calls: &[(u32, ResetCall, Reply)],
    word: u32,
) -> Result<(), Fail> {
    let count = u32::try_from(calls.len()).ok().ok_or("too many calls")?;
    let mut resets = two_lines(alloc, count)?;
    for (driver, what, reply) in calls {
        assert_eq!(rt; resets.call(rt, *driver, what), *reply);
    }
    assert_eq!(rt; resets.core.journal().len(), calls.len());
    assert_eq!(rt; resets.word(rt, 0), word);
    Ok(())
}

#[test]
fn two_drivers_share_a_line(rt: HostRuntime) -> Result<(), Fail> {
    let calls = [
        (1, ResetCall::Get(USB, ResetKind::Shared), handle(0, 1)),
        (2, ResetCall::Get(USB, ResetKind::Shared), handle(1, 2)),
        (1, ResetCall::Deassert(0), Reply::Fine),
        (2, ResetCall::Deassert(1), Reply::Fine),
        (1, ResetCall::Assert(0), Reply::Fine),
        (1, ResetCall::Assert(0), Reply::Warn),
        (1, ResetCall::Get(USB, ResetKind::Exclusive), BUSY),
        (1, ResetCall::Pulse(0), OF_ANOTHER_KIND),
    ];
    check_calls(&rt, rt.alloc(), &calls, 0x10)
}

#[test]
fn an_exclusive_handle_is_released_to_another(rt: HostRuntime) -> Result<(), Fail> {
    let calls = [
        (1, ResetCall::Get(DMA, ResetKind::Exclusive), handle(0, 1)),
        (1, ResetCall::Get(DMA, ResetKind::Released), handle(1, 1)),
        (1, ResetCall::Deassert(1), NOT_ALLOWED),
        (1, ResetCall::Acquire(1), BUSY),
        (1, ResetCall::Release(0), Reply::Fine),
        (1, ResetCall::Acquire(1), Reply::Fine),
        (1, ResetCall::Deassert(1), Reply::Fine),
        (1, ResetCall::Assert(0), NOT_ALLOWED),
    ];
    check_calls(&rt, rt.alloc(), &calls, 0x08)
}

#[test]
fn each_call_on_a_shared_handle(rt: HostRuntime) -> Result<(), Fail> {
    let calls = [
        (1, ResetCall::Get(USB, ResetKind::Shared), handle(0, 1)),
        (1, ResetCall::Asserted(0), Reply::Yes),
        (1, ResetCall::Assert(0), Reply::Warn),
        (1, ResetCall::Deassert(0), Reply::Fine),
        (1, ResetCall::Deassert(0), Reply::Fine),
        (1, ResetCall::Put(0), BUSY),
        (1, ResetCall::Assert(0), Reply::Fine),
        (1, ResetCall::Asserted(0), Reply::No),
        (1, ResetCall::Put(0), BUSY),
        (1, ResetCall::Assert(0), Reply::Fine),
        (1, ResetCall::Asserted(0), Reply::Yes),
        (1, ResetCall::Pulse(0), OF_ANOTHER_KIND),
        (1, ResetCall::Acquire(0), OF_ANOTHER_KIND),
        (1, ResetCall::Release(0), OF_ANOTHER_KIND),
        (1, ResetCall::Put(0), Reply::Fine),
        (1, ResetCall::Put(0), NOT_FOUND),
    ];
    check_calls(&rt, rt.alloc(), &calls, 0x18)
}

#[test]
fn each_call_on_a_handle_that_has_to_be_acquired(rt: HostRuntime) -> Result<(), Fail> {
    let calls = [
        (1, ResetCall::Get(DMA, ResetKind::Released), handle(0, 1)),
        (1, ResetCall::Deassert(0), NOT_ALLOWED),
        (1, ResetCall::Assert(0), NOT_ALLOWED),
        (1, ResetCall::Pulse(0), NOT_ALLOWED),
        (1, ResetCall::Release(0), Reply::Warn),
        (1, ResetCall::Asserted(0), Reply::Yes),
        (1, ResetCall::Acquire(0), Reply::Fine),
        (1, ResetCall::Acquire(0), Reply::Fine),
        (1, ResetCall::Pulse(0), Reply::Fine),
        (1, ResetCall::Asserted(0), Reply::No),
        (1, ResetCall::Assert(0), Reply::Fine),
        (1, ResetCall::Asserted(0), Reply::Yes),
        (1, ResetCall::Deassert(0), Reply::Fine),
        (1, ResetCall::Release(0), Reply::Fine),
        (1, ResetCall::Release(0), Reply::Warn),
        (1, ResetCall::Put(0), Reply::Fine),
        (1, ResetCall::Asserted(0), NOT_FOUND),
    ];
    check_calls(&rt, rt.alloc(), &calls, 0x08)
}

#[test]
fn each_kind_of_handle_beside_each(rt: HostRuntime) -> Result<(), Fail> {
    let calls = [
        (1, ResetCall::Get(USB, ResetKind::Shared), handle(0, 1)),
        (2, ResetCall::Get(USB, ResetKind::Shared), handle(1, 2)),
        (2, ResetCall::Get(USB, ResetKind::Released), BUSY),
        (2, ResetCall::Get(USB, ResetKind::Exclusive), BUSY),
        (1, ResetCall::Get(DMA, ResetKind::Released), handle(2, 1)),
        (2, ResetCall::Get(DMA, ResetKind::Released), handle(3, 2)),
        (2, ResetCall::Get(DMA, ResetKind::Shared), BUSY),
        (2, ResetCall::Get(DMA, ResetKind::Exclusive), BUSY),
        (1, ResetCall::Acquire(2), Reply::Fine),
        (2, ResetCall::Acquire(3), BUSY),
        (1, ResetCall::Put(2), Reply::Fine),
        (2, ResetCall::Acquire(3), Reply::Fine),
        (2, ResetCall::Put(3), Reply::Fine),
        (2, ResetCall::Get(DMA, ResetKind::Exclusive), handle(4, 2)),
        (1, ResetCall::Get(DMA, ResetKind::Shared), BUSY),
        (1, ResetCall::Get(DMA, ResetKind::Exclusive), BUSY),
        (1, ResetCall::Get(DMA, ResetKind::Released), handle(5, 1)),
    ];
    check_calls(&rt, rt.alloc(), &calls, 0x18)
}

#[test]
fn lines_and_drivers_at_their_bounds(rt: HostRuntime) -> Result<(), Fail> {
    let last = u32::MAX;
    let calls = [
        (0, ResetCall::Get(None, ResetKind::Shared), NOT_FOUND),
        (0, ResetCall::Get(Some(2), ResetKind::Shared), NOT_FOUND),
        (
            0,
            ResetCall::Get(Some(last), ResetKind::Exclusive),
            NOT_FOUND,
        ),
        (
            last,
            ResetCall::Get(DMA, ResetKind::Exclusive),
            handle(0, last),
        ),
        (last, ResetCall::Pulse(0), Reply::Fine),
        (last, ResetCall::Put(0), Reply::Fine),
        (0, ResetCall::Get(USB, ResetKind::Shared), handle(1, 0)),
    ];
    check_calls(&rt, rt.alloc(), &calls, 0x08)
}

const fn calls_on(number: u32) -> [ResetCall; 7] {
    [
        ResetCall::Put(number),
        ResetCall::Deassert(number),
        ResetCall::Assert(number),
        ResetCall::Pulse(number),
        ResetCall::Asserted(number),
        ResetCall::Acquire(number),
        ResetCall::Release(number),
    ]
}

// Driver 1 has handle 0 alone, and no other driver has one.
#[test]
fn no_call_finds_a_handle_of_nobody(rt: HostRuntime) -> Result<(), Fail> {
    let mut resets = two_lines(rt.alloc(), 36)?;
    let get = ResetCall::Get(USB, ResetKind::Exclusive);
    assert_eq!(rt; resets.call(&rt, 1, &get), handle(0, 1));
    for (driver, number) in [(1, 1), (1, u32::MAX), (0, 0), (2, 0), (u32::MAX, 0)] {
        for what in calls_on(number) {
            assert_eq!(rt; resets.call(&rt, driver, &what), NOT_FOUND);
        }
    }
    assert_eq!(rt; resets.word(&rt, 0), 0x18);
    Ok(())
}

#[test]
fn bits_and_words_at_their_bounds(rt: HostRuntime) -> Result<(), Fail> {
    let lines = [
        ResetLine { word: 0, bit: 0 },
        ResetLine {
            word: 1_023,
            bit: 31,
        },
    ];
    let mut resets = Board::create(rt.alloc(), 1_024, &lines, 2)?;
    assert_eq!(rt; resets.word(&rt, 0), 0x0000_0001);
    assert_eq!(rt; resets.word(&rt, 1), 0);
    assert_eq!(rt; resets.word(&rt, 1_023), 0x8000_0000);
    let get = ResetCall::Get(DMA, ResetKind::Exclusive);
    assert_eq!(rt; resets.call(&rt, 1, &get), handle(0, 1));
    assert_eq!(rt; resets.call(&rt, 1, &ResetCall::Deassert(0)), Reply::Fine);
    assert_eq!(rt; resets.word(&rt, 0), 0x0000_0001);
    assert_eq!(rt; resets.word(&rt, 1_023), 0);
    Ok(())
}

#[test]
fn a_core_without_words_has_no_line(rt: HostRuntime) -> Result<(), Fail> {
    let mut resets = Board::create(rt.alloc(), 0, &[], 1)?;
    let get = ResetCall::Get(Some(0), ResetKind::Shared);
    assert_eq!(rt; resets.call(&rt, 0, &get), NOT_FOUND);
    assert_eq!(rt; resets.core.journal().len(), 1);
    Ok(())
}
