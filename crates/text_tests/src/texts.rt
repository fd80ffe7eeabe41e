//! What no contract says: that the printers get on where there is memory, and what each text looks
//! like.

ghost use Rattle.std.specs.Prelude.{IfOk};
ghost use Rattle.clk_base.specs.Description.{EachClock};
ghost use Rattle.clk_base.specs.Valid.{has_its_parents};

use clk_base::{
    AddFault, Answer, ClkFlags, ClockDef, ClockId, ClockName, Desc, Errno, Handle, Kind, Parents,
    Reply,
};
use clk_io::{Gathered, MemSink, WriteFault};
use clk_journal::{print_answers, print_registers};
use std::alloc::Global;
use std::process::Abort;
use std::test::Fail;

// A description of one clock, `osc`.
fn one_clock(alloc: Global) -> Result<Desc, AddFault>
    ensures { IfOk result (λ desc. EachClock desc (has_its_parents desc)) }
{
    let osc = ClockDef {
        name: ClockName::new(String::from_str(alloc, "osc")?),
        kind: Kind::FixedRate { rate: 24_000_000 },
        flags: ClkFlags::CRITICAL,
        parents: Parents::new(Vec::new(alloc)),
    };
    let mut desc = Desc::new(alloc);
    desc.add(osc)?;
    Ok(desc)
}

// An empty sink with room for a text, whose calls with the listed numbers fail.
fn sink(alloc: Global, fail_at: &[u32]) -> Result<MemSink, Fail> {
    Ok(MemSink::new(alloc, 64, 256, fail_at.to_vec(alloc)?)?)
}

// Prints the answers of the driver `uart`, and checks the text.
fn check_answers<R: Abort + AllocGlobal>(
    rt: &R,
    answers: &[Answer],
    wanted: &str,
) -> Result<(), Fail> {
    let desc = one_clock(rt.alloc())?.check(rt.alloc(), 1)?;
    let mut gathered = Gathered::new(rt.alloc());
    let mut out = sink(rt.alloc(), &[])?;
    print_answers(rt.alloc(), &desc, "uart", answers, &mut gathered, &mut out)?;
    assert!(rt; out.written().is_empty());
    gathered.finish(&mut out)?;
    assert_eq!(rt; out.written(), wanted.as_bytes());
    Ok(())
}

#[test]
fn each_reply_and_a_skip_has_its_text(rt: HostRuntime) -> Result<(), Fail> {
    let handle = Handle {
        number: 3,
        slot: 7,
        driver: 1,
    };
    let answers = [
        Answer::Reply(Reply::Fine),
        Answer::Reply(Reply::Warn),
        Answer::Reply(Reply::Yes),
        Answer::Reply(Reply::No),
        Answer::Reply(Reply::Handle(handle)),
        Answer::Reply(Reply::Rate(24_000_000)),
        Answer::Reply(Reply::Clock(Some(ClockId(0)))),
        Answer::Reply(Reply::Clock(None)),
        Answer::Reply(Reply::Refused(Errno::EBUSY)),
        Answer::Skip,
    ];
    check_answers(
        &rt,
        &answers,
        "uart.1 ok\n\
         uart.2 warn\n\
         uart.3 yes\n\
         uart.4 no\n\
         uart.5 handle 3\n\
         uart.6 rate 24000000\n\
         uart.7 clock osc\n\
         uart.8 clock -\n\
         uart.9 err EBUSY\n\
         uart.10 skip\n",
    )
}

#[test]
fn each_refusal_has_the_name_of_linux(rt: HostRuntime) -> Result<(), Fail> {
    let answers = [
        Answer::Reply(Reply::Refused(Errno::EPERM)),
        Answer::Reply(Reply::Refused(Errno::ENOENT)),
        Answer::Reply(Reply::Refused(Errno::EBUSY)),
        Answer::Reply(Reply::Refused(Errno::EEXIST)),
        Answer::Reply(Reply::Refused(Errno::EINVAL)),
        Answer::Reply(Reply::Refused(Errno::ENOSPC)),
        Answer::Reply(Reply::Refused(Errno::ESHUTDOWN)),
        Answer::Reply(Reply::Refused(Errno::ETIMEDOUT)),
        Answer::Reply(Reply::Refused(Errno::EPROBE_DEFER)),
    ];
    check_answers(
        &rt,
        &answers,
        "uart.1 err EPERM\n\
         uart.2 err ENOENT\n\
         uart.3 err EBUSY\n\
         uart.4 err EEXIST\n\
         uart.5 err EINVAL\n\
         uart.6 err ENOSPC\n\
         uart.7 err ESHUTDOWN\n\
         uart.8 err ETIMEDOUT\n\
         uart.9 err EPROBE_DEFER\n",
    )
}

#[test]
fn words_that_are_0_are_left_out(rt: HostRuntime) -> Result<(), Fail> {
    let mut gathered = Gathered::new(rt.alloc());
    let mut out = sink(rt.alloc(), &[])?;
    print_registers(rt.alloc(), &[8, 0, 0, 0xfedc_ba98], &mut gathered, &mut out)?;
    gathered.finish(&mut out)?;
    assert_eq!(rt;
        out.written(),
        b"reg 0 0x00000008\nreg 3 0xfedcba98\n".as_slice()
    );
    Ok(())
}

#[test]
fn a_fault_leaves_a_front(rt: HostRuntime) -> Result<(), Fail> {
    // Each line is 17 bytes, and the sink takes 64 a call.
    let words = [1, 2, 3, 4, 5];
    for (fails, written) in [(1, 0), (2, 64)] {
        let mut gathered = Gathered::new(rt.alloc());
        let mut out = sink(rt.alloc(), &[fails])?;
        print_registers(rt.alloc(), &words, &mut gathered, &mut out)?;
        assert!(rt; gathered.finish(&mut out) == Err(WriteFault::Write));
        assert!(rt; out.written().len() == written);
    }
    Ok(())
}
