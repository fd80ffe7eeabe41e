//! Sources and sinks: reading to the end or to a fault, writing all or a front, signals, and the
//! texts of faults.

use clk_io::{
    Failed, MOST_BYTES, MemSink, MemSource, NoMemory, PrintFault, ReadFault, ReaderSource, Sink,
    Source, StdIn, StdOut, WriteFault, WriterSink, read_all, write_all,
};
use std::io;
use std::io::{ErrorKind, Read, Write};
use std::process::Abort;
use std::test::Fail;

// Reads a source of these bytes, whose calls with the listed numbers fail, and checks what came.
fn check_read<R: Abort + AllocGlobal>(
    rt: &R,
    fail_at: &[u32],
    wanted: Result<&[u8], ReadFault>,
) -> Result<(), Fail> {
    let bytes = [1u8, 2, 3].to_vec(rt.alloc())?;
    let mut source = MemSource::new(bytes, fail_at.to_vec(rt.alloc())?);
    let was = source.faults();
    match read_all(rt.alloc(), &mut source) {
        Ok(all) => assert!(rt; wanted == Ok(all.as_slice())),
        Err(fault) => assert!(rt; wanted == Err(fault)),
    }
    assert_eq!(rt; source.faults() - was, if wanted.is_ok() { 0 } else { 1 });
    Ok(())
}

#[test]
fn reads_to_the_end_or_to_a_fault(rt: HostRuntime) -> Result<(), Fail> {
    check_read(&rt, &[], Ok(&[1, 2, 3]))?;
    check_read(&rt, &[1], Err(ReadFault::Read))?;
    check_read(&rt, &[2], Err(ReadFault::Read))?;
    check_read(&rt, &[3], Ok(&[1, 2, 3]))
}

#[test]
fn refuses_one_byte_more_than_the_most(rt: HostRuntime) -> Result<(), Fail> {
    let mut whole = MemSource::new(vec![in rt.alloc(); 7; MOST_BYTES]?, Vec::new(rt.alloc()));
    assert_eq!(rt; read_all(rt.alloc(), &mut whole)?.len(), MOST_BYTES);
    let mut longer = MemSource::new(
        vec![in rt.alloc(); 7; MOST_BYTES + 1]?,
        Vec::new(rt.alloc()),
    );
    assert!(rt; matches!(read_all(rt.alloc(), &mut longer), Err(ReadFault::TooLong)));
    Ok(())
}

// Writes five bytes into a sink, and checks the answer and what the sink then has.
fn check_write<R: Abort + AllocGlobal>(
    rt: &R,
    room: usize,
    fail_at: &[u32],
    done: bool,
    front: &[u8],
) -> Result<(), Fail> {
    let mut sink = MemSink::new(rt.alloc(), 2, room, fail_at.to_vec(rt.alloc())?)?;
    assert_eq!(rt; write_all(&mut sink, b"clock").is_ok(), done);
    assert_eq!(rt; sink.written(), front);
    assert_eq!(rt; sink.faults(), if done { 0 } else { 1 });
    Ok(())
}

#[test]
fn writes_all_or_a_front(rt: HostRuntime) -> Result<(), Fail> {
    check_write(&rt, 5, &[], true, b"clock")?;
    check_write(&rt, 5, &[1], false, b"")?;
    check_write(&rt, 5, &[2], false, b"cl")?;
    check_write(&rt, 3, &[], false, b"clo")
}

/// A stream whose first call a signal interrupts, whose second passes one byte on, and whose others
/// fail.
#[derive(Drop)]
struct Broken {
    calls: u32,
}

impl Broken {
    // What the next call ends in, where it fails.
    fn call(&mut self) -> io::Result<()> {
        self.calls = self.calls.saturating_add(1);
        match self.calls {
            1 => Err(ErrorKind::Interrupted.into()),
            2 => Ok(()),
            _ => Err(ErrorKind::BrokenPipe.into()),
        }
    }
}

impl Read for Broken {
    fn read(&mut self, into: &mut [u8]) -> io::Result<usize> {
        self.call()?;
        match into.first_mut() {
            Some(first) => {
                *first = 7;
                Ok(1)
            }
            None => Ok(0),
        }
    }
}

impl Write for Broken {
    fn write(&mut self, bytes: &[u8]) -> io::Result<usize> {
        self.call()?;
        Ok(bytes.len().min(1))
    }

    fn flush(&mut self) -> io::Result<()> {
        Ok(())
    }
}

#[test]
fn a_reader_is_read_again_after_a_signal(rt: HostRuntime) {
    let mut source = ReaderSource::new(Broken { calls: 0 });
    let mut into = [0u8; 4];
    assert_eq!(rt; source.read(&mut into), Ok(1));
    assert_eq!(rt; into, [7, 0, 0, 0]);
    assert_eq!(rt; source.faults(), 0);
    assert_eq!(rt; source.read(&mut into), Err(Failed));
    assert_eq!(rt; source.faults(), 1);
}

#[test]
fn a_writer_is_written_again_after_a_signal(rt: HostRuntime) {
    let mut sink = WriterSink::new(Broken { calls: 0 });
    assert_eq!(rt; sink.write(b"clock"), Ok(1));
    assert_eq!(rt; sink.faults(), 0);
    assert_eq!(rt; write_all(&mut sink, b"lock"), Err(WriteFault::Write));
    assert_eq!(rt; sink.faults(), 1);
}

#[test]
fn standard_input_reads_or_counts_a_fault(rt: HostRuntime) {
    let mut source = StdIn::new(rt.stdin());
    match source.read(&mut [0; 1]) {
        Ok(count) => assert!(rt; count <= 1),
        Err(Failed) => assert_eq!(rt; source.faults(), 1),
    }
}

#[test]
fn standard_output_writes(rt: HostRuntime) {
    let mut sink = StdOut::new(rt.stdout());
    assert!(rt; write_all(&mut sink, b"standard output\n").is_ok());
    assert_eq!(rt; sink.faults(), 0);
}

#[test]
fn faults_say_what_went_wrong(rt: HostRuntime) -> Result<(), Fail> {
    let text = format!(in rt.alloc();
        "{}, {}, {}, {}, {}",
        Failed,
        NoMemory,
        ReadFault::TooLong,
        WriteFault::Write,
        PrintFault::Write
    )?;
    assert_eq!(rt;
        text.as_str(),
        "a read or write failed, out of memory, the input is too long, a write failed, a write failed"
    );
    Ok(())
}
