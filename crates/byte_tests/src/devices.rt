//! What no contract says: that the calls of this crate can succeed, over std's readers and writers too, which error
//! of std becomes which fault, and at which call a scripted device answers what. Sinks mostly have their memory
//! first, so that running out of it is reported as such.

use crate::agree::same;
use drain_device::faults::{ScriptSink, ScriptSource, Scripted, SinkAnswer};
use drain_device::{
    BodyFault, ByteList, ByteSink, ByteSource, DeviceFault, GaveUp, Patience, Reader, SliceSource,
    VecSink, Writer, read_body, read_full, write_all, write_nothing,
};
use std::alloc::{AllocError, Global};
use std::io;
use std::io::{ErrorKind, Read, Write};
use std::test::Fail;
use worked::calls::at_calls;

const TEXT: &[u8; 8] = b"drainage";

/// A reader and writer of std that only has errors.
#[derive(Drop)]
struct Broken {
    kind: ErrorKind,
}

impl Read for Broken {
    fn read(&mut self, _buf: &mut [u8]) -> io::Result<usize> {
        Err(io::Error::new(self.kind, "broken"))
    }
}

impl Write for Broken {
    fn write(&mut self, _buf: &[u8]) -> io::Result<usize> {
        Err(io::Error::new(self.kind, "broken"))
    }

    fn flush(&mut self) -> io::Result<()> {
        Err(io::Error::new(self.kind, "broken"))
    }
}

#[test]
fn a_slice_is_read_to_its_end(rt: HostRuntime) -> Result<(), Fail> {
    let mut source = SliceSource::new(TEXT);
    let mut first = [0; 5];
    let read = source.read_some(&mut first);
    let mut out = first;
    let rest = read_full(&mut source, &mut out, &mut Patience::new());
    let at_end = source.read_some(&mut [0; 5]);
    let faults = (source.failures(), source.interruptions());
    let expected = ((*b"drain", *b"agein"), Ok(3), (Ok(5), Ok(0), (0, 0)));
    same(
        &rt,
        "bytes, rest and calls",
        ((first, out), rest, (read, at_end, faults)),
        expected,
    );
    Ok(())
}

#[test]
fn a_list_shows_its_bytes(rt: HostRuntime) -> Result<(), Fail> {
    let list = ByteList::new(TEXT.to_vec(rt.alloc())?);
    same(&rt, "a list", list.as_slice(), TEXT.as_slice());
    Ok(())
}

#[test]
fn a_vector_takes_all(rt: HostRuntime) -> Result<(), Fail> {
    let mut sink = VecSink::new(b"a ".to_vec(rt.alloc())?);
    // It fails only if memory runs out.
    let Ok(taken) = sink.write_some(TEXT) else {
        return Err(BodyFault::OutOfMemory.into());
    };
    same(&rt, "taken", sink.as_slice(), b"a drainage".as_slice());
    let numbers = (taken, sink.failures(), sink.interruptions());
    same(
        &rt,
        "handed out",
        sink.into_inner().as_slice(),
        b"a drainage".as_slice(),
    );
    same(&rt, "numbers", numbers, (8, 0, 0));
    Ok(())
}

/// What a writer of std has of these bytes, and its stalls.
fn written(alloc: Global, bytes: &[u8]) -> Result<(Vec<u8>, u64), Fail> {
    let mut to = Writer::new(Vec::with_capacity(alloc, bytes.len())?);
    write_all(&mut to, bytes, &mut Patience::new())?;
    to.flush()?;
    let stalls = to.stalls();
    Ok((to.into_inner(), stalls))
}

/// What a write of `TEXT` into room for three bytes answers, and its stalls.
fn written_to_three_bytes() -> (Result<(), GaveUp>, u64) {
    let mut room = [0; 3];
    let mut small = Writer::new(room.as_mut_slice());
    let wrote = write_all(&mut small, TEXT, &mut Patience::new());
    (wrote, small.stalls())
}

#[test]
fn readers_and_writers_of_std_are_devices(rt: HostRuntime) -> Result<(), Fail> {
    let mut from = Reader::new(TEXT.as_slice());
    let body = read_body(rt.alloc(), &mut from, 5)?;
    let (copy, stalls) = written(rt.alloc(), &body)?;
    same(&rt, "read", body.as_slice(), b"drain".as_slice());
    same(&rt, "left", from.into_inner(), b"age".as_slice());
    same(&rt, "written", copy.as_slice(), b"drain".as_slice());
    let (wrote, small_stalls) = written_to_three_bytes();
    same(
        &rt,
        "stalls",
        (wrote, small_stalls, stalls),
        (Err(GaveUp), 1, 0),
    );
    Ok(())
}

/// What a read of a reader that only has such errors answers, and the failures and the interruptions.
fn broken_read(kind: ErrorKind) -> (Result<usize, DeviceFault>, (u64, u64)) {
    let mut from = Reader::new(Broken { kind });
    let read = from.read_some(&mut [0]);
    (read, (from.failures(), from.interruptions()))
}

/// What a write answers, and the failures and the interruptions.
type Wrote = (Result<usize, DeviceFault>, (u64, u64));

/// What a flush answers, and whether there are more failures and more interruptions than before it.
type Flushed = (Result<(), DeviceFault>, (bool, bool));

/// What a write to such a writer and then a flush of it answer.
fn broken_write(kind: ErrorKind) -> (Wrote, Flushed) {
    let mut to = Writer::new(Broken { kind });
    let wrote = to.write_some(TEXT);
    let (failures, interruptions) = (to.failures(), to.interruptions());
    let flushed = to.flush();
    let more = (to.failures() > failures, to.interruptions() > interruptions);
    ((wrote, (failures, interruptions)), (flushed, more))
}

/// Errors of std, each with its fault, and how many failures and interruptions it counts as.
static ERRORS: [(ErrorKind, DeviceFault, u64, u64); 3] = [
    (ErrorKind::Interrupted, DeviceFault::Interrupted, 0, 1),
    (ErrorKind::UnexpectedEof, DeviceFault::Failed, 1, 0),
    (ErrorKind::WouldBlock, DeviceFault::Failed, 1, 0),
];

#[test]
fn an_interruption_of_std_is_one_and_every_other_error_is_a_failure(
    rt: HostRuntime,
) -> Result<(), Fail> {
    for &(kind, fault, failures, interruptions) in &ERRORS {
        let counts = (failures, interruptions);
        let more = (failures > 0, interruptions > 0);
        same(&rt, "read", broken_read(kind), (Err(fault), counts));
        let expected = ((Err(fault), counts), (Err(fault), more));
        same(&rt, "write and flush", broken_write(kind), expected);
    }
    Ok(())
}

/// How many bytes are read.
fn length_read(
    alloc: Global,
    from: &mut ScriptSource<'_>,
    limit: usize,
) -> Result<usize, BodyFault> {
    Ok(read_body(alloc, from, limit)?.len())
}

/// How many bytes of `TEXT` are read, one at a call, and whether they are its first.
fn read(
    alloc: Global,
    script: &[Scripted<DeviceFault>],
    limit: usize,
) -> (Result<usize, BodyFault>, bool) {
    let mut from = ScriptSource::new(TEXT, 1, script);
    match read_body(alloc, &mut from, limit) {
        Ok(body) => (Ok(body.len()), TEXT.starts_with(&body)),
        Err(fault) => (Err(fault), true),
    }
}

/// The first and the last call with this answer, the limit of a read, and how many bytes are read.
static READS: [(u64, u64, DeviceFault, usize, Result<usize, BodyFault>); 9] = [
    (1, 1, DeviceFault::Failed, 9, Err(BodyFault::ReadFailed)),
    (5, 5, DeviceFault::Failed, 9, Err(BodyFault::ReadFailed)),
    (9, 9, DeviceFault::Failed, 9, Err(BodyFault::ReadFailed)),
    (10, 10, DeviceFault::Failed, 9, Ok(8)),
    (6, 6, DeviceFault::Failed, 5, Ok(5)),
    (1, 9, DeviceFault::Failed, 0, Ok(0)),
    (3, 1001, DeviceFault::Interrupted, 9, Ok(8)),
    (
        3,
        1002,
        DeviceFault::Interrupted,
        9,
        Err(BodyFault::ReadFailed),
    ),
    (
        1,
        1000,
        DeviceFault::Interrupted,
        9,
        Err(BodyFault::ReadFailed),
    ),
];

/// A source of `TEXT` that gives one byte per call is called nine times for all of it, the last time for the end.
#[test]
fn a_read_gives_up_where_its_source_does(rt: HostRuntime) -> Result<(), Fail> {
    for &(first, last, answer, limit, want) in &READS {
        let script = [at_calls((first, last), answer)];
        same(
            &rt,
            (first, last),
            read(rt.alloc(), &script, limit),
            (want, true),
        );
    }
    Ok(())
}

#[test]
fn a_read_with_no_memory_for_its_limit_reads_nothing(rt: HostRuntime) -> Result<(), Fail> {
    let mut from = ScriptSource::new(TEXT, 8, &[]);
    let length = length_read(rt.alloc(), &mut from, usize::MAX);
    let mut out = [0; 8];
    let read = from.read_some(&mut out);
    same(&rt, "length", length, Err(BodyFault::OutOfMemory));
    same(&rt, "bytes", (read, out), (Ok(8), *TEXT));
    Ok(())
}

/// The result of a write of `TEXT`, one byte per call; how many bytes were taken, and whether they are its first; and
/// whether the sink's counts show a failure for good.
fn write(
    alloc: Global,
    script: &[Scripted<SinkAnswer>],
) -> Result<(Result<(), GaveUp>, usize, bool, bool), AllocError> {
    let mut to = ScriptSink::new(Vec::with_capacity(alloc, 8)?, 1, script);
    let got = write_all(&mut to, TEXT, &mut Patience::new());
    let gave_up = to.failures() > 0 || to.stalls() > 0 || to.interruptions() > 999;
    let taken = to.as_slice();
    Ok((got, taken.len(), TEXT.starts_with(taken), gave_up))
}

/// The first and the last call with this answer, how many bytes are taken, and what a write answers.
static WRITES: [(u64, u64, SinkAnswer, usize, Result<(), GaveUp>); 9] = [
    (1, 1, SinkAnswer::Failed, 0, Err(GaveUp)),
    (4, 4, SinkAnswer::Failed, 3, Err(GaveUp)),
    (8, 8, SinkAnswer::Failed, 7, Err(GaveUp)),
    (9, 9, SinkAnswer::Failed, 8, Ok(())),
    (1, 1, SinkAnswer::TookNone, 0, Err(GaveUp)),
    (8, 8, SinkAnswer::TookNone, 7, Err(GaveUp)),
    (9, 9, SinkAnswer::TookNone, 8, Ok(())),
    (2, 1000, SinkAnswer::Interrupted, 8, Ok(())),
    (2, 1001, SinkAnswer::Interrupted, 1, Err(GaveUp)),
];

/// A sink that takes one byte at a call is called eight times for `TEXT`.
#[test]
fn a_write_gives_up_where_its_sink_does(rt: HostRuntime) -> Result<(), Fail> {
    for &(first, last, answer, taken, want) in &WRITES {
        let script = [at_calls((first, last), answer)];
        let given = write(rt.alloc(), &script)?;
        same(
            &rt,
            (first, last),
            given,
            (want, taken, true, want.is_err()),
        );
    }
    Ok(())
}

/// What a write of nothing answers, and how many bytes were taken.
fn nothing_written(alloc: Global, script: &[Scripted<SinkAnswer>]) -> (Result<(), GaveUp>, usize) {
    let mut to = ScriptSink::new(Vec::new(alloc), 1, script);
    let got = write_nothing(&mut to);
    (got, to.as_slice().len())
}

/// The first and the last call with this answer, and what a write of nothing answers.
static WRITES_OF_NOTHING: [(u64, u64, SinkAnswer, Result<(), GaveUp>); 5] = [
    (1, 1, SinkAnswer::Failed, Err(GaveUp)),
    (2, 2, SinkAnswer::Failed, Ok(())),
    (1, 1, SinkAnswer::Interrupted, Ok(())),
    (1, 999, SinkAnswer::Interrupted, Ok(())),
    (1, 1000, SinkAnswer::Interrupted, Err(GaveUp)),
];

#[test]
fn a_write_of_nothing_gives_up_where_its_sink_does(rt: HostRuntime) -> Result<(), Fail> {
    for &(first, last, answer, want) in &WRITES_OF_NOTHING {
        let script = [at_calls((first, last), answer)];
        let given = nothing_written(rt.alloc(), &script);
        same(&rt, (first, last), given, (want, 0));
    }
    Ok(())
}
