//! Runs of `drain header` over sources and sinks in memory that are long, slow, interrupted or fail.

use crate::printed::{Printed, same_number, same_run, slow_sink, whole_sink};
use drain_cli::runs::run_header::run_header;
use drain_device::faults::{ScriptSink, ScriptSource, Scripted, SinkAnswer};
use drain_device::{BodyFault, ByteSource, DeviceFault, SliceSource};
use std::alloc::Global;
use std::test::Fail;
use worked::calls::at_calls;
use worked::headers::CON_TEXT;

/// What a run over the input prints.
fn printed<R: ByteSource>(
    alloc: Global,
    input: &mut R,
    mut out: ScriptSink<'_>,
) -> Result<Printed, Fail> {
    let status = run_header(alloc, input, &mut out);
    Ok(Printed::new(out.as_slice(), status)?)
}

/// What a run over these bytes prints, and how many bytes its source still gives.
fn told(alloc: Global, bytes: &[u8]) -> Result<(Printed, usize), Fail> {
    let out = whole_sink(alloc)?;
    let mut input = SliceSource::new(bytes);
    let answered = printed(alloc, &mut input, out)?;
    match input.read_some(&mut [0; 70000]) {
        Ok(rest) => Ok((answered, rest)),
        Err(_) => Err(BodyFault::ReadFailed.into()),
    }
}

/// The output of a run over the small header, whose source gives one byte a call, and faults by the script.
fn told_slowly(alloc: Global, script: &[Scripted<DeviceFault>]) -> Result<Printed, Fail> {
    let out = whole_sink(alloc)?;
    let mut input = ScriptSource::new(CON_TEXT.as_bytes(), 1, script);
    printed(alloc, &mut input, out)
}

/// The output of a run over the small header into a sink that accepts one byte a call, and faults by the script.
fn told_into(alloc: Global, script: &[Scripted<SinkAnswer>]) -> Result<Printed, Fail> {
    let out = slow_sink(alloc, script)?;
    let mut input = SliceSource::new(CON_TEXT.as_bytes());
    printed(alloc, &mut input, out)
}

/// Line feeds, more than a header can have.
static LINE_FEEDS: [u8; 70000] = [b'\n'; 70000];

/// How many line feeds there are, the line, and how many bytes are left.
static LONG_HEADERS: [(usize, &str, usize); 3] = [
    (65536, "refused MissingKey NROWS\n", 0),
    (65537, "refused TooLong\n", 0),
    (70000, "refused TooLong\n", 70000 - 65537),
];

/// A header has at most 65,536 bytes, and at most one byte more is read.
#[test]
fn reads_one_byte_past_the_longest_header(rt: HostRuntime) -> Result<(), Fail> {
    for &(length, line, left) in &LONG_HEADERS {
        let Some(bytes) = LINE_FEEDS.get(..length) else {
            return Err("more line feeds".into());
        };
        let (answered, rest) = told(rt.alloc(), bytes)?;
        same_run(&rt, length as u64, &answered, line.as_bytes(), 2);
        same_number(&rt, length as u64, rest as u64, left as u64);
    }
    Ok(())
}

/// The answers of a source at which calls, the status and the text.
static FAULTS: [(DeviceFault, u64, u64, u8, &str); 3] = [
    (DeviceFault::Interrupted, 3, 1001, 0, CON_TEXT),
    (DeviceFault::Interrupted, 3, 1002, 3, "failed ReadFailed\n"),
    (DeviceFault::Failed, 200, 200, 3, "failed ReadFailed\n"),
];

#[test]
fn bears_999_interruptions_of_its_file(rt: HostRuntime) -> Result<(), Fail> {
    for &(answer, first, last, status, text) in &FAULTS {
        let script = [at_calls((first, last), answer)];
        let answered = told_slowly(rt.alloc(), &script)?;
        same_run(&rt, last, &answered, text.as_bytes(), status);
    }
    Ok(())
}

/// The answers of a sink from its hundredth call on.
static SINK_ANSWERS: [(u64, SinkAnswer); 3] = [
    (0, SinkAnswer::Failed),
    (1, SinkAnswer::TookNone),
    (2, SinkAnswer::Interrupted),
];

#[test]
fn ends_with_status_3_where_the_header_cannot_be_written(rt: HostRuntime) -> Result<(), Fail> {
    for &(case, answer) in &SINK_ANSWERS {
        let script = [at_calls((100, 1099), answer)];
        let answered = told_into(rt.alloc(), &script)?;
        same_run(&rt, case, &answered, &CON_TEXT.as_bytes()[..99], 3);
    }
    Ok(())
}
