//! Runs of `drain fill` over sources and sinks in memory that are slow, interrupted or fail.

use crate::printed::{Printed, same_line, same_run, slow_sink, whole_sink};
use drain_cli::runs::run_fill::run_fill;
use drain_device::faults::{ScriptSink, ScriptSource, Scripted, SinkAnswer};
use drain_device::{ByteSource, DeviceFault, SliceSource};
use std::alloc::Global;
use std::test::Fail;
use worked::calls::at_calls;

/// A tile of side 3 with border 5 and a pit of 1, filled to 5: tile, con, spl, rnk.
const PIT: [u8; 81] = [
    0, 5, 0, 5, 0, 5, 0, 5, 0, 1, 0, 5, 0, 5, 0, 5, 0, 5, // tile
    0, 5, 0, 5, 0, 5, 0, 5, 0, 5, 0, 5, 0, 5, 0, 5, 0, 5, // con
    0, 0, 0, 0, 1, 0, 0, 0, 0, // spl
    0, 0, 0, 0, 0, 0, 0, 0, 0, 0, 0, 0, 0, 0, 0, 0, 0, 0, // rnk
    0, 1, 0, 0, 0, 0, 0, 0, 0, 0, 0, 0, 0, 0, 0, 0, 0, 0, // rnk
];

/// The pit, once for all that read it.
fn pit() -> &'static [u8; 81] {
    &PIT
}

const PIT_LINE: &str = "accepted rows=3 cols=3 data=9 raised=1\n";

/// The output of a run over the input.
fn printed<R: ByteSource>(
    alloc: Global,
    side: u32,
    input: &mut R,
    mut out: ScriptSink<'_>,
) -> Result<Printed, Fail> {
    let status = run_fill(alloc, side, input, &mut out);
    Ok(Printed::new(out.as_slice(), status)?)
}

/// The output of a run over the pit, whose source gives at most this number of bytes a call, and faults by the script.
fn told_slowly(
    alloc: Global,
    most: usize,
    script: &[Scripted<DeviceFault>],
) -> Result<Printed, Fail> {
    if most == 0 {
        return Err("a byte at a call, or more".into());
    }
    let out = whole_sink(alloc)?;
    let mut input = ScriptSource::new(pit(), most, script);
    printed(alloc, 3, &mut input, out)
}

/// How many bytes a source gives a call, at which calls it faults, the status and the line.
static FAULTS: [(&str, usize, u64, u64, DeviceFault, u8, &str); 5] = [
    ("one byte a call", 1, 0, 0, DeviceFault::Failed, 0, PIT_LINE),
    (
        "999 interruptions",
        1000,
        1,
        999,
        DeviceFault::Interrupted,
        0,
        PIT_LINE,
    ),
    (
        "999 interruptions in the middle",
        1,
        50,
        1048,
        DeviceFault::Interrupted,
        0,
        PIT_LINE,
    ),
    (
        "1,000 interruptions",
        1000,
        1,
        1000,
        DeviceFault::Interrupted,
        3,
        "failed ReadFailed\n",
    ),
    (
        "interruptions for ever",
        1000,
        1,
        u64::MAX,
        DeviceFault::Interrupted,
        3,
        "failed ReadFailed\n",
    ),
];

#[test]
fn bears_999_interruptions_of_its_input(rt: HostRuntime) -> Result<(), Fail> {
    for &(name, most, first, last, answer, status, line) in &FAULTS {
        let script = [at_calls((first, last), answer)];
        let answered = told_slowly(rt.alloc(), most, &script)?;
        same_line(&rt, name, &answered, line, status);
    }
    Ok(())
}

#[test]
fn never_takes_a_failed_input_for_its_end(rt: HostRuntime) -> Result<(), Fail> {
    for call in 1..=82 {
        let script = [at_calls((call, call), DeviceFault::Failed)];
        let answered = told_slowly(rt.alloc(), 1, &script)?;
        same_run(&rt, call, &answered, b"failed ReadFailed\n", 3);
    }
    Ok(())
}

/// The output of a run over the pit into a sink that accepts one byte a call, and faults by the script.
fn told_into(alloc: Global, script: &[Scripted<SinkAnswer>]) -> Result<Printed, Fail> {
    let out = slow_sink(alloc, script)?;
    let mut input = SliceSource::new(pit());
    printed(alloc, 3, &mut input, out)
}

/// The answers of a sink at which calls, how many bytes of the line it accepts, and the status.
static SINKS: [(&str, SinkAnswer, u64, u64, usize, u8); 5] = [
    ("a failure at once", SinkAnswer::Failed, 1, 1, 0, 3),
    (
        "a failure at the line end",
        SinkAnswer::Failed,
        39,
        39,
        38,
        3,
    ),
    ("no byte is taken", SinkAnswer::TookNone, 20, 20, 19, 3),
    (
        "1,000 interruptions",
        SinkAnswer::Interrupted,
        1,
        1000,
        0,
        3,
    ),
    ("999 interruptions", SinkAnswer::Interrupted, 1, 999, 39, 0),
];

#[test]
fn ends_with_status_3_where_the_line_cannot_be_written(rt: HostRuntime) -> Result<(), Fail> {
    for &(name, answer, first, last, written, status) in &SINKS {
        let script = [at_calls((first, last), answer)];
        let answered = told_into(rt.alloc(), &script)?;
        let wanted = PIT_LINE.get(..written).unwrap_or("");
        same_line(&rt, name, &answered, wanted, status);
    }
    Ok(())
}
