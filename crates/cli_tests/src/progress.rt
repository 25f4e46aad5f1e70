//! When and what `--progress` prints: where rows end, the text of a line, when one is due; and a device without a counter
//! passes on its bytes. Lines on standard error are shown by tests/program/progress.sh.

use crate::printed::{holds, holds_at, same_bytes, same_number};
use drain_device::{BodyFault, ByteSink, ByteSource, SliceSource, VecSink};
use drain_header::parse_header;
use drain_progress::counted_device::CountedDevice;
use drain_progress::progress::Progress;
use drain_progress::progress_lines::{Phase, row_line, stage_line};
use drain_progress::rows::{RowEnds, raster_row_ends, read_rows};
use drain_progress::throttle::Throttle;
use drain_sets::Stage;
use std::alloc::Global;
use std::process::Abort;
use std::test::Fail;

/// A header of 3 rows of 4 pixels of 16 bits, 5 bytes before the first row and 2 between the rows.
const HEADER: &[u8] =
    b"NROWS 3\nNCOLS 4\nNBITS 16\nSKIPBYTES 5\nTOTALROWBYTES 10\nULXMAP 0\nULYMAP 1\nXDIM 1\nYDIM 1\n";

/// How many rows end within this number of bytes.
static ROWS_WITHIN: [(u64, u64); 6] = [(0, 0), (12, 0), (13, 1), (22, 1), (23, 2), (33, 3)];

#[test]
fn rows_end_behind_what_is_skipped(rt: HostRuntime) -> Result<(), Fail> {
    let Ok(header) = parse_header(HEADER) else {
        return Err("a header".into());
    };
    let ends = raster_row_ends(&header);
    for &(bytes, rows) in &ROWS_WITHIN {
        same_number(&rt, bytes, ends.rows_within(bytes), rows);
    }
    let none = RowEnds { first: 0, each: 0 };
    same_number(&rt, 100, none.rows_within(100), 0);
    Ok(())
}

/// What is phase, the row, the number of rows, and the line.
static LINES: [(Phase, u32, u32, &str); 3] = [
    (Phase::Checking, 1200, 3601, "drain: row 1200 of 3601"),
    (Phase::Reading, 1, 2, "drain: reading row 1 of 2"),
    (Phase::Writing, 0, 28801, "drain: writing row 0 of 28801"),
];

#[test]
fn lines_tell_which_rows_are_counted(rt: HostRuntime) {
    for &(phase, row, rows, wanted) in &LINES {
        let line = row_line(phase, row, rows);
        same_bytes(&rt, wanted, line.as_str().as_bytes(), wanted.as_bytes());
    }
}

/// A stage of making products, and the line when it begins.
static STAGES: [(Stage, &str); 4] = [
    (Stage::Surface, "drain: making, 1 of 4: filled elevation"),
    (Stage::Directions, "drain: making, 2 of 4: directions"),
    (Stage::Counts, "drain: making, 3 of 4: accumulation"),
    (Stage::Labels, "drain: making, 4 of 4: basin labels"),
];

#[test]
fn lines_name_the_stage_that_is_made(rt: HostRuntime) {
    for &(stage, wanted) in &STAGES {
        let line = stage_line(stage);
        same_bytes(&rt, wanted, line.as_str().as_bytes(), wanted.as_bytes());
    }
}

/// Milliseconds, and whether a line is due then: after one that was printed at the start, and after one printed at 600.
static DUES: [(u64, bool); 5] = [
    (999, false),
    (1000, true),
    (1999, false),
    (2000, true),
    (10, false),
];

static DUES_BEHIND_600: [(u64, bool); 2] = [(1599, false), (1600, true)];

/// Fails the test if a line is due when none is expected, or none when one is.
fn expect_dues(rt: &impl Abort, mut throttle: Throttle, dues: &[(u64, bool)]) {
    for &(time, is_due) in dues {
        holds_at(rt, time, throttle.is_due(time) == is_due);
    }
}

#[test]
fn a_line_is_due_a_second_after_the_last(rt: HostRuntime) {
    let mut throttle = Throttle::new(0);
    expect_dues(&rt, throttle, &DUES);
    throttle.restart(600);
    expect_dues(&rt, throttle, &DUES_BEHIND_600);
}

#[test]
fn an_uncounted_device_passes_on_its_bytes(rt: HostRuntime) -> Result<(), Fail> {
    let Ok(header) = parse_header(HEADER) else {
        return Err("a header".into());
    };
    let progress = Progress::new(&rt, false);
    let mut source = CountedDevice::new(SliceSource::new(b"drainage"));
    source.count_by(progress.counter(read_rows(Phase::Checking, &header)));
    let mut out = [0; 5];
    let read = source.read_some(&mut out);
    holds(&rt, "no progress is reported", !progress.is_on());
    holds(&rt, "five bytes are read", read == Ok(5));
    same_bytes(&rt, "what is read", &out, b"drain");
    same_number(&rt, 1, source.failures(), 0);
    same_number(&rt, 2, source.interruptions(), 0);
    Ok(())
}

/// How many bytes a sink without a counter accepts, and how many failures and interruptions it counts.
fn taken(alloc: Global) -> Result<(usize, u64, u64), Fail> {
    let mut sink = CountedDevice::new(VecSink::new(Vec::with_capacity(alloc, 8)?));
    match sink.write_some(b"drainage") {
        Ok(taken) => Ok((taken, sink.failures(), sink.interruptions())),
        Err(_) => Err(BodyFault::OutOfMemory.into()),
    }
}

#[test]
fn an_uncounted_sink_takes_its_bytes(rt: HostRuntime) -> Result<(), Fail> {
    let (taken, failures, interruptions) = taken(rt.alloc())?;
    same_number(&rt, 0, taken as u64, 8);
    same_number(&rt, 1, failures, 0);
    same_number(&rt, 2, interruptions, 0);
    Ok(())
}
