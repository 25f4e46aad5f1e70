//! Writing to sinks that are whole, slow, interrupted or fail, and numbers that pixels can't encode. Sinks have their
//! memory first, so that running out of it is reported as such.

ghost use Rattle.std.specs.Prelude.{◌≡◌, IfOk};
ghost use Rattle.drain_raster.specs.Pixels.{header_extent};

use crate::agree::same;
use crate::rasters::{NOWHERE, PADDED, numbers_in, numbers_of, padded, raster_of, written};
use drain_device::ByteSink;
use drain_device::faults::{ScriptSink, Scripted, SinkAnswer};
use drain_grid::{Cell, HeightKind, Product, Raster};
use drain_header::{ByteOrdering, Header};
use drain_raster::laws::bytes_read_back;
use drain_raster::{WriteFault, read_raster, write_raster};
use std::alloc::{AllocError, Global};
use std::test::Fail;
use worked::calls::at_calls;

/// The bytes of the worked raster, with zeros where no pixel is.
const WRITTEN: [u8; 11] = [0, 1, 0, 0xfe, 0xff, 0, 0, 0x80, 2, 0, 0];

fn worked(alloc: Global) -> Result<Raster, Fail>
    ensures { IfOk result (λ raster. raster.extent ≡ record { rows = 2; cols = 2 }) }
{
    Ok(read_raster(alloc, Product::Con, &padded(ByteOrdering::Least), &PADDED)?)
}

/// The bytes written of the worked raster, if there are eleven, and their numbers, if there are four.
fn written_and_read_back(alloc: Global) -> Result<(Option<[u8; 11]>, Option<[i64; 4]>), Fail> {
    let raster = worked(alloc)?;
    let header = padded(ByteOrdering::Least);
    let written = written(alloc, &header, &raster, WRITTEN.len())?;
    bytes_read_back();
    let again = read_raster(alloc, Product::Con, &header, &written)?;
    Ok((
        written.as_slice().try_into().ok(),
        numbers_in(alloc, &again)?,
    ))
}

#[test]
fn a_worked_raster_is_written_and_read_back(rt: HostRuntime) -> Result<(), Fail> {
    let given = written_and_read_back(rt.alloc())?;
    same(
        &rt,
        "worked",
        given,
        (Some(WRITTEN), Some([1, -2, -32768, 2])),
    );
    Ok(())
}

/// What a write of these numbers to a sink that would fail at its first call answers, how many bytes were taken, and the failures.
fn refused(alloc: Global, numbers: &[i64]) -> Result<(Result<(), WriteFault>, usize, u64), Fail> {
    let Some(raster) = raster_of(alloc, 2, 2, numbers)? else {
        return Err("no raster".into());
    };
    let script = [at_calls((1, 1), SinkAnswer::Failed)];
    let mut sink = ScriptSink::new(Vec::new(alloc), 1, &script);
    let written = write_raster(&mut sink, &padded(ByteOrdering::Least), &raster);
    Ok((written, sink.as_slice().len(), sink.failures()))
}

/// Numbers, each four with the cell of the first that is out of range.
static OUT_OF_RANGE: [([i64; 4], Cell); 4] = [
    ([1, 40000, -32768, 2], Cell { row: 0, col: 1 }),
    ([1, 40000, 40000, 40000], Cell { row: 0, col: 1 }),
    ([-32769, -2, -32768, 2], Cell { row: 0, col: 0 }),
    ([1, -2, -32768, 32768], Cell { row: 1, col: 1 }),
];

/// The sink would fail at its first call, and isn't called.
#[test]
fn the_first_number_out_of_range_is_told_before_any_byte(rt: HostRuntime) -> Result<(), Fail> {
    for (numbers, cell) in &OUT_OF_RANGE {
        let given = refused(rt.alloc(), numbers)?;
        let expected = (Err(WriteFault::OutOfRange(*cell)), 0, 0);
        same(&rt, *numbers, given, expected);
    }
    Ok(())
}

/// What a write of the worked raster answers, one byte at a call; how many bytes were taken, and whether they are its first.
fn write(
    alloc: Global,
    script: &[Scripted<SinkAnswer>],
) -> Result<(Result<(), WriteFault>, usize, bool), Fail> {
    let raster = worked(alloc)?;
    let room = Vec::with_capacity(alloc, WRITTEN.len())?;
    let mut sink = ScriptSink::new(room, 1, script);
    let written = write_raster(&mut sink, &padded(ByteOrdering::Least), &raster);
    let taken = sink.as_slice();
    Ok((written, taken.len(), WRITTEN.starts_with(taken)))
}

/// The first and the last call with this answer, and how many bytes are taken.
static WRITES: [(u64, u64, SinkAnswer, usize); 21] = [
    (1, 1, SinkAnswer::Failed, 0),
    (2, 2, SinkAnswer::Failed, 1),
    (3, 3, SinkAnswer::Failed, 2),
    (4, 4, SinkAnswer::Failed, 3),
    (5, 5, SinkAnswer::Failed, 4),
    (6, 6, SinkAnswer::Failed, 5),
    (7, 7, SinkAnswer::Failed, 6),
    (8, 8, SinkAnswer::Failed, 7),
    (9, 9, SinkAnswer::Failed, 8),
    (10, 10, SinkAnswer::Failed, 9),
    (11, 11, SinkAnswer::Failed, 10),
    (12, 12, SinkAnswer::Failed, 11),
    (1, 1, SinkAnswer::TookNone, 0),
    (6, 6, SinkAnswer::TookNone, 5),
    (11, 11, SinkAnswer::TookNone, 10),
    (12, 12, SinkAnswer::TookNone, 11),
    (1, 999, SinkAnswer::Interrupted, 11),
    (1, 1000, SinkAnswer::Interrupted, 0),
    (6, 1004, SinkAnswer::Interrupted, 11),
    (6, 1005, SinkAnswer::Interrupted, 5),
    (11, 1010, SinkAnswer::Interrupted, 10),
];

/// A sink that takes one byte at a call is called eleven times for the worked raster.
#[test]
fn a_write_fails_where_its_sink_does(rt: HostRuntime) -> Result<(), Fail> {
    for &(first, last, answer, taken) in &WRITES {
        let script = [at_calls((first, last), answer)];
        let expected = if taken < 11 {
            Err(WriteFault::WriteFailed)
        } else {
            Ok(())
        };
        let given = write(rt.alloc(), &script)?;
        same(&rt, (first, last), given, (expected, taken, true));
    }
    Ok(())
}

/// The last of the calls that are interrupted, and what a write answers.
static LAST_INTERRUPTED: [(u64, Result<(), WriteFault>); 2] = [
    (1009, Ok(())),
    (1010, Err(WriteFault::WriteFailed)),
];

/// Interruptions of one write add up, wherever they come: 500 before the first byte, and as many or one less before the last.
#[test]
fn interruptions_add_up_over_a_write(rt: HostRuntime) -> Result<(), Fail> {
    let interrupted = SinkAnswer::Interrupted;
    for &(last, expected) in &LAST_INTERRUPTED {
        let script = [
            at_calls((1, 500), interrupted),
            at_calls((511, last), interrupted),
        ];
        let (written, _, begins) = write(rt.alloc(), &script)?;
        same(&rt, last, (written, begins), (expected, true));
    }
    Ok(())
}

/// Rows longer than one call of the sink takes, with as long a part to skip and after each row.
fn long() -> Header
    ensures { header_extent result ≡ record { rows = 2; cols = 3000 } }
{
    Header {
        rows: 2,
        cols: 3000,
        bits: 32,
        order: ByteOrdering::Most,
        signed: false,
        skip: 5000,
        row_bytes: 17000,
        place: NOWHERE,
        nodata: None,
        kind: HeightKind::Whole,
    }
}

/// Bytes of that raster: its skipped ones and those after a row are zeros, and each pixel's are its row, its column and
/// a 7.
fn long_bytes(alloc: Global) -> Result<Vec<u8>, AllocError> {
    let mut bytes = Vec::new(alloc);
    for _ in 0..5000 {
        bytes.push(0)?;
    }
    for row in 0..2u8 {
        for col in 0..3000u16 {
            let [high, low] = col.to_be_bytes();
            bytes.extend_from_slice(&[row, high, low, 7])?;
        }
        for _ in 12000..17000 {
            bytes.push(0)?;
        }
    }
    Ok(bytes)
}

/// The last of the raster's numbers.
fn last_of(alloc: Global, raster: &Raster) -> Result<Option<i64>, AllocError> {
    Ok(numbers_of(alloc, raster)?.last().copied())
}

/// The last number of these bytes, and whether the same bytes are written.
fn read_and_written(alloc: Global, bytes: &[u8]) -> Result<(Option<i64>, bool), Fail> {
    let header = long();
    let raster = read_raster(alloc, Product::Acc, &header, bytes)?;
    let last = last_of(alloc, &raster)?;
    let written = written(alloc, &header, &raster, bytes.len())?;
    Ok((last, written.as_slice() == bytes))
}

#[test]
fn long_rows_are_written_whole(rt: HostRuntime) -> Result<(), Fail> {
    let bytes = long_bytes(rt.alloc())?;
    let given = read_and_written(rt.alloc(), &bytes)?;
    same(
        &rt,
        "long rows",
        given,
        (Some(16777216 + 2999 * 256 + 7), true),
    );
    Ok(())
}
