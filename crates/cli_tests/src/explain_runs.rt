//! Runs of `drain explain` on a level tile of side 2, whose page or map can't be written.

use crate::level_tile::{TILE, four, tile};
use crate::printed::{Printed, Text, same_bytes, same_line, slow_sink, whole_sink};
use drain_args::form::Form;
use drain_cli::runs::explain_opened::run_explain;
use drain_cli::runs::run_explain::{ExplainOutput, MapFault};
use drain_device::BodyFault;
use drain_device::faults::{ScriptSink, Scripted, SinkAnswer};
use drain_explain::{FileLookup, Mapping};
use drain_files::map_file::write_map;
use drain_files::open_judged::JudgedProducts;
use drain_grid::{Judged, Product};
use drain_header::Header;
use drain_sets::SetFault;
use drain_verdict::Given;
use std::alloc::{AllocError, Global};
use std::test::Fail;

/// The header of a map of the tile.
const MAP_HEADER: &str =
    "BYTEORDER I\nLAYOUT BIL\nNROWS 2\nNCOLS 2\nNBANDS 1\nNBITS 8\nBANDROWBYTES 2\nTOTALROWBYTES 2\nSKIPBYTES 0\nPIXELTYPE UNSIGNEDINT\nULXMAP 0.000000000000000\nULYMAP 1.000000000000000\nXDIM 1.000000000000000\nYDIM 1.000000000000000\nNODATA 255\n";

/// What comes besides the inputs: no second look at them, and two files in memory for a map.
#[derive(Drop)]
struct InMemory<'a> {
    alloc: Global,
    header: ScriptSink<'a>,
    raster: ScriptSink<'a>,
}

impl<'a> FileLookup for InMemory<'a> {
    ghost shows = { λ look place start metres. ⊥ };

    fn tile_length(&mut self, _place: usize) -> Option<u64> {
        None
    }

    fn dem_length(&mut self) -> Option<u64> {
        None
    }

    fn raster_length(&mut self, _product: Product) -> Option<u64> {
        None
    }

    fn sample(&mut self, _place: usize, _start: u64) -> Option<i16> {
        None
    }
}

impl<'a> ExplainOutput for InMemory<'a> {
    ghost has_saved = { λ like pixels old new result. Unit {0} };

    fn save_map(&mut self, like: &Header, pixels: &[u8]) -> Result<(), MapFault> {
        match write_map(self.alloc, like, pixels, &mut self.header, &mut self.raster) {
            Ok(()) => Ok(()),
            Err(SetFault::WriteFailed) => Err(MapFault::WriteFailed),
            Err(SetFault::OutOfMemory) => Err(MapFault::OutOfMemory),
        }
    }
}

/// The first output of a run, the status, and what its files accepted.
#[derive(Clone, Copy)]
struct Explained {
    page: Printed,
    header: Text,
    raster: Text,
}

/// The given number of bytes of a run's output, and what its files accepted; or that it reported that memory ran out.
fn outcome(
    page: &[u8],
    length: usize,
    status: u8,
    beside: &InMemory<'_>,
) -> Result<Explained, BodyFault> {
    if tells_want_of_memory(page) {
        return Err(BodyFault::OutOfMemory);
    }
    Ok(Explained {
        page: Printed::new(page.get(..length).unwrap_or(page), status)?,
        header: Text::new(beside.header.as_slice()),
        raster: Text::new(beside.raster.as_slice()),
    })
}

/// Whether a run reported that memory ran out, by its line or in an object, or by two bytes of its line if the third
/// can't be written.
fn tells_want_of_memory(printed: &[u8]) -> bool {
    printed == b"fa".as_slice()
        || printed.starts_with(b"failed O")
        || printed.starts_with(b"{\"answer\":\"failed O")
}

/// The output of a run on right products in this form, of the given number of bytes, and what its files accept.
fn explain(
    alloc: Global,
    form: Form,
    length: usize,
    beside: &mut InMemory<'_>,
    out: &mut ScriptSink<'_>,
) -> Result<Explained, Fail> {
    let mut tiles = [tile(alloc, TILE)?];
    let mut products = JudgedProducts::Four(four(alloc, &[0; 4], &[1, 2, 3, 4])?, Judged::All);
    let status = run_explain(
        alloc,
        &2_u32,
        &mut tiles,
        &Given::plain(&[]),
        &mut products,
        Mapping::Drawn,
        form,
        beside,
        out,
    );
    Ok(outcome(out.as_slice(), length, status, beside)?)
}

/// Files that accept all.
fn in_memory(alloc: Global) -> Result<InMemory<'static>, AllocError> {
    Ok(InMemory {
        alloc,
        header: whole_sink(alloc)?,
        raster: whole_sink(alloc)?,
    })
}

/// The most bytes that a page of these tests has.
const PAGE_ROOM: usize = 8000;

/// A sink with room for a page, so that it needs no memory, which accepts all.
fn page_sink(alloc: Global) -> Result<ScriptSink<'static>, AllocError> {
    let room = Vec::with_capacity(alloc, PAGE_ROOM)?;
    Ok(ScriptSink::new(room, 1000, &[]))
}

/// The first byte, and no other, fails.
static AT_ONCE: [Scripted<SinkAnswer>; 1] = [Scripted {
    first: 1,
    last: 1,
    answer: SinkAnswer::Failed,
}];

/// The third byte fails.
const AT_THE_THIRD: [Scripted<SinkAnswer>; 1] = [Scripted {
    first: 3,
    last: 3,
    answer: SinkAnswer::Failed,
}];

/// The output of a run on right products, of the given number of bytes, and what its files accept, which fault by these
/// scripts.
fn told_in(
    alloc: Global,
    header: &[Scripted<SinkAnswer>],
    raster: &[Scripted<SinkAnswer>],
    length: usize,
) -> Result<Explained, Fail> {
    let mut beside = in_slow_memory(alloc, header, raster)?;
    let mut out = page_sink(alloc)?;
    explain(alloc, Form::Text, length, &mut beside, &mut out)
}

/// Files that accept one byte a call, and fault by these scripts.
fn in_slow_memory<'a>(
    alloc: Global,
    header: &'a [Scripted<SinkAnswer>],
    raster: &'a [Scripted<SinkAnswer>],
) -> Result<InMemory<'a>, AllocError> {
    Ok(InMemory {
        alloc,
        header: slow_sink(alloc, header)?,
        raster: slow_sink(alloc, raster)?,
    })
}

/// Which file fails, the scripts of header and raster, and what they accepted.
static FAILING_FILES: [(
    &str,
    &[Scripted<SinkAnswer>],
    &[Scripted<SinkAnswer>],
    &str,
    &str,
); 2] = [
    ("its header", &AT_THE_THIRD, &[], "BY", ""),
    ("its raster", &[], &AT_THE_THIRD, MAP_HEADER, "\0\0"),
];

#[test]
fn a_map_that_cannot_be_written_is_told_in_place_of_the_page(rt: HostRuntime) -> Result<(), Fail> {
    let line = "failed WriteFailed\n";
    for &(name, of_header, of_raster, header, raster) in &FAILING_FILES {
        let answered = told_in(rt.alloc(), of_header, of_raster, line.len())?;
        same_line(&rt, name, &answered.page, line, 3);
        same_bytes(&rt, name, answered.header.as_slice(), header.as_bytes());
        same_bytes(&rt, name, answered.raster.as_slice(), raster.as_bytes());
    }
    Ok(())
}

/// The output of a run on right products in this form, of the given number of bytes, into a sink that accepts one byte
/// a call and faults by the script.
fn told_into(
    alloc: Global,
    form: Form,
    script: &[Scripted<SinkAnswer>],
    length: usize,
) -> Result<Explained, Fail> {
    let mut beside = in_memory(alloc)?;
    let mut out = slow_sink(alloc, script)?;
    explain(alloc, form, length, &mut beside, &mut out)
}

#[test]
fn ends_with_status_3_where_a_page_cannot_be_written(rt: HostRuntime) -> Result<(), Fail> {
    let answered = told_into(rt.alloc(), Form::Text, &AT_THE_THIRD, 2)?;
    same_line(&rt, "a page", &answered.page, "ac", 3);
    let answered = told_into(rt.alloc(), Form::Json, &AT_ONCE, 0)?;
    same_line(&rt, "an object", &answered.page, "", 3);
    Ok(())
}
