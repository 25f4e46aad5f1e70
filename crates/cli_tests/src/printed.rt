//! The output of a run, and its sink.

ghost use Rattle.std.specs.Prelude.{◌≡◌, length, IfOk};

use drain_cli::runs::judge::run_check;
use drain_device::faults::{ScriptSink, Scripted, SinkAnswer};
use drain_device::{BodyFault, ByteSource, VecSink};
use drain_grid::SetProduct;
use drain_hgt::TileInput;
use drain_sets::FILE_COUNT;
use drain_verdict::Products;
use std::alloc::{AllocError, Global};
use std::process::Abort;
use std::test::Fail;

/// The most bytes that a run of a test prints.
pub const ROOM: usize = 300;

/// Room for all output of a run, so that no sink needs memory.
pub fn room(alloc: Global) -> Result<Vec<u8>, AllocError> {
    Vec::with_capacity(alloc, ROOM)
}

/// A sink that accepts all.
pub fn whole_sink(alloc: Global) -> Result<ScriptSink<'static>, AllocError> {
    Ok(ScriptSink::new(room(alloc)?, 1000, &[]))
}

/// The ninth byte fails.
pub static AT_THE_NINTH: [Scripted<SinkAnswer>; 1] = [Scripted {
    first: 9,
    last: 9,
    answer: SinkAnswer::Failed,
}];

/// A sink that accepts one byte a call, and faults by the script.
pub fn slow_sink<'a>(
    alloc: Global,
    script: &'a [Scripted<SinkAnswer>],
) -> Result<ScriptSink<'a>, AllocError> {
    Ok(ScriptSink::new(room(alloc)?, 1, script))
}

fn empty_file(alloc: Global, capacity: usize) -> Result<VecSink, AllocError> {
    Ok(VecSink::new(Vec::with_capacity(alloc, capacity)?))
}

/// Files for the products of one mosaic, each with room for this number of bytes.
pub fn empty_files(alloc: Global, capacity: usize) -> Result<Vec<VecSink>, Fail>
    ensures { IfOk result (λ files. length files.items ≡ FILE_COUNT) }
{
    let mut files = Vec::new(alloc);
    for _ in 0..FILE_COUNT {
        files.push(empty_file(alloc, capacity)?)?;
    }
    if files.len() != FILE_COUNT {
        return Err("ten files".into());
    }
    Ok(files)
}

/// The bytes of a product's header and of its raster, among the files.
pub fn files_of<'a>(
    files: &'a [VecSink],
    product: SetProduct,
) -> Result<(&'a [u8], &'a [u8]), Fail> {
    let place: usize = match product {
        SetProduct::Con => 0,
        SetProduct::Dir => 2,
        SetProduct::Acc => 4,
        SetProduct::Bas => 6,
        SetProduct::Rnk => 8,
    };
    let (Some(header), Some(raster)) = (files.get(place), files.get(place.saturating_add(1))) else {
        return Err("a file is missing".into());
    };
    Ok((header.as_slice(), raster.as_slice()))
}

/// A copy of a few bytes that owns no memory, so that a test with some is cheap to prove.
#[derive(Clone, Copy)]
pub struct Text {
    bytes: [u8; ROOM],
    length: usize,
}

impl Text {
    pub fn new(of: &[u8]) -> Text {
        let mut bytes = [0; ROOM];
        for (place, byte) in bytes.iter_mut().zip(of) {
            *place = *byte;
        }
        Text {
            bytes,
            length: of.len(),
        }
    }

    /// The bytes; none if there were more than a run prints.
    pub fn as_slice(&self) -> &[u8] {
        self.bytes.get(..self.length).unwrap_or(&[])
    }
}

/// The output of a run, and the status that it ended with.
#[derive(Clone, Copy)]
pub struct Printed {
    printed: Text,
    pub status: u8,
}

impl Printed {
    /// The output of a run, unless it reports that memory ran out.
    pub fn new(printed: &[u8], status: u8) -> Result<Printed, BodyFault> {
        if printed.starts_with(b"failed O") {
            return Err(BodyFault::OutOfMemory);
        }
        Ok(Printed {
            printed: Text::new(printed),
            status,
        })
    }

    /// The bytes that were printed; none if there were more than a run prints.
    pub fn text(&self) -> &[u8] {
        self.printed.as_slice()
    }
}

/// Fails the test if a run printed other bytes or ended with another status, and names the case by its number. A call
/// of it is cheaper to prove than an assertion in place.
pub fn same_run(rt: &impl Abort, case: u64, run: &Printed, text: &[u8], status: u8) {
    assert_eq!(rt; (run.text(), run.status), (text, status), "{case}");
}

/// Fails the test if a run printed another line or ended with another status, and names the case.
pub fn same_line(rt: &impl Abort, case: &str, run: &Printed, line: &str, status: u8) {
    assert_eq!(rt;
        (run.text(), run.status),
        (line.as_bytes(), status),
        "{case}"
    );
}

/// Fails the test if bytes aren't the expected ones, and names the case.
pub fn same_bytes(rt: &impl Abort, case: &str, bytes: &[u8], wanted: &[u8]) {
    assert_eq!(rt; bytes, wanted, "{case}");
}

/// Fails the test if a number isn't the expected one, and names the case by its number.
pub fn same_number(rt: &impl Abort, case: u64, given: u64, wanted: u64) {
    assert_eq!(rt; given, wanted, "{case}");
}

/// Fails the test if something doesn't hold, and names the case by its number.
pub fn holds_at(rt: &impl Abort, case: u64, is_so: bool) {
    assert!(rt; is_so, "{case}");
}

/// Fails the test if something doesn't hold, and names the case.
pub fn holds(rt: &impl Abort, case: &str, is_so: bool) {
    assert!(rt; is_so, "{case}");
}

/// The output of a check with this list of sinks.
pub fn check_printed<R: ByteSource>(
    alloc: Global,
    side: u32,
    tiles: &mut [TileInput<R>],
    sinks: &[u8],
    products: &mut Products<R>,
) -> Result<Printed, Fail> {
    let mut out = VecSink::new(room(alloc)?);
    let status = run_check(alloc, side, tiles, sinks, products, &mut out);
    Ok(Printed::new(out.as_slice(), status)?)
}
