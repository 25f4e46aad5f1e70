//! A run of `explain`: the answer, its page and its map.

ghost use Rattle.std.specs.Prelude.{◌≡◌, ◌++◌};
ghost use Rattle.drain_cli.specs.Names.{ℕ, List, IfOk, Ok, codes, string_bytes, Result, Fields, PrintsText};
ghost use Rattle.drain_cli.specs.ExplainRuns.{Explains, IsFailureObject, IsNoPage, IsNoPageLine, IsSaved, no_page_answer, no_page_of, place_on_tiles};
ghost use Rattle.drain_cli.specs.declared.runs.run_explain.MapFault.{MapFault};

use crate::answer::outcome_status;
use drain_answer::outcome::Status;
use drain_answer::print::{print_failure, print_text};
use drain_args::form::Form;
use drain_args::requests::{DemArgs, TileArgs};
use drain_device::{BodyFault, ByteSink, Patience, Reader, read_full};
use drain_explain::Findings;
use drain_files::file_paths::{dem_path, raster_path};
use drain_files::open_failure::print_open_failure;
use drain_files::open_judged::JudgedProducts;
use drain_grid::{PerProduct, Product};
use drain_header::Header;
use drain_maker::product_header;
use drain_mosaic::Layout;
use drain_page::{Facts, Frame, OUT_OF_MEMORY_OBJECT, failure_json, page_json, page_text};
use drain_sets::FilePart;
use drain_verdict::AuditProducts;
use std::alloc::{AllocError, Global};
use std::fs;
use std::fs::File;
use std::io::{Seek, SeekFrom};

/// How many bytes the tile in this place of the arguments has.
pub fn tile_length(rt: &HostRuntime, args: &TileArgs<'_>, place: usize) -> Option<u64> {
    length_of(rt, args.paths.as_slice().get(place)?)
}

/// How many bytes the raster of elevations has.
pub fn dem_length(rt: &HostRuntime, args: &DemArgs<'_>) -> Option<u64> {
    let path = dem_path(rt.alloc(), args, FilePart::Raster).ok()?;
    length_of(rt, path.as_str())
}

/// How many bytes the product's raster has.
pub fn raster_length(rt: &HostRuntime, folder: &str, product: Product) -> Option<u64> {
    let path = raster_path(rt.alloc(), folder, product).ok()?;
    length_of(rt, path.as_str())
}

/// The sample that begins at this byte of the tile in this place of the arguments.
pub fn sample(rt: &HostRuntime, args: &TileArgs<'_>, place: usize, start: u64) -> Option<i16> {
    let path = args.paths.as_slice().get(place)?;
    // a pipe isn't opened again: it may never yield anything
    length_of(rt, path)?;
    let mut file = File::open(rt, path).ok()?;
    file.seek(SeekFrom::Start(start)).ok()?;
    let mut bytes = [0; 2];
    let came = read_full(&mut Reader::new(file), &mut bytes, &mut Patience::new()).ok()?;
    if came < bytes.len() {
        return None;
    }
    Some(i16::from_be_bytes(bytes))
}

/// How many bytes a plain file has.
fn length_of(rt: &HostRuntime, path: &str) -> Option<u64> {
    let metadata = fs::metadata(rt, path).ok()?;
    if metadata.is_file() {
        Some(metadata.len())
    } else {
        None
    }
}

/// Why there is no page.
#[derive(Drop)]
pub enum PageFailure {
    /// The file at this path can't be opened or created.
    Open(String),
    /// An input failed, or was interrupted for the 1,000th time; or a list of sinks or a text of widths is too
    /// long.
    ReadFailed,
    /// A file of a map failed, was interrupted for the 1,000th time, or accepted no byte of some.
    WriteFailed,
    /// Memory was refused.
    OutOfMemory,
}

impl From<BodyFault> for PageFailure {
    fn from(fault: BodyFault) -> PageFailure {
        match fault {
            BodyFault::ReadFailed => PageFailure::ReadFailed,
            BodyFault::OutOfMemory => PageFailure::OutOfMemory,
        }
    }
}

impl From<MapFault> for PageFailure {
    fn from(fault: MapFault) -> PageFailure
        ensures { result ≡ no_page_of fault }
    {
        match fault {
            MapFault::Open(path) => PageFailure::Open(path),
            MapFault::WriteFailed => PageFailure::WriteFailed,
            MapFault::OutOfMemory => PageFailure::OutOfMemory,
        }
    }
}

/// Prints why there is no page in the form of the explanation, and returns the status of a failure. If there is no
/// memory for the path or for the object, it prints that.
pub fn print_page_failure<W: ByteSink>(
    alloc: Global,
    why: &PageFailure,
    form: Form,
    out: &mut W,
) -> u8
    ensures { (text : List ℕ) × IsNoPage form why.now text
        × PrintsText W.ByteSink out.old out.new text Status.Failed result }
{
    match form {
        Form::Text => print_as_line(alloc, why, out),
        Form::Json => print_as_object(alloc, why, out),
    }
}

fn print_as_line<W: ByteSink>(alloc: Global, why: &PageFailure, out: &mut W) -> u8
    ensures { (text : List ℕ) × IsNoPageLine why.now text
        × PrintsText W.ByteSink out.old out.new text Status.Failed result }
{
    match why {
        PageFailure::Open(path) => print_open_failure(alloc, out, path.as_str()),
        PageFailure::ReadFailed => print_failure(out, BodyFault::ReadFailed),
        PageFailure::WriteFailed => print_text(out, b"failed WriteFailed\n", Status::Failed),
        PageFailure::OutOfMemory => print_failure(out, BodyFault::OutOfMemory),
    }
}

fn print_as_object<W: ByteSink>(alloc: Global, why: &PageFailure, out: &mut W) -> u8
    ensures { (text : List ℕ) × IsFailureObject (no_page_answer why.now) text
        × PrintsText W.ByteSink out.old out.new text Status.Failed result }
{
    match why {
        PageFailure::Open(path) => print_failed_open(alloc, path.as_str(), out),
        PageFailure::ReadFailed => print_object(alloc, "failed ReadFailed", out),
        PageFailure::WriteFailed => print_object(alloc, "failed WriteFailed", out),
        PageFailure::OutOfMemory => print_out_of_memory(out),
    }
}

fn print_failed_open<W: ByteSink>(alloc: Global, path: &str, out: &mut W) -> u8
    ensures { (text : List ℕ) × IsFailureObject (codes "failed Open " ++ path.now) text
        × PrintsText W.ByteSink out.old out.new text Status.Failed result }
{
    match failed_open(alloc, path) {
        Ok(line) => print_object(alloc, line.as_str(), out),
        Err(_) => print_out_of_memory(out),
    }
}

/// The line without a line end.
pub(crate) fn failed_open(alloc: Global, path: &str) -> Result<String, AllocError>
    ensures { IfOk result (λ line. string_bytes line ≡ codes "failed Open " ++ path.now) }
{
    let mut line = String::from_str(alloc, "failed Open ")?;
    line.push_str(path)?;
    Ok(line)
}

/// Prints the object with this answer.
fn print_object<W: ByteSink>(alloc: Global, answer: &str, out: &mut W) -> u8
    ensures { (text : List ℕ) × IsFailureObject answer.now text
        × PrintsText W.ByteSink out.old out.new text Status.Failed result }
{
    match failure_json(alloc, answer) {
        Ok(object) => print_text(out, object.as_bytes(), Status::Failed),
        Err(_) => print_out_of_memory(out),
    }
}

/// Prints that there is no memory, and returns the status of a failure. It takes none.
pub fn print_out_of_memory<W: ByteSink>(out: &mut W) -> u8
    ensures { PrintsText W.ByteSink out.old out.new OUT_OF_MEMORY_OBJECT.now Status.Failed result }
{
    print_text(out, OUT_OF_MEMORY_OBJECT.as_bytes(), Status::Failed)
}

/// Why a map wasn't saved.
#[derive(Drop)]
pub enum MapFault {
    /// The file at this path can't be created.
    Open(String),
    /// A file failed, was interrupted for the 1,000th time, or accepted no byte of some.
    WriteFailed,
    /// Memory was refused.
    OutOfMemory,
}

/// Where a grid lies, for its page and its map.
pub trait MapFrame: Frame {
    ghost place: { Self → Fields };

    /// The header of a raster that lies there.
    fn raster_header(&self) -> Header
        ensures { result ≡ place self.now };
}

impl MapFrame for Layout {
    ghost place = { place_on_tiles };

    fn raster_header(&self) -> Header {
        product_header(self, Product::Dir)
    }
}

impl MapFrame for Header {
    ghost place = { λ header. header };

    fn raster_header(&self) -> Header {
        *self
    }
}

/// The place of a map.
pub trait ExplainOutput {
    /// A call for a map that lies as this header says, with these pixels, led from the one state to the other, with this
    /// result.
    ghost has_saved: { Fields → List ℕ → Self → Self → Result (Unit {0}) MapFault → Type 0 };

    /// Saves the map of the faults, which lies as the raster with this header does.
    fn save_map(&mut self, like: &Header, pixels: &[u8]) -> Result<(), MapFault>
        ensures { has_saved like.now pixels.now self.old self.new result };
}

/// Saves the map, if there is one, then prints the page, and returns the exit status: that of the answer, or that of a
/// failure.
///
/// If the map can't be saved it prints why in place of the page, and if memory is refused for the page it prints that:
/// in the form of the page.
pub fn explain<F: MapFrame, B: ExplainOutput, W: ByteSink>(
    alloc: Global,
    facts: &Facts<F>,
    form: Form,
    beside: &mut B,
    out: &mut W,
) -> u8
    // A map that is required was saved, or the page isn't printed.
    ensures { (saved : Result (Unit {0}) MapFault) × IsSaved B.has_saved F.place facts.now.findings beside.old beside.new saved
        × Explains W.ByteSink out.old out.new saved form facts.now.answer result }
{
    match save(facts, beside) {
        Ok(()) => print_page(alloc, facts, form, out),
        Err(fault) => print_page_failure(alloc, &PageFailure::from(fault), form, out),
    }
}

/// Saves the map, if there is one.
fn save<F: MapFrame, B: ExplainOutput>(facts: &Facts<F>, beside: &mut B) -> Result<(), MapFault>
    ensures { IsSaved B.has_saved F.place facts.now.findings beside.old beside.new result }
{
    match &facts.findings {
        Some(
            Findings {
                layout,
                map: Some(map),
                ..
            },
        ) => beside.save_map(&layout.raster_header(), &map.pixels),
        _ => Ok(()),
    }
}

/// Prints the page, or that there is no memory for it.
fn print_page<F: Frame, W: ByteSink>(alloc: Global, facts: &Facts<F>, form: Form, out: &mut W) -> u8
    ensures { Explains W.ByteSink out.old out.new (Ok tt) form facts.now.answer result }
{
    let status = outcome_status(&facts.answer);
    match form {
        Form::Text => match page_text(alloc, facts) {
            Ok(page) => print_text(out, &page, status),
            Err(_) => print_page_failure(alloc, &PageFailure::OutOfMemory, form, out),
        },
        Form::Json => match page_json(alloc, facts, status) {
            Ok(page) => print_text(out, page.as_bytes(), status),
            Err(_) => print_page_failure(alloc, &PageFailure::OutOfMemory, form, out),
        },
    }
}

/// The headers of the products, empty for ranks that weren't opened.
pub(crate) fn headers_of<R>(products: &JudgedProducts<R>) -> PerProduct<&[u8]> {
    match products {
        JudgedProducts::Five(five) => PerProduct {
            con: five.con.header.as_slice(),
            dir: five.dir.header.as_slice(),
            acc: five.acc.header.as_slice(),
            bas: five.bas.header.as_slice(),
            rnk: five.rnk.header.as_slice(),
        },
        JudgedProducts::Four(four, _) => headers_of_four(four),
    }
}

/// The headers of the four products of an audit.
pub(crate) fn headers_of_four<R>(products: &AuditProducts<R>) -> PerProduct<&[u8]> {
    PerProduct {
        con: products.con.header.as_slice(),
        dir: products.dir.header.as_slice(),
        acc: products.acc.header.as_slice(),
        bas: products.bas.header.as_slice(),
        rnk: &[],
    }
}
