//! The first part of a run of `drain window`: the window is judged.

ghost use Rattle.std.specs.Prelude.{◌≡◌, ◌++◌, ◌⊎◌};
ghost use Rattle.drain_cli.specs.Names.{ForSet, IfSome};
ghost use Rattle.drain_files.specs.FilePaths.{header_ending, raster_ending};
ghost use Rattle.drain_cli.specs.OpenedInputs.{UsesGround, given_in};
ghost use Rattle.drain_cli.specs.WindowRuns.{IsWindowHandedOver, IsWindowRun, IsWindowRunOn, refusal_code};

use crate::runs::opened_given::given_of;
use crate::runs::report_output::{report_path, write_at};
use crate::runs::run_explain::headers_of_four;
use crate::runs::slips::{other_kind, other_shape};
use drain_answer::outcome::Status;
use drain_answer::print::{print_failure, print_line};
use drain_args::requests::WindowArgs;
use drain_device::{BodyFault, ByteSink, ByteSource, write_nothing};
use drain_files::map_file::is_named_as_product;
use drain_files::open_failure::print_open_fault;
use drain_files::open_files::Opener;
use drain_files::open_judged::{OpenElevations, OpenFiles, OpenTiles, open_audited};
use drain_files::output_paths::inputs_or_print;
use drain_grid::Cell;
use drain_hgt::TileInput;
use drain_progress::progress::Progress;
use drain_union::{Place, WindowReport};
use drain_verdict::{AuditProducts, Given, RasterInput};
use drain_window::answered::refusal_line;
use drain_window::{WindowGround, WindowRefusal, judge_window_on};
use std::alloc::Global;

/// Judges a window of the mosaic of these tiles, or of this part of a raster of elevations, writes its report, prints
/// the line and returns the exit status. The report's file is created once nothing is left to refuse.
pub fn window_files(rt: &HostRuntime, args: &WindowArgs<'_>, out: &mut impl ByteSink) -> u8 {
    // If standard output is closed no file may be opened, as the first would take its place.
    if write_nothing(out).is_err() {
        return Status::Failed.code();
    }
    let Ok(path) = report_path(rt.alloc(), args.report) else {
        return print_failure(out, BodyFault::OutOfMemory);
    };
    let progress = Progress::new(rt, args.inputs.progress);
    let mut opener = Opener::new(rt);
    match judged_files(&mut opener, args, path.as_slice(), &progress, out) {
        Ok(window) => write_at(rt, path.as_slice(), opener.ids(), &window, out),
        Err(status) => status,
    }
}

/// What is to be reported of the window of these files, which are closed again; or it prints why there is nothing, and
/// returns the exit status. A report at the path of an input is a usage error, and so is one with the name of a
/// product's file in the folder of the products, which a later run would take for that product.
fn judged_files<'a>(
    opener: &mut Opener<'_>,
    args: &WindowArgs<'_>,
    report: &[String],
    progress: &'a Progress<'a>,
    out: &mut impl ByteSink,
) -> Result<WindowReport, u8> {
    let opened = open_audited(opener, &args.inputs, progress);
    let mut files = inputs_or_print(opener, opened, "the report", report, out)?;
    if let Some(status) = refused_name(opener.rt(), args, out) {
        return Err(status);
    }
    let window = judge_opened(opener.alloc(), &mut files, &args.place, args.at, out);
    if let Err(status) = &window {
        let headers = headers_of_four(&files.products);
        if let Some(shape) = other_shape(opener.alloc(), *status, &files.elevations, &headers) {
            shape.print(opener.rt());
        }
        if let Some(kind) = other_kind(*status, &files.elevations, &headers) {
            kind.print(opener.rt());
        }
    }
    window
}

/// Judges the window of the files that were opened, which lies at this place of the mosaic, or of the whole raster of
/// elevations, of which the part that was opened begins at this cell; and returns what is to be reported. If there is
/// no verdict, it prints why and returns the exit status.
pub fn judge_opened<R: ByteSource, W: ByteSink>(
    alloc: Global,
    files: &mut OpenFiles<OpenElevations<R>, AuditProducts<R>>,
    place: &Place,
    at: Cell,
    out: &mut W,
) -> Result<WindowReport, u8>
    // What is judged are these products, on these elevations with these sinks and this spacing.
    ensures run { IsWindowRun R.ByteSource W.ByteSink place.now at files.old.elevations files.new.elevations (given_in files.old) files.old.products files.new.products out.old out.new result }
{
    let given = given_of(files.sinks.as_slice(), &files.spacing);
    let products = &mut files.products;
    match &mut files.elevations {
        OpenElevations::Tiles(OpenTiles { side, tiles }) => judge_or_print::<R, TileInput<R>, W>(
            alloc,
            side,
            &(),
            tiles.as_mut_slice(),
            &given,
            products,
            place,
            out,
        ),
        OpenElevations::Dem(dem) => judge_or_print::<R, RasterInput<R>, W>(
            alloc,
            &(),
            &at,
            dem,
            &given,
            products,
            place,
            out,
        ),
    }
}

/// If the report has the name of a product's file in the folder of the products, prints the usage error, and returns
/// the exit status.
fn refused_name(rt: &HostRuntime, args: &WindowArgs<'_>, out: &mut impl ByteSink) -> Option<u8> {
    let stem = product_stem(args.report)?;
    match is_named_as_product(rt, args.inputs.folder, stem) {
        Ok(false) => None,
        Ok(true) => {
            let path = args.report;
            let _ = eprintln!(rt; "error: the report would be taken for a product: {path}");
            Some(Status::Refused.code())
        }
        Err(fault) => Some(print_open_fault(rt, fault, out)),
    }
}

/// The part of a path before the ending of a product's file, none if it ends otherwise.
fn product_stem(path: &str) -> Option<&str>
    ensures { IfSome result (λ stem. (path.now ≡ stem.now ++ raster_ending) ⊎ (path.now ≡ stem.now ++ header_ending)) }
{
    if let Some(stem) = path.strip_suffix(".bil") {
        return Some(stem);
    }
    path.strip_suffix(".hdr")
}

/// Judges the window that lies at this place of a ground, which begins so in the union, and returns what is to be
/// reported. If there is no verdict, it prints why and returns the exit status: 2 for a refusal, 3 for `failed
/// OutOfMemory` and `failed ReadFailed`, and if the line can't be written.
///
/// `key`, `inputs`, `given` and `products` are those of an audit of the ground, and are read as by an audit.
pub fn judge_or_print<R: ByteSource, T: WindowGround<R>, W: ByteSink>(
    alloc: Global,
    key: &T::Key,
    at: &T::At,
    inputs: &mut [T],
    given: &Given,
    products: &mut AuditProducts<R>,
    place: &Place,
    out: &mut W,
) -> Result<WindowReport, u8>
    requires admitted { T.GroundInput.admits inputs.old }
    ensures run { IsWindowRunOn (ForSet T.GroundInput.terrain (T.GroundInput.encodes key.now inputs.old) R.bytes_left given.now)
        (UsesGround T.GroundInput.devices (T.GroundInput.within key.now) T.GroundInput.kept R.bytes_left R.counts inputs.old inputs.new)
        (T.in_range at.now) (T.named at.now key.now inputs.old) W.ByteSink place.now products.old products.new out.old out.new result }
{
    let outcome = judge_window_on::<R, T>(alloc, key, at, inputs, given, products, place);
    hand_over(outcome, out)
}

/// Returns what is to be reported of a window, or prints why there is nothing, and returns the exit status.
fn hand_over<W: ByteSink>(
    outcome: Result<WindowReport, WindowRefusal>,
    out: &mut W,
) -> Result<WindowReport, u8>
    ensures { IsWindowHandedOver W.ByteSink out.old out.new outcome result }
{
    match outcome {
        Ok(window) => Ok(window),
        Err(refusal) => Err(print_line(out, &refusal_line(&refusal), status_of(&refusal))),
    }
}

/// The exit status of a refusal.
fn status_of(refusal: &WindowRefusal) -> Status
    ensures { result ≡ refusal_code refusal.now }
{
    match refusal {
        WindowRefusal::Inputs(refusal) => Status::of_refusal(*refusal),
        WindowRefusal::OutsideMosaic => Status::Refused,
    }
}
