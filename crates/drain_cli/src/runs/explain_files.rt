//! Explaining the products of a folder: its files are opened as for a check or an audit, and opened again for details.

ghost use Rattle.std.specs.Prelude.{◌≡◌, ◌↔◌};
ghost use Rattle.drain_cli.specs.Names.{length, IfOk, IsSome, IsTrue, Some, Json, Drawn};
ghost use Rattle.drain_grid.specs.declared.judged.Judged as grid;

use crate::runs::explain_opened::run_explain_on;
use crate::runs::judge_files::print_usage_error;
use crate::runs::run_explain;
use crate::runs::run_explain::{ExplainOutput, MapFault, PageFailure, print_page_failure};
use drain_answer::outcome::Status;
use drain_args::form::Form;
use drain_args::requests::{Elevations, ExplainArgs};
use drain_device::{ByteSink, write_nothing};
use drain_explain::{FileLookup, Mapping};
use drain_files::file_id::FileId;
use drain_files::file_paths::{header_path, raster_path};
use drain_files::map_file::{MapClash, map_clash, map_paths, write_map};
use drain_files::open_failure::{Placing, place_written, print_no_spacing, print_reason};
use drain_files::open_files::{OpenFault, Opener};
use drain_files::open_judged::open_judged;
use drain_files::outputs::{Failure, Outputs, look};
use drain_grid::{Judged, Product};
use drain_header::Header;
use drain_progress::progress::Progress;
use drain_sets::SetFault;
use std::alloc::Global;

/// Explains the products of a folder, and returns the exit status.
///
/// If a map is required and standard output is closed nothing is opened: the map would take its place. Ranks are
/// checked if a file of theirs is there.
pub fn explain_files(rt: &HostRuntime, args: &ExplainArgs<'_>, out: &mut impl ByteSink) -> u8 {
    if args.map.is_some() && write_nothing(out).is_err() {
        return Status::Failed.code();
    }
    match judged_of(rt, args) {
        Ok(judged) => explain_opened(rt, args, judged, out),
        Err(fault) => print_unopened(rt, fault, form(args), out),
    }
}

/// The rasters of the list, if one is given; else those of a check if the folder has a header or a raster of ranks, and
/// those of an audit if it has none. A failure is never taken for their absence.
fn judged_of(rt: &HostRuntime, args: &ExplainArgs<'_>) -> Result<Judged, OpenFault>
    ensures { (judged : grid.Judged) → args.now.only ≡ Some judged → IfOk result (λ found. found ≡ judged) }
{
    if let Some(judged) = args.only {
        return Ok(judged);
    }
    let folder = args.inputs.folder;
    let header = header_path(rt.alloc(), folder, Product::Rnk)?;
    if look(rt, header.as_str())?.is_some() {
        return Ok(Judged::AllWithRanks);
    }
    let raster = raster_path(rt.alloc(), folder, Product::Rnk)?;
    match look(rt, raster.as_str())? {
        Some(_) => Ok(Judged::AllWithRanks),
        None => Ok(Judged::All),
    }
}

/// Explains the answer of a check or of an audit.
fn explain_opened(
    rt: &HostRuntime,
    args: &ExplainArgs<'_>,
    judged: Judged,
    out: &mut impl ByteSink,
) -> u8 {
    let progress = Progress::new(rt, args.inputs.progress);
    let mut opener = Opener::new(rt);
    match open_judged(&mut opener, &args.inputs, judged, &progress) {
        Ok(mut files) => {
            if let Some(status) = refused_map(rt, args, opener.ids(), out) {
                return status;
            }
            run_explain_on(
                rt.alloc(),
                &mut files,
                mapping(args),
                form(args),
                &mut OnDisk {
                    rt,
                    args,
                    inputs: opener.into_ids(),
                },
                out,
            )
        }
        Err(fault) => print_unopened(rt, fault, form(args), out),
    }
}

/// If a map is required that must not be written there, prints why, and returns the exit status.
fn refused_map(
    rt: &HostRuntime,
    args: &ExplainArgs<'_>,
    inputs: &[FileId],
    out: &mut impl ByteSink,
) -> Option<u8> {
    match map_clash(rt, args.inputs.folder, args.map?, inputs) {
        Ok(None) => None,
        Ok(Some((path, clash))) => {
            print_clash(rt, path.as_str(), clash);
            Some(usage_error(form(args), out))
        }
        Err(fault) => Some(print_unopened(rt, fault, form(args), out)),
    }
}

/// Prints why the files aren't open, and returns the exit status.
fn print_unopened(rt: &HostRuntime, fault: OpenFault, form: Form, out: &mut impl ByteSink) -> u8 {
    let why = match fault {
        OpenFault::Open(path, reason) => {
            print_reason(rt, path.as_str(), reason);
            PageFailure::Open(path)
        }
        OpenFault::Body(fault) => PageFailure::from(fault),
        OpenFault::NoSpacing => {
            print_no_spacing(rt);
            return usage_error(form, out);
        }
    };
    print_page_failure(rt.alloc(), &why, form, out)
}

/// The exit status of a usage error; in the form of an object it is printed.
fn usage_error(form: Form, out: &mut impl ByteSink) -> u8 {
    match form {
        Form::Text => Status::Refused.code(),
        Form::Json => print_usage_error(out),
    }
}

/// Prints the usage error for a map that must not be written there.
fn print_clash(rt: &HostRuntime, path: &str, clash: MapClash) {
    let _ = match clash {
        MapClash::Input => {
            eprintln!(rt; "error: the map would overwrite {path}, which is an input")
        }
        MapClash::Output => {
            eprintln!(rt; "error: the header and the raster of the map are one file, {path}")
        }
        MapClash::Product => {
            eprintln!(rt; "error: the map would be taken for a product: {path}")
        }
    };
}

/// Whether a map is drawn.
fn mapping(args: &ExplainArgs<'_>) -> Mapping
    ensures { (result ≡ Drawn) ↔ IsSome args.now.map }
{
    match args.map {
        Some(_) => Mapping::Drawn,
        None => Mapping::Undrawn,
    }
}

/// The form of the explanation.
fn form(args: &ExplainArgs<'_>) -> Form
    ensures { (result ≡ Json) ↔ IsTrue args.now.json }
{
    if args.json { Form::Json } else { Form::Text }
}

/// The arguments, the files at their paths, and which plain files were opened.
#[derive(Drop)]
struct OnDisk<'r, 'a, 'e> {
    rt: &'r HostRuntime,
    args: &'a ExplainArgs<'e>,
    inputs: Vec<FileId>,
}

impl<'r, 'a, 'e> FileLookup for OnDisk<'r, 'a, 'e> {
    // No clause says what a file gives.
    ghost shows = { λ look place start metres. Unit {0} };

    fn tile_length(&mut self, place: usize) -> Option<u64> {
        match &self.args.inputs.elevations {
            Elevations::Tiles(tiles) => run_explain::tile_length(self.rt, tiles, place),
            Elevations::Dem(_) => None,
        }
    }

    fn dem_length(&mut self) -> Option<u64> {
        match &self.args.inputs.elevations {
            Elevations::Tiles(_) => None,
            Elevations::Dem(dem) => run_explain::dem_length(self.rt, dem),
        }
    }

    fn raster_length(&mut self, product: Product) -> Option<u64> {
        let args = self.args;
        run_explain::raster_length(self.rt, args.inputs.folder, product)
    }

    fn sample(&mut self, place: usize, start: u64) -> Option<i16> {
        match &self.args.inputs.elevations {
            Elevations::Tiles(tiles) => run_explain::sample(self.rt, tiles, place, start),
            Elevations::Dem(_) => None,
        }
    }
}

impl<'r, 'a, 'e> ExplainOutput for OnDisk<'r, 'a, 'e> {
    // No clause says what a file takes.
    ghost has_saved = { λ like pixels old new result. Unit {0} };

    fn save_map(&mut self, like: &Header, pixels: &[u8]) -> Result<(), MapFault> {
        match self.args.map {
            Some(stem) => save(self.rt, stem, self.inputs.as_slice(), like, pixels),
            None => Ok(()),
        }
    }
}

/// Writes the two files of a map, which then get their names. If that fails it prints why on standard error.
fn save(
    rt: &HostRuntime,
    stem: &str,
    inputs: &[FileId],
    like: &Header,
    pixels: &[u8],
) -> Result<(), MapFault> {
    let Ok(paths) = map_paths(rt.alloc(), stem) else {
        return Err(MapFault::OutOfMemory);
    };
    let failure = Failure::none();
    let mut outputs = Outputs::new(rt, &failure);
    let saved = match outputs.begin(paths.as_slice(), inputs) {
        Ok(mut files) => write_begun(rt.alloc(), like, pixels, files.as_mut_slice(), &mut outputs),
        Err(OpenFault::Open(path, reason)) => {
            print_reason(rt, path.as_str(), reason);
            Err(MapFault::Open(path))
        }
        Err(OpenFault::Body(_) | OpenFault::NoSpacing) => Err(MapFault::OutOfMemory),
    };
    outputs.end();
    saved
}

/// Writes the header and the raster of a map, which then get their names.
fn write_begun<F: ByteSink, P: Placing>(
    alloc: Global,
    like: &Header,
    pixels: &[u8],
    files: &mut [F],
    places: &mut P,
) -> Result<(), MapFault>
    requires { length files.old ≡ 2 }
{
    let (headers, rasters) = files.split_at_mut(1);
    let written = write_map(alloc, like, pixels, &mut headers[0], &mut rasters[0]);
    match place_written(written, places) {
        Ok(()) => Ok(()),
        Err(SetFault::WriteFailed) => Err(MapFault::WriteFailed),
        Err(SetFault::OutOfMemory) => Err(MapFault::OutOfMemory),
    }
}
