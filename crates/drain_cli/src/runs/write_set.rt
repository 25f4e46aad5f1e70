//! The last part of a run of `drain make` or `drain derive`: the files are written and get their names, and the result is
//! printed.

ghost use Rattle.std.specs.Prelude.{◌≡◌, ◌++◌, ◌≤◌};
ghost use Rattle.drain_cli.specs.Names.{length, Result, codes, decimal, IsNamed, DerivedFit, SetFits, WritesSet, derived_bytes, WritesFiles, SetFault, DERIVED_COUNT, FILE_COUNT, Prints};
ghost use Rattle.drain_cli.specs.DerivedSets.{derived_line};
ghost use Rattle.drain_cli.specs.MadeSets.{made_line, written_line, written_status};
ghost use Rattle.drain_raster.specs.Pixels.{header_extent};

use drain_answer::lines::{Line, push_number, words};
use drain_answer::outcome::Status;
use drain_answer::print::print_line;
use drain_device::ByteSink;
use drain_files::open_failure::{Placing, place_written};
use drain_grid::{ProductSet, Shape};
use drain_header::Header;
use drain_maker::Derived;
use drain_maker::product_files::{write_derived, write_files};
use drain_raster::shape;
use drain_sets::SetFault;
use std::alloc::Global;

/// Writes header and raster of each product, in the order of `SET_FILES`, gives the files their names, prints
/// `made rows=R cols=C` and returns the exit status.
///
/// The first file that can't be written ends it: then a first part of its bytes was written, later files weren't
/// touched, the line is `failed WriteFailed` and the status 3. If memory is refused for a header's text the line is
/// `failed OutOfMemory` and the status 3. No name is given before every file has all its bytes; if a name can't be given
/// the line is `failed WriteFailed` and the status 3. The status is also 3 if the line can't be written.
pub fn write_and_place<F: ByteSink, P: Placing, W: ByteSink>(
    alloc: Global,
    elevations: &Header,
    products: &ProductSet,
    files: &mut [F],
    places: &mut P,
    out: &mut W,
) -> u8
    requires counted { length files.old ≡ FILE_COUNT }
    requires written { SetFits elevations.now products.now }
    ensures run { (done told : Result (Unit {0}) SetFault)
        × WritesSet F.ByteSink elevations.now products.now files.old files.new done
        × IsNamed P.has_placed places.old places.new done told
        × Prints W.ByteSink out.old out.new (made_line (header_extent elevations.now) told) (written_status told) result }
{
    let written = write_files(alloc, elevations, products, files);
    place_and_print("made rows=", shape(elevations), written, places, out)
}

/// Writes header and raster of accumulation, labels and ranks, in the order of `DERIVED_FILES`, gives the files their
/// names, prints `derived rows=R cols=C` and returns the exit status.
///
/// Faults, lines and statuses are those of `write_and_place`. No name is given before every file has all its bytes.
pub fn write_derived_and_place<F: ByteSink, P: Placing, W: ByteSink>(
    alloc: Global,
    elevations: &Header,
    derived: &Derived,
    files: &mut [F],
    places: &mut P,
    out: &mut W,
) -> u8
    requires counted { length files.old ≡ DERIVED_COUNT }
    requires written { DerivedFit elevations.now derived.now }
    ensures run { (done told : Result (Unit {0}) SetFault)
        × WritesFiles F.ByteSink files.old files.new (derived_bytes elevations.now derived.now) done
        × IsNamed P.has_placed places.old places.new done told
        × Prints W.ByteSink out.old out.new (derived_line (header_extent elevations.now) told) (written_status told) result }
{
    let written = write_derived(alloc, elevations, derived, files);
    place_and_print("derived rows=", shape(elevations), written, places, out)
}

/// Gives the files their names if all were written, prints the line of the result, which begins with this text, and
/// returns the exit status.
fn place_and_print<P: Placing, W: ByteSink>(
    text: &'static str,
    shape: Shape,
    written: Result<(), SetFault>,
    places: &mut P,
    out: &mut W,
) -> u8
    requires { length text.now ≤ 40 }
    ensures { (told : Result (Unit {0}) SetFault) × IsNamed P.has_placed places.old places.new written told
        × Prints W.ByteSink out.old out.new (written_line text.now shape told) (written_status told) result }
{
    let told = place_written(written, places);
    print_line(out, &line_of(text, shape, &told), status_of(&told))
}

/// The line for the result of writing rasters of this shape: these words and the numbers of rows and columns, if all
/// were written.
fn line_of(text: &'static str, shape: Shape, done: &Result<(), SetFault>) -> Line
    requires { length text.now ≤ 40 }
    ensures { result.bytes ≡ written_line text.now shape done.now }
{
    match done {
        Ok(()) => shape_line(text, shape),
        Err(SetFault::WriteFailed) => words("failed WriteFailed"),
        Err(SetFault::OutOfMemory) => words("failed OutOfMemory"),
    }
}

fn shape_line(text: &'static str, shape: Shape) -> Line
    requires { length text.now ≤ 40 }
    ensures { result.bytes ≡ text.now ++ decimal shape.rows ++ codes " cols=" ++ decimal shape.cols }
{
    let mut line = words(text);
    push_number(&mut line, shape.rows());
    line.push_str(" cols=");
    push_number(&mut line, shape.cols());
    line
}

/// The exit status for the result of writing.
fn status_of(done: &Result<(), SetFault>) -> Status
    ensures { result ≡ written_status done.now }
{
    match done {
        Ok(()) => Status::Done,
        Err(_) => Status::Failed,
    }
}
