//! What `derive` derives, and its files.

ghost use Rattle.std.specs.Prelude.{◌≡◌};
ghost use Rattle.drain_cli.specs.Names.{IfOk, length, DerivedFit, DERIVED_COUNT, ForSet};
ghost use Rattle.drain_cli.specs.DerivedSets.{IsDerivedOn, IsDerivedRun, IsSetHandedOver, with_header};
ghost use Rattle.drain_cli.specs.OpenedInputs.{UsesGround};
ghost use Rattle.drain_maker.specs.Derived.{AreCounts};
ghost use Rattle.drain_verdict.specs.Given.{plain};

use crate::answer::outcome_status;
use crate::runs::run_explain::headers_of_four;
use crate::runs::slips::{OtherShape, other_shape};
use crate::runs::write_set::write_derived_and_place;
use drain_answer::outcome_report;
use drain_answer::print::print_line;
use drain_args::requests::{DeriveArgs, Elevations, ProductArgs};
use drain_device::{ByteSink, ByteSource};
use drain_files::file_id::FileId;
use drain_files::open_failure::print_open_fault;
use drain_files::open_files::Opener;
use drain_files::open_judged::{OpenElevations, OpenFiles, OpenTiles, open_directions};
use drain_files::output_paths::{inputs_or_print, output_paths};
use drain_files::outputs::{Failure, Outputs};
use drain_grid::Product;
use drain_header::Header;
use drain_hgt::TileInput;
use drain_maker::{DeriveRefusal, Derived, derive_on, product_header};
use drain_mosaic::Layout;
use drain_sets::DERIVED_FILES;
use drain_verdict::ground::GroundInput;
use drain_verdict::{AuditProducts, RasterInput};
use std::alloc::Global;

/// Derives rasters of the directions in a folder, writes them into another, and returns the exit status. The files are
/// created once nothing is left to refuse.
// Not inlined, so that the buffer in which a raster is written lies on no other command's stack.
#[inline(never)]
pub fn derive_files(rt: &HostRuntime, args: &DeriveArgs<'_>, out: &mut impl ByteSink) -> u8 {
    let paths = match output_paths(rt.alloc(), args.out, &DERIVED_FILES, out) {
        Ok(paths) => paths,
        Err(status) => return status,
    };
    let mut opener = Opener::new(rt);
    match derived_of_files(&mut opener, &args.inputs, paths.as_slice(), out) {
        Ok((header, derived)) => {
            write_at(rt, paths.as_slice(), opener.ids(), &header, &derived, out)
        }
        Err(status) => status,
    }
}

/// What follows from the directions of these files, which are closed again, with the header of their elevations; or it
/// prints why nothing does, and returns the exit status. Files at the paths of outputs that are inputs are a usage error.
fn derived_of_files(
    opener: &mut Opener<'_>,
    args: &ProductArgs<'_, Elevations<'_>>,
    outputs: &[String],
    out: &mut impl ByteSink,
) -> Result<(Header, Derived), u8>
    ensures written { IfOk result (λ set. DerivedFit set.0 set.1) }
{
    let opened = open_directions(opener, args);
    let mut files = inputs_or_print(opener, opened, "the products", outputs, out)?;
    let derived = derive_opened(opener.alloc(), &mut files, out);
    if let Err(status) = &derived {
        let headers = headers_of_four(&files.products);
        if let Some(shape) = other_shape(opener.alloc(), *status, &files.elevations, &headers) {
            let product = Product::Dir;
            OtherShape { product, ..shape }.print(opener.rt());
        }
    }
    derived
}

/// What follows from the directions that were opened, on their elevations, with the header of these: con's on a mosaic.
pub fn derive_opened<R: ByteSource, W: ByteSink>(
    alloc: Global,
    files: &mut OpenFiles<OpenElevations<R>, AuditProducts<R>>,
    out: &mut W,
) -> Result<(Header, Derived), u8>
    // It follows from these directions, on these elevations with these sinks.
    ensures run { IsDerivedRun R.ByteSource W.ByteSink files.old.elevations files.new.elevations files.old.sinks.items files.old.products files.new.products out.old out.new result }
    ensures written { IfOk result (λ set. DerivedFit set.0 set.1) }
{
    let sinks = files.sinks.as_slice();
    let products = &mut files.products;
    match &mut files.elevations {
        OpenElevations::Tiles(OpenTiles { side, tiles }) => {
            let tiles = tiles.as_mut_slice();
            with_header(derive_set::<R, TileInput<R>, W>(alloc, side, tiles, sinks, products, out))
        }
        OpenElevations::Dem(dem) => {
            derive_set::<R, RasterInput<R>, W>(alloc, &(), dem, sinks, products, out)
        }
    }
}

/// What was derived on a mosaic, with con's header on it.
fn with_header(set: Result<(Layout, Derived), u8>) -> Result<(Header, Derived), u8>
    ensures { result ≡ with_header set }
{
    match set {
        Ok((layout, derived)) => Ok((product_header(&layout, Product::Con), derived)),
        Err(status) => Err(status),
    }
}

/// Creates the files at these paths and writes them, and returns the exit status.
fn write_at(
    rt: &HostRuntime,
    paths: &[String],
    inputs: &[FileId],
    elevations: &Header,
    derived: &Derived,
    out: &mut impl ByteSink,
) -> u8
    requires paths { length paths.now ≡ DERIVED_COUNT }
    requires written { DerivedFit elevations.now derived.now }
{
    let failure = Failure::none();
    let mut outputs = Outputs::new(rt, &failure);
    let status = match outputs.begin(paths, inputs) {
        Ok(mut files) => write_derived_and_place(
            rt.alloc(),
            elevations,
            derived,
            files.as_mut_slice(),
            &mut outputs,
            out,
        ),
        Err(fault) => print_open_fault(rt, fault, out),
    };
    outputs.end();
    status
}

/// Reads a ground and directions, and computes accumulation, labels and ranks of these; with them comes the ground's frame.
/// If they can't be computed, it prints why and returns the exit status: 1 for `rejected NoEnd`, 2 for a refusal, 3 for
/// `failed OutOfMemory` and `failed ReadFailed`, and if the line can't be written.
///
/// Of the products only dir matters; a refusal of con's header names dir's, since con is to have the same header.
pub fn derive_set<R: ByteSource, T: GroundInput<R>, W: ByteSink>(
    alloc: Global,
    key: &T::Key,
    inputs: &mut [T],
    sinks: &[u8],
    products: &mut AuditProducts<R>,
    out: &mut W,
) -> Result<(T::Frame, Derived), u8>
    requires admitted { T.admits inputs.old }
    ensures run { IsDerivedOn (ForSet T.terrain (T.encodes key.now inputs.old) R.bytes_left (plain sinks.now)) (UsesGround T.devices (T.within key.now) T.kept R.bytes_left R.counts inputs.old inputs.new)
        (λ frame. T.fit frame inputs.old × (T.key_of frame ≡ key.now)) W.ByteSink products.old products.new out.old out.new result }
    ensures counts { IfOk result (λ set. AreCounts (T.extent set.0) set.1) }
{
    let derivation = derive_on::<R, T>(alloc, key, inputs, sinks, products);
    or_print(derivation, out)
}

/// What was derived; or it prints why nothing was, and returns the exit status.
fn or_print<F, W: ByteSink>(
    derivation: Result<(F, Derived), DeriveRefusal>,
    out: &mut W,
) -> Result<(F, Derived), u8>
    ensures { IsSetHandedOver W.ByteSink out.old out.new derivation result }
{
    match derivation {
        Ok(set) => Ok(set),
        Err(why) => {
            let outcome = why.outcome();
            Err(print_line(out, &outcome_report(&outcome), outcome_status(&outcome)))
        }
    }
}
