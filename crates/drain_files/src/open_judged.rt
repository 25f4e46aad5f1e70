//! Opening the files to be checked: the tiles in the order given, or the header and the raster of elevations; then each
//! product's header, which is read whole, and raster; then the list of sinks and the text of widths, which are read whole.

ghost use Rattle.std.specs.Prelude.{◌≡◌, [], IfOk, None, Ok};
ghost use Rattle.drain_files.specs.Files.{AreElevationsOf, AreOf, AreTilesOf};
ghost use Rattle.drain_files.specs.OpenSpacings.{IsSpacingOf};

use crate::file_paths::{dem_path, header_path, raster_path};
use crate::open_files::{InputFile, OpenFault, Opener, list_at, open_tiles};
use crate::open_spacing::{OpenSpacing, open_spacing};
use crate::source_or_ones::SourceOrOnes;
use drain_args::requests::{DemArgs, Elevations, ProductArgs, TileArgs};
use drain_device::{ByteList, read_body};
use drain_grid::{Judged, PerProduct, Product, SetProduct, Spacing};
use drain_header::{MAX_HEADER_BYTES, kind_said, parse_header_of};
use drain_hgt::TileInput;
use drain_progress::counted_device::CountedDevice;
use drain_progress::progress::Progress;
use drain_progress::progress_lines::Phase;
use drain_progress::rows::read_rows;
use drain_sets::missing::missing_header;
use drain_sets::{AuditProducts, FilePart, Products, RasterInput};
use std::alloc::Global;

/// Open files, of which only the headers, the list of sinks and the text of widths have been read.
#[derive(Drop)]
pub struct OpenFiles<E, P> {
    pub elevations: E,
    pub products: P,
    pub sinks: Vec<u8>,
    pub spacing: OpenSpacing,
}

/// Open tiles, each with this number of samples along an edge.
#[derive(Drop)]
pub struct OpenTiles<R> {
    pub side: u32,
    pub tiles: Vec<TileInput<R>>,
}

/// Where elevations come from: tiles, or one raster.
#[derive(Drop)]
pub enum OpenElevations<R> {
    Tiles(OpenTiles<R>),
    Dem([RasterInput<R>; 1]),
}

/// The products that are read: five with ranks, or four of which these are judged: no number of another matters.
#[derive(Drop)]
pub enum JudgedProducts<R> {
    Five(Products<R>),
    Four(AuditProducts<R>, Judged),
}

/// Opens the files of a check or an audit. The first fault ends it. No file of another raster is opened. The rows of con
/// are counted for progress.
pub fn open_judged<'a>(
    opener: &mut Opener<'_>,
    args: &ProductArgs<'_, Elevations<'_>>,
    judged: Judged,
    progress: &'a Progress<'a>,
) -> Result<OpenFiles<OpenElevations<InputFile<'a>>, JudgedProducts<InputFile<'a>>>, OpenFault>
    // What is required is what is judged: these rasters, on these elevations and this spacing, and no sinks if no list is
    // named.
    ensures judged { IfOk result (λ files. AreOf judged files.products) }
    ensures elevations { IfOk result (λ files. AreElevationsOf args.now.elevations files.elevations) }
    ensures sinks { args.now.sinks ≡ None → IfOk result (λ files. files.sinks.items ≡ []) }
    ensures spacing { IfOk result (λ files. IsSpacingOf args.now.spacing files.elevations files.spacing) }
{
    let elevations = open_elevations(opener, &args.elevations)?;
    let products = open_products(opener, args.folder, judged, progress);
    let (elevations, products) = with(elevations, products)?;
    let lists = open_lists(opener, args, &elevations);
    let ((elevations, products), (sinks, spacing)) = with((elevations, products), lists)?;
    Ok(OpenFiles {
        elevations,
        products,
        sinks,
        spacing,
    })
}

/// What was opened before with what was opened now, or why that couldn't be. Here the first is dropped by one call; where
/// its type is known each way out of a function takes the steps of each of its members, in the proof too.
fn with<A: Drop, B>(before: A, now: Result<B, OpenFault>) -> Result<(A, B), OpenFault>
    ensures { IfOk result (λ both. (both.0 ≡ before) × (now ≡ Ok both.1)) }
{
    match now {
        Ok(now) => Ok((before, now)),
        Err(fault) => Err(fault),
    }
}

/// Opens the list of sinks and the spacing.
fn open_lists<'a>(
    opener: &mut Opener<'_>,
    args: &ProductArgs<'_, Elevations<'_>>,
    elevations: &OpenElevations<InputFile<'a>>,
) -> Result<(Vec<u8>, OpenSpacing), OpenFault>
    ensures sinks { args.now.sinks ≡ None → IfOk result (λ lists. lists.0.items ≡ []) }
    ensures spacing { IfOk result (λ lists. IsSpacingOf args.now.spacing elevations.now lists.1) }
{
    let sinks = list_at(opener, args.sinks)?;
    let spacing = open_spacing(opener, &args.spacing, elevations)?;
    Ok((sinks, spacing))
}

/// Opens the tiles, or the one raster of elevations.
pub fn open_elevations<'a>(
    opener: &mut Opener<'_>,
    elevations: &Elevations<'_>,
) -> Result<OpenElevations<InputFile<'a>>, OpenFault>
    ensures { IfOk result (AreElevationsOf elevations.now) }
{
    match elevations {
        Elevations::Tiles(tiles) => Ok(OpenElevations::Tiles(open_mosaic(opener, tiles)?)),
        Elevations::Dem(dem) => Ok(OpenElevations::Dem([open_dem(opener, dem)?])),
    }
}

/// Opens the tiles.
fn open_mosaic<'a>(
    opener: &mut Opener<'_>,
    tiles: &TileArgs<'_>,
) -> Result<OpenTiles<InputFile<'a>>, OpenFault>
    ensures { IfOk result (AreTilesOf tiles.now) }
{
    let opened = open_tiles(opener, tiles.paths.as_slice())?;
    Ok(OpenTiles {
        side: tiles.side,
        tiles: opened,
    })
}

/// Opens the header of a raster of elevations, which is read whole, and the raster.
fn open_dem<'a>(
    opener: &mut Opener<'_>,
    dem: &DemArgs<'_>,
) -> Result<RasterInput<InputFile<'a>>, OpenFault> {
    let header = dem_path(opener.alloc(), dem, FilePart::Header)?;
    let raster = dem_path(opener.alloc(), dem, FilePart::Raster)?;
    open_raster(opener, header.as_str(), raster.as_str())
}

/// Opens the files of a window: those of an audit.
pub fn open_audited<'a>(
    opener: &mut Opener<'_>,
    args: &ProductArgs<'_, Elevations<'_>>,
    progress: &'a Progress<'a>,
) -> Result<OpenFiles<OpenElevations<InputFile<'a>>, AuditProducts<InputFile<'a>>>, OpenFault>
    ensures elevations { IfOk result (λ files. AreElevationsOf args.now.elevations files.elevations) }
    ensures sinks { args.now.sinks ≡ None → IfOk result (λ files. files.sinks.items ≡ []) }
    ensures spacing { IfOk result (λ files. IsSpacingOf args.now.spacing files.elevations files.spacing) }
{
    let elevations = open_elevations(opener, &args.elevations)?;
    let products = open_four(opener, args.folder, Judged::All);
    let (elevations, mut products) = with(elevations, products)?;
    count_con(&mut products.con, progress);
    let lists = open_lists(opener, args, &elevations);
    let ((elevations, products), (sinks, spacing)) = with((elevations, products), lists)?;
    Ok(OpenFiles {
        elevations,
        products,
        sinks,
        spacing,
    })
}

/// Opens the elevations, the directions and the list of sinks. Directions alone are given: ones take the place of the
/// other rasters. Spacing makes no difference to what follows from directions.
pub fn open_directions<'a>(
    opener: &mut Opener<'_>,
    args: &ProductArgs<'_, Elevations<'_>>,
) -> Result<OpenFiles<OpenElevations<InputFile<'a>>, AuditProducts<InputFile<'a>>>, OpenFault>
    ensures elevations { IfOk result (λ files. AreElevationsOf args.now.elevations files.elevations) }
    ensures sinks { args.now.sinks ≡ None → IfOk result (λ files. files.sinks.items ≡ []) }
{
    let elevations = open_elevations(opener, &args.elevations)?;
    let dir = open_product(opener, args.folder, Product::Dir);
    let (elevations, dir) = with(elevations, dir)?;
    let con = missing_con(opener.alloc(), &elevations, &dir);
    let ((elevations, dir), con) = with((elevations, dir), con)?;
    let acc = missing_like(opener.alloc(), &dir);
    let ((elevations, dir, con), acc) = with((elevations, dir, con), acc)?;
    let bas = missing_like(opener.alloc(), &dir);
    let ((elevations, dir, con, acc), bas) = with((elevations, dir, con, acc), bas)?;
    let sinks = list_at(opener, args.sinks);
    let products = AuditProducts { con, dir, acc, bas };
    let ((elevations, products), sinks) = with((elevations, products), sinks)?;
    Ok(OpenFiles {
        elevations,
        products,
        sinks,
        spacing: OpenSpacing::Same(Spacing::unit()),
    })
}

/// Opens the rasters.
fn open_products<'a>(
    opener: &mut Opener<'_>,
    folder: &str,
    judged: Judged,
    progress: &'a Progress<'a>,
) -> Result<JudgedProducts<InputFile<'a>>, OpenFault>
    ensures { IfOk result (AreOf judged) }
{
    let mut four = open_four(opener, folder, judged)?;
    count_con(&mut four.con, progress);
    if judged == Judged::AllWithRanks {
        Ok(JudgedProducts::Five(with_ranks(opener, folder, four)?))
    } else {
        Ok(JudgedProducts::Four(four, judged))
    }
}

/// Opens the products of an audit. Ones take the place of those that aren't judged, which no rule looks at.
fn open_four<'a>(
    opener: &mut Opener<'_>,
    folder: &str,
    judged: Judged,
) -> Result<AuditProducts<InputFile<'a>>, OpenFault> {
    let con = open_product(opener, folder, Product::Con)?;
    let dir = open_or(opener, folder, SetProduct::Dir, judged, &con);
    let (con, dir) = with(con, dir)?;
    let acc = open_or(opener, folder, SetProduct::Acc, judged, &con);
    let ((con, dir), acc) = with((con, dir), acc)?;
    let bas = open_or(opener, folder, SetProduct::Bas, judged, &con);
    let ((con, dir, acc), bas) = with((con, dir, acc), bas)?;
    Ok(AuditProducts { con, dir, acc, bas })
}

/// Opens a product if it is judged; else ones that lie as con take its place.
fn open_or<'a>(
    opener: &mut Opener<'_>,
    folder: &str,
    product: SetProduct,
    judged: Judged,
    con: &RasterInput<InputFile<'a>>,
) -> Result<RasterInput<InputFile<'a>>, OpenFault> {
    if judged.has(product) {
        return open_product(opener, folder, product.product());
    }
    missing_like(opener.alloc(), con)
}

/// A missing product: ones, a byte for each cell, that lie as one that is there. Ones, since lanes clear no cell whose
/// direction is 0, judged or not.
fn missing_like<'a>(
    alloc: Global,
    there: &RasterInput<InputFile<'a>>,
) -> Result<RasterInput<InputFile<'a>>, OpenFault> {
    let Ok(text) = missing_header(alloc, there.header.as_slice()) else {
        return Err(OpenFault::no_memory());
    };
    Ok(RasterInput {
        header: ByteList::new(text),
        body: CountedDevice::new(SourceOrOnes::missing()),
    })
}

/// A missing con, of the heights that there are: on a raster of elevations ones with its header.
fn missing_con<'a>(
    alloc: Global,
    elevations: &OpenElevations<InputFile<'a>>,
    dir: &RasterInput<InputFile<'a>>,
) -> Result<RasterInput<InputFile<'a>>, OpenFault> {
    match elevations {
        OpenElevations::Tiles(_) => missing_like(alloc, dir),
        OpenElevations::Dem(dem) => {
            let text = Vec::from_slice(alloc, dem[0].header.as_slice())?;
            Ok(RasterInput {
                header: ByteList::new(text),
                body: CountedDevice::new(SourceOrOnes::missing()),
            })
        }
    }
}

/// Has the rows of con counted.
fn count_con<'a>(con: &mut RasterInput<InputFile<'a>>, progress: &'a Progress<'a>) {
    count_rows(con, Phase::Checking, progress);
}

/// Has the rows of a raster counted, if progress is reported and the header says where they end.
pub fn count_rows<'a>(
    raster: &mut RasterInput<InputFile<'a>>,
    phase: Phase,
    progress: &'a Progress<'a>,
) {
    if !progress.is_on() {
        return;
    }
    let text = raster.header.as_slice();
    if let Ok(header) = parse_header_of(text, kind_said(text)) {
        raster
            .body
            .count_by(progress.counter(read_rows(phase, &header)));
    }
}

/// Opens ranks too: the products of a check.
fn with_ranks<'a>(
    opener: &mut Opener<'_>,
    folder: &str,
    four: AuditProducts<InputFile<'a>>,
) -> Result<Products<InputFile<'a>>, OpenFault> {
    let rnk = open_product(opener, folder, Product::Rnk);
    let (AuditProducts { con, dir, acc, bas }, rnk) = with(four, rnk)?;
    Ok(PerProduct {
        con,
        dir,
        acc,
        bas,
        rnk,
    })
}

fn open_product<'a>(
    opener: &mut Opener<'_>,
    folder: &str,
    product: Product,
) -> Result<RasterInput<InputFile<'a>>, OpenFault> {
    let header = header_path(opener.alloc(), folder, product)?;
    let raster = raster_path(opener.alloc(), folder, product)?;
    open_raster(opener, header.as_str(), raster.as_str())
}

/// Opens a raster, whose header is read whole before.
fn open_raster<'a>(
    opener: &mut Opener<'_>,
    header: &str,
    raster: &str,
) -> Result<RasterInput<InputFile<'a>>, OpenFault> {
    let header = read_header(opener, header)?;
    let body = CountedDevice::new(SourceOrOnes::Source(opener.open(raster)?));
    Ok(RasterInput { header, body })
}

/// The bytes of a header; one more than a header can have means that it is too long.
fn read_header(opener: &mut Opener<'_>, path: &str) -> Result<ByteList, OpenFault> {
    let mut file = opener.open(path)?;
    match read_body(opener.alloc(), &mut file, MAX_HEADER_BYTES + 1) {
        Ok(bytes) => Ok(ByteList::new(bytes)),
        Err(fault) => Err(OpenFault::Body(fault)),
    }
}
