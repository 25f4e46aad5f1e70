//! What `make` makes, and its files.

ghost use Rattle.std.specs.Prelude.{◌≡◌};
ghost use Rattle.drain_cli.specs.Names.{[], IfOk, None, length, map, IfErr, OnOk, SetFits, made_header, FILE_COUNT, SomeReadFails, names_of, tile_devices, TilesTakeAtMost, AreElevationsOf, Prints, IsSpacingOf, AreHeadersKept, DemTakesAtMost, dem_devices};
ghost use Rattle.drain_cli.specs.declared.runs.make_set.NoSet.{NoSet};
ghost use Rattle.drain_cli.specs.MadeSets.{IsDemSetOf, IsNoDemSet, IsNoSet, IsSetOf, IsSetOn, no_set_line, no_set_status};
ghost use Rattle.drain_cli.specs.OpenedInputs.{given_in};
ghost use Rattle.drain_verdict.specs.Given.{plain};

use crate::runs::made_spacing;
use crate::runs::made_spacing::{MadeSpacing, NoSpacing, spacing_to_make};
use crate::runs::opened_given::given_of;
use crate::runs::write_set::write_and_place;
use drain_answer::lines::{Line, refusal_line, words};
use drain_answer::outcome::Status;
use drain_answer::print::print_line;
use drain_args::requests::{Elevations, ProductArgs};
use drain_device::{ByteSink, ByteSource};
use drain_files::file_id::FileId;
use drain_files::open_failure::print_open_fault;
use drain_files::open_files::{InputFile, OpenFault, Opener, create_files, list_at};
use drain_files::open_judged::{OpenElevations, OpenFiles, OpenTiles, count_rows, open_elevations};
use drain_files::open_spacing::open_spacing;
use drain_files::output_paths::{inputs_or_print, output_paths};
use drain_files::outputs::{Failure, Outputs};
use drain_grid::{HeightKind, Product, ProductSet, SinkFault, parse_sinks};
use drain_header::Header;
use drain_hgt::TileInput;
use drain_maker::{
    Dem, MakeRefusal, Mosaic, make_dem, make_freeing, product_header, read_dem, read_mosaic,
};
use drain_mosaic::Layout;
use drain_progress::progress::{MakeProgress, Progress};
use drain_progress::progress_lines::Phase;
use drain_progress::rows::count_tiles;
use drain_sets::{Follow, SET_FILES};
use drain_verdict::{Given, RasterInput, Refusal};
use std::alloc::Global;

/// Makes products of elevations and writes them into a folder, and returns the exit status. The files are created once
/// nothing is left to refuse.
// Not inlined, so that the buffer in which a raster is written lies on no other command's stack.
#[inline(never)]
pub fn make_from_files(
    rt: &HostRuntime,
    args: &ProductArgs<'_, Elevations<'_>>,
    out: &mut impl ByteSink,
) -> u8 {
    let progress = Progress::new(rt, args.progress);
    let paths = match output_paths(rt.alloc(), args.folder, &SET_FILES, out) {
        Ok(paths) => paths,
        Err(status) => return status,
    };
    let mut opener = Opener::new(rt);
    match made_of_files(&mut opener, &progress, args, paths.as_slice(), out) {
        Ok((header, products)) => write_at(
            rt,
            &progress,
            paths.as_slice(),
            opener.ids(),
            &header,
            &products,
            out,
        ),
        Err(status) => status,
    }
}

/// The products of the elevations at these paths, whose files are closed again, with the elevations' header; or it prints
/// why there are none, and returns the exit status. Files at the paths of outputs that are inputs are a usage error.
fn made_of_files<'a>(
    opener: &mut Opener<'_>,
    progress: &'a Progress<'a>,
    args: &ProductArgs<'_, Elevations<'_>>,
    outputs: &[String],
    out: &mut impl ByteSink,
) -> Result<(Header, ProductSet), u8>
    ensures written { IfOk result (λ set. SetFits set.0 set.1) }
{
    let opened = open_inputs(opener, args);
    let mut files = inputs_or_print(opener, opened, "the products", outputs, out)?;
    count_elevations(&mut files.elevations, progress);
    make_opened(opener.alloc(), &mut files, &mut MakeProgress(progress), out)
}

/// Opens the elevations, and reads the list of sinks and the text of widths. The first fault ends it.
fn open_inputs<'a>(
    opener: &mut Opener<'_>,
    args: &ProductArgs<'_, Elevations<'_>>,
) -> Result<OpenFiles<OpenElevations<InputFile<'a>>, ()>, OpenFault>
    ensures elevations { IfOk result (λ files. AreElevationsOf args.now.elevations files.elevations) }
    ensures sinks { args.now.sinks ≡ None → IfOk result (λ files. files.sinks.items ≡ []) }
    ensures spacing { IfOk result (λ files. IsSpacingOf args.now.spacing files.elevations files.spacing) }
{
    let elevations = open_elevations(opener, &args.elevations)?;
    let sinks = list_at(opener, args.sinks)?;
    let spacing = open_spacing(opener, &args.spacing, &elevations)?;
    Ok(OpenFiles {
        elevations,
        products: (),
        sinks,
        spacing,
    })
}

/// Has the rows of elevations counted.
fn count_elevations<'a>(
    elevations: &mut OpenElevations<InputFile<'a>>,
    progress: &'a Progress<'a>,
) {
    match elevations {
        OpenElevations::Tiles(open) => {
            let side = open.side;
            count_tiles(open.tiles.as_mut_slice(), side, progress);
        }
        OpenElevations::Dem(dem) => count_rows(&mut dem[0], Phase::Reading, progress),
    }
}

/// The products of the elevations that were opened, with the elevations' header: con's on a mosaic.
pub fn make_opened<R: ByteSource, W: ByteSink>(
    alloc: Global,
    files: &mut OpenFiles<OpenElevations<R>, ()>,
    follow: &mut impl Follow,
    out: &mut W,
) -> Result<(Header, ProductSet), u8>
    // They are made of these elevations, with these sinks and this spacing.
    ensures made { IfOk result (λ set. IsSetOn R.bytes_left files.old.elevations (given_in files.old) set.0 set.1) }
    ensures written { IfOk result (λ set. SetFits set.0 set.1) }
{
    let given = given_of(files.sinks.as_slice(), &files.spacing);
    match &mut files.elevations {
        OpenElevations::Tiles(OpenTiles { side, tiles }) => {
            match make_set_given(alloc, *side, tiles.as_mut_slice(), &given, follow, out) {
                Ok((layout, products)) => Ok((product_header(&layout, Product::Con), products)),
                Err(status) => Err(status),
            }
        }
        OpenElevations::Dem(dem) => make_dem_set(alloc, dem, &given, follow, out),
    }
}

/// Creates the files of the products at these paths and writes them, and returns the exit status.
fn write_at<'g>(
    rt: &HostRuntime,
    progress: &'g Progress<'g>,
    paths: &[String],
    inputs: &[FileId],
    elevations: &Header,
    products: &ProductSet,
    out: &mut impl ByteSink,
) -> u8
    requires paths { length paths.now ≡ FILE_COUNT }
    requires written { SetFits elevations.now products.now }
{
    let failure = Failure::none();
    let mut outputs = Outputs::new(rt, &failure);
    let status = match create_files(&mut outputs, paths, inputs, elevations, progress) {
        Ok(mut files) => write_and_place(
            rt.alloc(),
            elevations,
            products,
            files.as_mut_slice(),
            &mut outputs,
            out,
        ),
        Err(fault) => print_open_fault(rt, fault, out),
    };
    outputs.end();
    status
}

/// Why there is no product set.
#[derive(Clone, Copy)]
pub enum NoSet {
    /// Of the tiles, or of the raster of elevations.
    Ground(Refusal),
    /// Of the list of sinks.
    Sinks(SinkFault),
    /// Of how far apart cells are.
    Spacing(NoSpacing),
    /// The maker returned none.
    Maker(MakeRefusal),
}

/// Reads the tiles and makes the products of their mosaic on unit spacing. If there are none, it prints why and returns the exit
/// status: 2 for `refused BadSide`, `BadName`, `NoTiles`, `RepeatedTile`, `BoxTooLarge`, `BadTileLength`,
/// `SeamMismatch`, `BadSinkLine`, `SinkNotData` and `MakerFault`, in this order; 3 for `failed OutOfMemory` and `failed
/// ReadFailed`, and if the line can't be written.
///
/// `side` is the number of samples along an edge of each tile, and `sinks` a list of inland sinks, a line `ROW COL` each.
/// Of a tile at most one byte past its end is read. `follow` gets to know how far the products are made.
pub fn make_set<R: ByteSource, W: ByteSink>(
    alloc: Global,
    side: u32,
    tiles: &mut [TileInput<R>],
    sinks: &[u8],
    follow: &mut impl Follow,
    out: &mut W,
) -> Result<(Layout, ProductSet), u8>
    ensures made { IfOk result (λ set. IsSetOf R.bytes_left side tiles.old (plain sinks.now) set.0 set.1) }
    ensures written { IfOk result (λ set. SetFits (made_header set.0 Product.Con) set.1) }
    ensures no_read_failed { OnOk result (SomeReadFails (map R.counts (tile_devices tiles.old)) (map R.counts (tile_devices tiles.new)) ⊥) }
    ensures quiet { OnOk result (out.new ≡ out.old) }
    ensures refused { IfErr result (λ code. (why : NoSet) × IsNoSet R.ByteSource side tiles.old tiles.new (plain sinks.now) why
        × Prints W.ByteSink out.old out.new (no_set_line why) (no_set_status why) code) }

    // How far it reads, and that names are unchanged.
    ensures within { TilesTakeAtMost R.bytes_left side tiles.old tiles.new }
    ensures names { names_of tiles.new ≡ names_of tiles.old }
{
    make_set_given(alloc, side, tiles, &Given::plain(sinks), follow, out)
}

/// As `make_set`, on the spacing that is given: after `SinkNotData` it may be refused by `BadSpacingLine` or `SpacingRows`.
pub fn make_set_given<R: ByteSource, W: ByteSink>(
    alloc: Global,
    side: u32,
    tiles: &mut [TileInput<R>],
    given: &Given,
    follow: &mut impl Follow,
    out: &mut W,
) -> Result<(Layout, ProductSet), u8>
    ensures made { IfOk result (λ set. IsSetOf R.bytes_left side tiles.old given.now set.0 set.1) }
    ensures written { IfOk result (λ set. SetFits (made_header set.0 Product.Con) set.1) }
    ensures no_read_failed { OnOk result (SomeReadFails (map R.counts (tile_devices tiles.old)) (map R.counts (tile_devices tiles.new)) ⊥) }
    ensures quiet { OnOk result (out.new ≡ out.old) }
    ensures refused { IfErr result (λ code. (why : NoSet) × IsNoSet R.ByteSource side tiles.old tiles.new given.now why
        × Prints W.ByteSink out.old out.new (no_set_line why) (no_set_status why) code) }

    // How far it reads, and that names are unchanged.
    ensures within { TilesTakeAtMost R.bytes_left side tiles.old tiles.new }
    ensures names { names_of tiles.new ≡ names_of tiles.old }
{
    match read_and_make(alloc, side, tiles, given, follow) {
        Ok(set) => Ok(set),
        Err(why) => Err(print_line(out, &line_of(&why), status_of(&why))),
    }
}

/// The products of the tiles' mosaic, or why there are none.
fn read_and_make<R: ByteSource>(
    alloc: Global,
    side: u32,
    tiles: &mut [TileInput<R>],
    given: &Given,
    follow: &mut impl Follow,
) -> Result<(Layout, ProductSet), NoSet>
    ensures made { IfOk result (λ set. IsSetOf R.bytes_left side tiles.old given.now set.0 set.1) }
    ensures written { IfOk result (λ set. SetFits (made_header set.0 Product.Con) set.1) }
    ensures no_read_failed { OnOk result (SomeReadFails (map R.counts (tile_devices tiles.old)) (map R.counts (tile_devices tiles.new)) ⊥) }
    ensures refused { IfErr result (IsNoSet R.ByteSource side tiles.old tiles.new given.now) }
    ensures within { TilesTakeAtMost R.bytes_left side tiles.old tiles.new }
    ensures names { names_of tiles.new ≡ names_of tiles.old }
{
    let mosaic = match read_mosaic(alloc, side, tiles) {
        Ok(mosaic) => mosaic,
        Err(refusal) => return Err(NoSet::Ground(refusal)),
    };
    let listed = match parse_sinks(alloc, given.sinks) {
        Ok(listed) => listed,
        Err(fault) => return Err(NoSet::Sinks(fault)),
    };
    let Mosaic { layout, elevation } = mosaic;
    let MadeSpacing { spacings, fault } = spacing_to_make(
        alloc,
        given,
        HeightKind::Whole,
        layout.shape(),
    );
    match make_freeing(alloc, &layout, elevation, &listed, &spacings, follow) {
        Ok(products) => match fault {
            None => Ok((layout, products)),
            Some(why) => Err(NoSet::Spacing(why)),
        },
        Err(refusal) => Err(NoSet::Maker(refusal)),
    }
}

/// Reads one raster of elevations and makes the products on it. If there are none, it prints why and returns the exit
/// status, as `make_set` does: the refusals of elevations are `BadHeader dem`, `BadPixelSize dem` and `RasterShort dem`.
pub fn make_dem_set<R: ByteSource, W: ByteSink>(
    alloc: Global,
    dem: &mut [RasterInput<R>; 1],
    given: &Given,
    follow: &mut impl Follow,
    out: &mut W,
) -> Result<(Header, ProductSet), u8>
    ensures made { IfOk result (λ set. IsDemSetOf R.bytes_left dem.old given.now set.0 set.1) }
    ensures written { IfOk result (λ set. SetFits set.0 set.1) }
    ensures no_read_failed { OnOk result (SomeReadFails (map R.counts (dem_devices dem.old)) (map R.counts (dem_devices dem.new)) ⊥) }
    ensures quiet { OnOk result (out.new ≡ out.old) }
    ensures refused { IfErr result (λ code. (why : NoSet) × IsNoDemSet R.ByteSource dem.old dem.new given.now why
        × Prints W.ByteSink out.old out.new (no_set_line why) (no_set_status why) code) }

    // How far it reads, and that the header's text is unchanged.
    ensures within { DemTakesAtMost R.bytes_left dem.old dem.new }
    ensures headers { AreHeadersKept dem.old dem.new }
{
    match read_and_make_dem(alloc, dem, given, follow) {
        Ok(made) => Ok(made),
        Err(why) => Err(print_line(out, &line_of(&why), status_of(&why))),
    }
}

/// The products of one raster of elevations, or why there are none.
fn read_and_make_dem<R: ByteSource>(
    alloc: Global,
    dem: &mut [RasterInput<R>; 1],
    given: &Given,
    follow: &mut impl Follow,
) -> Result<(Header, ProductSet), NoSet>
    ensures made { IfOk result (λ set. IsDemSetOf R.bytes_left dem.old given.now set.0 set.1) }
    ensures written { IfOk result (λ set. SetFits set.0 set.1) }
    ensures no_read_failed { OnOk result (SomeReadFails (map R.counts (dem_devices dem.old)) (map R.counts (dem_devices dem.new)) ⊥) }
    ensures refused { IfErr result (IsNoDemSet R.ByteSource dem.old dem.new given.now) }
    ensures within { DemTakesAtMost R.bytes_left dem.old dem.new }
    ensures headers { AreHeadersKept dem.old dem.new }
{
    let read = match read_dem(alloc, dem) {
        Ok(read) => read,
        Err(why) => return Err(NoSet::Ground(why)),
    };
    let listed = match parse_sinks(alloc, given.sinks) {
        Ok(listed) => listed,
        Err(fault) => return Err(NoSet::Sinks(fault)),
    };
    let Dem { header, raster } = read;
    let MadeSpacing { spacings, fault } = spacing_to_make(
        alloc,
        given,
        header.kind,
        raster.shape(),
    );
    match make_dem(alloc, raster, &listed, &spacings, follow) {
        Ok(products) => match fault {
            None => Ok((header, products)),
            Some(why) => Err(NoSet::Spacing(why)),
        },
        Err(refusal) => Err(NoSet::Maker(refusal)),
    }
}

/// The line that says why there are no products.
fn line_of(why: &NoSet) -> Line
    ensures { result.bytes ≡ no_set_line why.now }
{
    match why {
        NoSet::Ground(refusal) => refusal_line(*refusal),
        NoSet::Sinks(SinkFault::BadSinkLine(line)) => refusal_line(Refusal::BadSinkLine(*line)),
        NoSet::Sinks(SinkFault::OutOfMemory) => words("failed OutOfMemory"),
        NoSet::Spacing(why) => made_spacing::line_of(*why),
        NoSet::Maker(MakeRefusal::SinkNotData(line)) => refusal_line(Refusal::SinkNotData(*line)),
        NoSet::Maker(MakeRefusal::MakerFault) => words("refused MakerFault"),
        NoSet::Maker(MakeRefusal::OutOfMemory) => words("failed OutOfMemory"),
    }
}

/// Its exit status.
fn status_of(why: &NoSet) -> Status
    ensures { result ≡ no_set_status why.now }
{
    match why {
        NoSet::Ground(refusal) => Status::of_refusal(*refusal),
        NoSet::Sinks(SinkFault::OutOfMemory) => Status::Failed,
        NoSet::Sinks(SinkFault::BadSinkLine(_)) => Status::Refused,
        NoSet::Spacing(why) => made_spacing::status_of(*why),
        NoSet::Maker(MakeRefusal::OutOfMemory) => Status::Failed,
        NoSet::Maker(_) => Status::Refused,
    }
}
