//! Making products of one raster of elevations of any shape: correct by proof.

ghost use Rattle.std.specs.Prelude.{◌≡◌, ◌*◌};
ghost use Rattle.drain_maker.specs.Names.{ℕ, IfOk, length, pos, slice_index_or, vec_len, IsCorrect, RunsAreSound, Cell, IsCellOf, index_of, RulesHold, check_rules, IsAnyRule, IsNoData, IsPixel, ArePixels, Pixels, Distances, nodata_of, number_at, products_of, IsSurfaceOf, ShowsVoids, Fields};
ghost use Rattle.drain_grid.specs.Spacing.{spacing_of};
ghost use Rattle.drain_maker.specs.Dems.{AreOfGround, DemSucceeds, IsDemSinkAnswer, IsHeightAt, IsMarkedBy, MarksDem, dem_elevation, spaced_dem_grid};
ghost use Rattle.drain_maker.specs.Made.{AreRasters, AreRightProducts, AreRoutes, made_numbers};
ghost use Rattle.drain_maker.specs.Narrow.{IsNarrowed};
ghost use Rattle.drain_maker.specs.ProductFiles.{FitsHeader, SetFits};

use crate::maker::MakeRefusal;
use crate::narrow::{narrow_elevation, narrow_raster};
use crate::products::{
    Routes, count_and_label, flooded, raster_of_codes, raster_of_counts, route, route_flooded,
};
use drain_filled::{Ground, filled_surface};
use drain_flood::exact_ways::exact_directions;
use drain_flood::layers::{UNREACHED, VOID};
use drain_flood::{Surface, WideHeights};
use drain_grid::laws::found_off_data_is_right;
use drain_grid::values::{GREATEST_PIXEL, LEAST_PIXEL};
use drain_grid::{
    Cell, Elevation, OutOfMemory, Product, ProductSet, Raster, Shape, SinkData, Sinks, Spacings,
    first_off_data,
};
use drain_sets::{Follow, Stage};
use std::alloc::Global;

/// A raster that is lent, or given away: a given one is freed when it is dropped.
pub trait AsRaster {
    /// The numbers.
    ghost raster: { Self → Pixels };

    /// The raster.
    fn as_raster(&self) -> &Raster
        ensures { result.now ≡ raster self.now };
}

impl AsRaster for Raster {
    ghost raster = { λ r. r };

    fn as_raster(&self) -> &Raster {
        self
    }
}

impl AsRaster for &Raster {
    ghost raster = { λ r. r.now };

    fn as_raster(&self) -> &Raster {
        self
    }
}

/// A raster of elevations as what says whether a listed sink has data.
#[derive(Drop)]
struct DemCells<'a> {
    dem: &'a Raster,
}

impl<'a> SinkData for DemCells<'a> {
    ghost use Rattle.drain_maker.specs.Dems.{has_elevation};

    ghost has = { λ cells. has_elevation cells.dem.now };

    fn has_data(&self, cell: Cell) -> bool {
        let shape = self.dem.shape();
        cell.row < shape.rows() && cell.col < shape.cols() && elevation(self.dem, cell).is_some()
    }
}

/// The elevation of a cell, none where its number is the raster's no-data number.
fn elevation(dem: &Raster, cell: Cell) -> Option<i64>
    requires { IsCellOf dem.now.extent cell }
    ensures { result ≡ dem_elevation dem.now cell }
{
    let number = dem.value(cell);
    if number == dem.nodata() {
        None
    } else {
        Some(number)
    }
}

/// The products of a raster of elevations with these sinks, whose rows are spaced so. Their no-data numbers are the
/// default ones, but that of con, which is the raster's. A raster that is given away is freed as soon as it isn't needed
/// any more.
///
/// A cell's elevation is its number, a whole number in any unit, or on spacings for floats the number of a float; it is void
/// where that is the raster's no-data number. So where no cell is to be void, that number is one that no pixel encodes.
/// `SinkNotData` has the least line that lists a cell without data, and comes before all else. `OutOfMemory` comes if memory
/// was refused. There is no other refusal.
pub fn make_dem<D: AsRaster + Drop>(
    alloc: Global,
    dem: D,
    sinks: &Sinks,
    spacings: &Spacings,
    follow: &mut impl Follow,
) -> Result<ProductSet, MakeRefusal>
    ensures shape { IfOk result (λ products. products.con.extent ≡ (D.raster dem).extent) }
    ensures nodata { IfOk result (λ products. nodata_of products ≡ made_numbers (D.raster dem).nodata) }
    ensures rules { IfOk result (λ products. RulesHold (check_rules (made_numbers (D.raster dem).nodata)) IsAnyRule (spaced_dem_grid (spacing_of spacings.now) (D.raster dem) sinks.now) (products_of products)) }
    ensures rasters { IfOk result AreRasters }

    // Each conditioned elevation is the elevation of some cell: so con's no-data number is at voids alone, and whatever
    // encodes the elevations encodes con.
    ensures ground { IfOk result (λ products. AreOfGround (spaced_dem_grid (spacing_of spacings.now) (D.raster dem) sinks.now) (number_at products.con)) }
    ensures written { IfOk result (λ products. (h : Fields) → FitsHeader h (D.raster dem) → SetFits h products) }

    // Every listed cell has data, or the first line whose cell has none is reported.
    ensures sinks { IsDemSinkAnswer (D.raster dem) sinks.now result }

    // Where every listed cell has data, there are products, unless memory runs out.
    ensures succeeds { DemSucceeds (D.raster dem) sinks.now result }

    // What every rule at every cell means: the products are correct, and every run is sound.
    ensures correct { IfOk result (λ products. IsCorrect (spaced_dem_grid (spacing_of spacings.now) (D.raster dem) sinks.now) (products_of products) (made_numbers (D.raster dem).nodata)) }
    ensures runs { IfOk result (λ products. RunsAreSound (spaced_dem_grid (spacing_of spacings.now) (D.raster dem) sinks.now) (products_of products)) }
{
    // The law that the first listed cell without data is the grid's.
    found_off_data_is_right();
    if let Some(line) = first_off_data(
        sinks,
        &DemCells {
            dem: dem.as_raster(),
        },
    ) {
        return Err(MakeRefusal::SinkNotData(line));
    }
    match build_dem(alloc, dem, sinks, spacings, follow) {
        Ok(products) => Ok(products),
        Err(OutOfMemory) => Err(MakeRefusal::OutOfMemory),
    }
}

/// The products.
fn build_dem<D: AsRaster + Drop>(
    alloc: Global,
    dem: D,
    sinks: &Sinks,
    spacings: &Spacings,
    follow: &mut impl Follow,
) -> Result<ProductSet, OutOfMemory>
    ensures shape { IfOk result (λ products. products.con.extent ≡ (D.raster dem).extent) }
    ensures nodata { IfOk result (λ products. nodata_of products ≡ made_numbers (D.raster dem).nodata) }
    ensures right { IfOk result (λ products. AreRightProducts (spaced_dem_grid (spacing_of spacings.now) (D.raster dem) sinks.now) (made_numbers (D.raster dem).nodata) (products_of products)) }
    ensures rasters { IfOk result AreRasters }
    ensures ground { IfOk result (λ products. AreOfGround (spaced_dem_grid (spacing_of spacings.now) (D.raster dem) sinks.now) (number_at products.con)) }
    ensures written { IfOk result (λ products. (h : Fields) → FitsHeader h (D.raster dem) → SetFits h products) }
{
    let shape = dem.as_raster().shape();
    let _cells = shape.cells();
    let routes = route_dem(alloc, dem, sinks, spacings, follow)?;
    let both = count_and_label(alloc, &routes.dir, shape, follow)?;
    Ok(ProductSet {
        con: routes.con,
        dir: raster_of_codes(shape, Product::Dir, routes.dir),
        acc: raster_of_counts(shape, Product::Acc, both.counts),
        bas: raster_of_counts(shape, Product::Bas, both.labels),
        rnk: raster_of_counts(shape, Product::Rnk, routes.rnk),
    })
}

/// The raster of conditioned elevations, and the rank and the code of each cell: in 16 bits where all elevations fit.
fn route_dem<D: AsRaster + Drop>(
    alloc: Global,
    dem: D,
    sinks: &Sinks,
    spacings: &Spacings,
    follow: &mut impl Follow,
) -> Result<Routes<Raster>, OutOfMemory>
    ensures extent { IfOk result (λ routes. routes.con.extent ≡ (D.raster dem).extent) }
    ensures nodata { IfOk result (λ routes. routes.con.nodata ≡ (D.raster dem).nodata) }
    ensures pixels { IfOk result (λ routes. ArePixels routes.con) }
    ensures rnk { IfOk result (λ routes. vec_len routes.rnk ≡ (D.raster dem).extent.rows * (D.raster dem).extent.cols) }
    ensures dir { IfOk result (λ routes. vec_len routes.dir ≡ (D.raster dem).extent.rows * (D.raster dem).extent.cols) }
    ensures routes { IfOk result (λ routes. AreRoutes (spaced_dem_grid (spacing_of spacings.now) (D.raster dem) sinks.now) (D.raster dem).nodata routes.con.numbers routes.rnk.items routes.dir.items) }
{
    match narrow_elevation(alloc, dem.as_raster())? {
        Some(elevation) => {
            let nodata = dem.as_raster().nodata();
            drop(dem);
            route_narrow(alloc, elevation, nodata, sinks, spacings, follow)
        }
        None => route_wide(alloc, dem, sinks, spacings, follow),
    }
}

/// The same of elevations in 16 bits, for a raster with this no-data number.
fn route_narrow(
    alloc: Global,
    elevation: Elevation,
    nodata: i64,
    sinks: &Sinks,
    spacings: &Spacings,
    follow: &mut impl Follow,
) -> Result<Routes<Raster>, OutOfMemory>
    requires nodata { IsNoData nodata }
    ensures extent { IfOk result (λ routes. routes.con.extent ≡ elevation.extent) }
    ensures nodata { IfOk result (λ routes. routes.con.nodata ≡ nodata) }
    ensures pixels { IfOk result (λ routes. ArePixels routes.con) }
    ensures rnk { IfOk result (λ routes. vec_len routes.rnk ≡ elevation.extent.rows * elevation.extent.cols) }
    ensures dir { IfOk result (λ routes. vec_len routes.dir ≡ elevation.extent.rows * elevation.extent.cols) }
    ensures routes { IfOk result (λ routes. (p : Pixels) → IsNarrowed p elevation → p.nodata ≡ nodata → AreRoutes (spaced_dem_grid (spacing_of spacings.now) p sinks.now) p.nodata routes.con.numbers routes.rnk.items routes.dir.items) }
{
    let shape = elevation.shape();
    let flood = flooded(alloc, &elevation, sinks, follow)?;
    drop(elevation);
    let routes = route_flooded(alloc, flood, spacings, follow)?;
    Ok(Routes {
        con: narrow_raster(shape, nodata, routes.con),
        rnk: routes.rnk,
        dir: routes.dir,
    })
}

/// The same of any elevations.
fn route_wide<D: AsRaster + Drop>(
    alloc: Global,
    dem: D,
    sinks: &Sinks,
    spacings: &Spacings,
    follow: &mut impl Follow,
) -> Result<Routes<Raster>, OutOfMemory>
    ensures extent { IfOk result (λ routes. routes.con.extent ≡ (D.raster dem).extent) }
    ensures nodata { IfOk result (λ routes. routes.con.nodata ≡ (D.raster dem).nodata) }
    ensures pixels { IfOk result (λ routes. ArePixels routes.con) }
    ensures rnk { IfOk result (λ routes. vec_len routes.rnk ≡ (D.raster dem).extent.rows * (D.raster dem).extent.cols) }
    ensures dir { IfOk result (λ routes. vec_len routes.dir ≡ (D.raster dem).extent.rows * (D.raster dem).extent.cols) }
    ensures routes { IfOk result (λ routes. AreRoutes (spaced_dem_grid (spacing_of spacings.now) (D.raster dem) sinks.now) (D.raster dem).nodata routes.con.numbers routes.rnk.items routes.dir.items) }
{
    follow.begin(Stage::Surface);
    let raster = dem.as_raster();
    let shape = raster.shape();
    let nodata = raster.nodata();
    let surface = surface_of(alloc, dem, sinks)?;
    follow.begin(Stage::Directions);
    let codes = exact_directions(alloc, &surface, spacings)?;
    let routes = route(alloc, surface, codes)?;
    Ok(Routes {
        con: raster_of_numbers(shape, nodata, routes.con),
        rnk: routes.rnk,
        dir: routes.dir,
    })
}

/// The raster of conditioned elevations.
fn raster_of_numbers(shape: Shape, nodata: i64, numbers: WideHeights) -> Raster
    requires counted { length numbers ≡ shape.rows * shape.cols }
    requires nodata { IsNoData nodata }
    ensures is { result ≡ record { extent = shape; nodata = nodata; numbers = numbers } }
    ensures pixels { ArePixels result }
{
    Raster::new(shape, nodata, numbers.into_numbers())
}

/// The filled surface of a raster of elevations, with its no-data number at voids.
fn surface_of<D: AsRaster + Drop>(
    alloc: Global,
    dem: D,
    sinks: &Sinks,
) -> Result<Surface<WideHeights>, OutOfMemory>
    ensures extent { IfOk result (λ surface. surface.extent ≡ (D.raster dem).extent) }
    ensures surface { IfOk result (λ surface. (spacing : ℕ → Distances) → IsSurfaceOf (spaced_dem_grid spacing (D.raster dem) sinks.now) surface) }
    ensures voids { IfOk result (λ surface. (spacing : ℕ → Distances) → ShowsVoids (spaced_dem_grid spacing (D.raster dem) sinks.now) surface (D.raster dem).nodata) }
{
    let raster = dem.as_raster();
    let ground = ground_of(alloc, raster)?;
    let heights = heights_of(alloc, raster)?;
    let void = void_number(raster.nodata());
    drop(dem);
    filled_surface(alloc, &ground, heights, sinks, void)
}

/// Which cells of a raster of elevations have data.
fn ground_of(alloc: Global, dem: &Raster) -> Result<Ground, OutOfMemory>
    ensures { IfOk result (MarksDem dem.now) }
{
    let shape = dem.shape();
    let mut marks = Vec::with_capacity(alloc, shape.cells())?;
    for place in 0..shape.cells() {
        marks.push(mark_of(dem, shape.cell(place)))?;
    }
    Ok(Ground::new(shape, marks))
}

/// The mark of a cell.
fn mark_of(dem: &Raster, cell: Cell) -> u8
    requires { IsCellOf dem.now.extent cell }
    ensures { IsMarkedBy dem.now cell result }
{
    if elevation(dem, cell).is_some() {
        UNREACHED
    } else {
        VOID
    }
}

/// The numbers of all cells, in row order.
fn heights_of(alloc: Global, dem: &Raster) -> Result<Vec<i64>, OutOfMemory>
    ensures counted { IfOk result (λ heights. length heights.items ≡ dem.now.extent.rows * dem.now.extent.cols) }
    ensures heights { IfOk result (λ heights. (c : Cell) → IsCellOf dem.now.extent c → IsHeightAt dem.now c (slice_index_or heights.items (index_of dem.now.extent c) (pos 0))) }
{
    let shape = dem.shape();
    let mut heights = Vec::with_capacity(alloc, shape.cells())?;
    for place in 0..shape.cells() {
        heights.push(height_at(dem, shape.cell(place)))?;
    }
    Ok(heights)
}

/// The number of a cell.
fn height_at(dem: &Raster, cell: Cell) -> i64
    requires { IsCellOf dem.now.extent cell }
    ensures { IsHeightAt dem.now cell result }
{
    dem.value(cell)
}

/// A no-data number that some pixel encodes; any other becomes some pixel's number.
fn void_number(nodata: i64) -> i64
    ensures pixel { IsPixel result }
    ensures same { IsPixel nodata → result ≡ nodata }
{
    nodata.clamp(LEAST_PIXEL, GREATEST_PIXEL)
}
