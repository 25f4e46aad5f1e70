//! The five rasters of an elevation.

ghost use Rattle.drain_maker.specs.Names.{ℕ, ℤ, pos, map, true, false, vec_len, IfOk, length, List, default_no_data, default_numbers, ArePixels, Heights, Grid, CanSpellIn, Distances, products_of, nodata_of, spaced_grid, IsFlooded, IsSurfaceOf, ShowsVoids, NO_HEIGHT, AreBasinLabels, bytes_flows, OfFlows, AreUpstreamCounts, SinkLine};
ghost use Rattle.std.specs.Prelude.{◌≡◌, ◌*◌, All};
ghost use Rattle.drain_maker.specs.ProductFiles.{CanSpellAllIn};
ghost use Rattle.drain_grid.specs.Spacing.{spacing_of};
ghost use Rattle.drain_flood.specs.Ways.{AreFirstCodes, IsSpaced};
ghost use Rattle.drain_maker.specs.Made.{AreRoutes, SomeRunsEnd, AreCountsAndLabels, AreRightProducts, AreRasters, AreMadeSpelled};

use crate::laws::routes_keep_rules;
use crate::mosaic::AsElevation;
use crate::narrow::narrow_raster;
use drain_flood::laws::flood_shows_voids;
use drain_flood::ways::directions;
use drain_flood::{Flood, HeightList, Surface, fill, ways_on_flats};
use drain_grid::{Elevation, OutOfMemory, Product, ProductSet, Raster, Shape, Sinks, Spacings};
use drain_paths::{accumulate_codes, label_ended_codes};
use drain_sets::{Follow, Stage};
use std::alloc::Global;

/// The raster of a product of heights.
pub(crate) fn raster_of_heights(shape: Shape, product: Product, heights: Vec<i16>) -> Raster
    requires { vec_len heights ≡ shape.rows * shape.cols }
    ensures is { result ≡ record { extent = shape; nodata = default_no_data product; numbers = heights.items } }
    ensures pixels { ArePixels result }
    ensures spelled { CanSpellAllIn true 16 result }
{
    narrow_raster(shape, product.default_no_data(), heights)
}

/// The raster of a product of codes.
pub(crate) fn raster_of_codes(shape: Shape, product: Product, codes: Vec<u8>) -> Raster
    requires { vec_len codes ≡ shape.rows * shape.cols }
    ensures is { result ≡ record { extent = shape; nodata = default_no_data product; numbers = map (λ n. pos n) codes.items } }
    ensures pixels { ArePixels result }
    ensures spelled { CanSpellAllIn false 8 result }
{
    Raster::of_bytes(shape, product.default_no_data(), codes)
}

/// The raster of a product of counts, labels or ranks.
pub(crate) fn raster_of_counts(shape: Shape, product: Product, counts: Vec<u32>) -> Raster
    requires { vec_len counts ≡ shape.rows * shape.cols }
    ensures is { result ≡ record { extent = shape; nodata = default_no_data product; numbers = map (λ n. pos n) counts.items } }
    ensures pixels { ArePixels result }
    ensures spelled { CanSpellAllIn false 32 result }
{
    Raster::of_counts(shape, product.default_no_data(), counts)
}

/// Each height is a number of 16 bits. The body only shows this to the prover, height by height.
pub(crate) fn look_at_each(heights: &[i16])
    ensures { All (CanSpellIn true 16) heights.now }
{
    for place in 0..heights.len() {
        look_at(heights[place]);
    }
}

/// A height is a number of 16 bits.
fn look_at(_height: i16)
    ensures { CanSpellIn true 16 _height }
{}

/// The conditioned elevation, the rank and the code of each cell, in row order.
#[derive(Drop)]
pub(crate) struct Routes<C> {
    pub con: C,
    pub rnk: Vec<u32>,
    pub dir: Vec<u8>,
}

/// Fills a grid.
pub(crate) fn flooded(
    alloc: Global,
    elevation: &Elevation,
    sinks: &Sinks,
    follow: &mut impl Follow,
) -> Result<Flood<Vec<i16>>, OutOfMemory>
    ensures extent { IfOk result (λ flood. flood.extent ≡ elevation.now.extent) }
    ensures flooded { IfOk result (λ flood. (spacing : ℕ → Distances) → IsFlooded (spaced_grid spacing elevation.now sinks.now) flood) }
{
    follow.begin(Stage::Surface);
    fill(alloc, elevation, sinks)
}

/// Gives each cell of a flooded grid its way. What only the flood needs is freed first.
pub(crate) fn route_flooded(
    alloc: Global,
    flood: Flood<Vec<i16>>,
    spacings: &Spacings,
    follow: &mut impl Follow,
) -> Result<Routes<Vec<i16>>, OutOfMemory>
    ensures con { IfOk result (λ routes. vec_len routes.con ≡ flood.extent.rows * flood.extent.cols) }
    ensures rnk { IfOk result (λ routes. vec_len routes.rnk ≡ flood.extent.rows * flood.extent.cols) }
    ensures dir { IfOk result (λ routes. vec_len routes.dir ≡ flood.extent.rows * flood.extent.cols) }
    ensures routes { IfOk result (λ routes. (g : Grid) → g.extent ≡ flood.extent → IsSpaced g (spacing_of spacings.now) → IsFlooded g flood → AreRoutes g NO_HEIGHT routes.con.items routes.rnk.items routes.dir.items) }
{
    // The law that voids, and they alone, have the no-data height.
    flood_shows_voids();
    follow.begin(Stage::Directions);
    let surface = flood.into_surface(alloc)?;
    let codes = directions(alloc, &surface, spacings)?;
    route(alloc, surface, codes)
}

/// Gives each cell of a filled surface its way, from the codes of ways down and of outlets.
pub(crate) fn route<C: HeightList + Drop>(
    alloc: Global,
    surface: Surface<C>,
    codes: Vec<u8>,
) -> Result<Routes<C>, OutOfMemory>
    requires counted { length codes.items ≡ surface.extent.rows * surface.extent.cols }
    ensures con { IfOk result (λ routes. length (C.numbers routes.con) ≡ surface.extent.rows * surface.extent.cols) }
    ensures rnk { IfOk result (λ routes. vec_len routes.rnk ≡ surface.extent.rows * surface.extent.cols) }
    ensures dir { IfOk result (λ routes. vec_len routes.dir ≡ surface.extent.rows * surface.extent.cols) }
    ensures routes { IfOk result (λ routes. (g : Grid) (void : ℤ) → g.extent ≡ surface.extent → IsSurfaceOf g surface → ShowsVoids g surface void → AreFirstCodes g surface codes.items → AreRoutes g void (C.numbers routes.con) routes.rnk.items routes.dir.items) }
{
    let flats = ways_on_flats(alloc, &surface, codes)?;
    let con = surface.into_heights();
    let ways = flats.into_codes_and_ranks();
    Ok(Routes {
        con,
        rnk: ways.rnk,
        dir: ways.way,
    })
}

/// The count and the label of each cell, in row order.
#[derive(Drop)]
pub(crate) struct CountsAndLabels {
    pub counts: Vec<u32>,
    pub labels: Vec<u32>,
}

/// The counts and labels of the codes of all cells of a grid, a byte per cell, where every run ends. Labels come last and
/// take the codes alone, so no more than both is in memory then.
pub(crate) fn count_and_label(
    alloc: Global,
    codes: &[u8],
    shape: Shape,
    follow: &mut impl Follow,
) -> Result<CountsAndLabels, OutOfMemory>
    requires counted { length codes.now ≡ shape.rows * shape.cols }
    requires ends { SomeRunsEnd shape (bytes_flows codes.now) }
    ensures counts { IfOk result (λ both. vec_len both.counts ≡ shape.rows * shape.cols) }
    ensures labels { IfOk result (λ both. vec_len both.labels ≡ shape.rows * shape.cols) }
    ensures right { IfOk result (λ both. OfFlows shape (bytes_flows codes.now) (λ g ps. AreCountsAndLabels g ps shape both.counts.items both.labels.items)) }
{
    follow.begin(Stage::Counts);
    let counts = count_ended(alloc, codes, shape)?;
    follow.begin(Stage::Labels);
    let labels = label_ended(alloc, codes, shape)?;
    Ok(CountsAndLabels { counts, labels })
}

/// The counts alone.
fn count_ended(alloc: Global, codes: &[u8], shape: Shape) -> Result<Vec<u32>, OutOfMemory>
    requires counted { length codes.now ≡ shape.rows * shape.cols }
    requires ends { SomeRunsEnd shape (bytes_flows codes.now) }
    ensures counted { IfOk result (λ counts. vec_len counts ≡ shape.rows * shape.cols) }
    ensures counts { IfOk result (λ counts. OfFlows shape (bytes_flows codes.now) (λ g ps. AreUpstreamCounts g ps shape counts.items)) }
{
    accumulate_codes(alloc, codes, shape)
}

/// The labels alone.
fn label_ended(alloc: Global, codes: &[u8], shape: Shape) -> Result<Vec<u32>, OutOfMemory>
    requires counted { length codes.now ≡ shape.rows * shape.cols }
    requires ends { SomeRunsEnd shape (bytes_flows codes.now) }
    ensures counted { IfOk result (λ labels. vec_len labels ≡ shape.rows * shape.cols) }
    ensures labels { IfOk result (λ labels. OfFlows shape (bytes_flows codes.now) (λ g ps. AreBasinLabels g ps shape labels.items)) }
{
    label_ended_codes(alloc, codes, shape)
}

/// The products of a grid's elevations with these sinks, whose rows are spaced so, with the default no-data numbers. The
/// elevations are dropped once the grid is flooded.
pub(crate) fn build<E: AsElevation + Drop>(
    alloc: Global,
    elevation: E,
    sinks: &Sinks,
    spacings: &Spacings,
    follow: &mut impl Follow,
) -> Result<ProductSet, OutOfMemory>
    ensures shape { IfOk result (λ products. products.con.extent ≡ (E.heights elevation).extent) }
    ensures nodata { IfOk result (λ products. nodata_of products ≡ default_numbers) }
    ensures right { IfOk result (λ products. AreRightProducts (spaced_grid (spacing_of spacings.now) (E.heights elevation) sinks.now) default_numbers (products_of products)) }
    ensures written { IfOk result AreMadeSpelled }
    ensures rasters { IfOk result AreRasters }
{
    let flood = flooded(alloc, elevation.as_elevation(), sinks, follow)?;
    drop(elevation);
    build_on(alloc, flood, spacings, follow)
}

/// The products of a flooded grid. It isn't inlined, so that a profile shows it.
#[inline(never)]
#[tactic(auto, using(crate::proofs::FileLemmas::each_spelled))]
fn build_on(
    alloc: Global,
    flood: Flood<Vec<i16>>,
    spacings: &Spacings,
    follow: &mut impl Follow,
) -> Result<ProductSet, OutOfMemory>
    requires flooded { (heights : Heights) × (sinks : List SinkLine) × (heights.extent ≡ flood.extent) × IsFlooded (spaced_grid (spacing_of spacings.now) heights sinks) flood }
    ensures shape { IfOk result (λ products. products.con.extent ≡ flood.extent) }
    ensures nodata { IfOk result (λ products. nodata_of products ≡ default_numbers) }
    ensures right { IfOk result (λ products. (heights : Heights) (sinks : List SinkLine) → heights.extent ≡ flood.extent → IsFlooded (spaced_grid (spacing_of spacings.now) heights sinks) flood → AreRightProducts (spaced_grid (spacing_of spacings.now) heights sinks) default_numbers (products_of products)) }
    ensures written { IfOk result AreMadeSpelled }
    ensures rasters { IfOk result AreRasters }
{
    // The law that such products keep every rule.
    routes_keep_rules();
    let shape = flood.shape();
    let _cells = shape.cells();
    let routes = route_flooded(alloc, flood, spacings, follow)?;
    let both = count_and_label(alloc, &routes.dir, shape, follow)?;
    Ok(ProductSet {
        con: raster_of_heights(shape, Product::Con, routes.con),
        dir: raster_of_codes(shape, Product::Dir, routes.dir),
        acc: raster_of_counts(shape, Product::Acc, both.counts),
        bas: raster_of_counts(shape, Product::Bas, both.labels),
        rnk: raster_of_counts(shape, Product::Rnk, routes.rnk),
    })
}
