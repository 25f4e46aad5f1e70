//! Mosaics of one tile, their elevations, and products made of them.

ghost use Rattle.std.specs.Prelude.{◌≡◌, IfOk};
ghost use Rattle.drain_grid.specs.Grid.{IsSide};
ghost use Rattle.drain_mosaic.specs.Tiling.{extent_of};

use crate::raster_numbers::Numbers;
use drain_grid::tile::is_side;
use drain_grid::{Counts, Elevation, ProductSet, SetProduct, Sinks, Verdict};
use drain_hgt::TileName;
use drain_maker::{MakeRefusal, make};
use drain_mosaic::Layout;
use drain_rules::verdict_of;
use std::alloc::Global;
use std::test::Fail;

/// The mosaic of one tile.
pub fn one_tile(alloc: Global, side: u32) -> Result<Layout, Fail> {
    if !is_side(side) {
        return Err("a side".into());
    }
    let name = TileName::parse(b"N00E000.hgt")?;
    Ok(Layout::new(alloc, side, &[name])?)
}

/// The elevation of a mosaic with these samples.
pub fn elevation(layout: &Layout, samples: Vec<i16>) -> Result<Elevation, Fail>
    ensures { IfOk result (λ elevation. elevation.extent ≡ extent_of layout.now) }
{
    let shape = layout.shape();
    if samples.len() != shape.cells() {
        return Err("a sample for each cell".into());
    }
    Ok(Elevation::new(shape, samples))
}

/// The products made of one tile with these sinks.
fn made_of_tile(
    alloc: Global,
    side: u32,
    samples: &[i16],
    sinks: &Sinks,
) -> Result<ProductSet, Fail> {
    let layout = one_tile(alloc, side)?;
    let elevation = elevation(&layout, Vec::from_slice(alloc, samples)?)?;
    Ok(make(alloc, &layout, &elevation, sinks)?)
}

/// The numbers of a product made of one tile with these sinks.
pub fn numbers_made(
    alloc: Global,
    (side, samples): (u32, &[i16]),
    sinks: &Sinks,
    product: SetProduct,
) -> Result<Numbers, Fail> {
    let products = made_of_tile(alloc, side, samples, sinks)?;
    Ok(Numbers::of(products.raster(product)))
}

/// The products made of these elevations with these sinks, and the verdict on them.
pub fn judged(
    alloc: Global,
    layout: &Layout,
    elevation: &Elevation,
    sinks: &Sinks,
) -> Result<(ProductSet, Verdict), Fail>
    requires { elevation.now.extent ≡ extent_of layout.now }
{
    let products = make(alloc, layout, elevation, sinks)?;
    let verdict = verdict_of(alloc, elevation, sinks, &products)?;
    Ok((products, verdict))
}

/// Makes products without listed sinks, and returns the counts of the verdict on them. They must be accepted.
pub fn accepted(alloc: Global, layout: &Layout, samples: Vec<i16>) -> Result<Counts, Fail> {
    let elevation = elevation(layout, samples)?;
    let (_, verdict) = judged(alloc, layout, &elevation, &Sinks::none(alloc))?;
    match verdict {
        Verdict::Accepted(counts) => Ok(counts),
        Verdict::Rejected { .. } => Err("rejected".into()),
    }
}

/// The first nine numbers of con made of these elevations with these sinks.
fn nine_of_con(
    alloc: Global,
    layout: &Layout,
    elevation: &Elevation,
    sinks: &Sinks,
) -> Result<Option<[i64; 9]>, MakeRefusal>
    requires { elevation.now.extent ≡ extent_of layout.now }
{
    let products = make(alloc, layout, elevation, sinks)?;
    Ok(Numbers::of(&products.con).as_slice().try_into().ok())
}

/// The first nine numbers of con made of a tile of side 3 with these sinks. If its inputs run out of memory, that
/// counts as the maker's own.
pub fn con_of_nine(
    alloc: Global,
    name: TileName,
    tile: &[i16; 9],
    sinks: &Sinks,
) -> Result<Option<[i64; 9]>, MakeRefusal> {
    let Ok(layout) = Layout::new(alloc, 3, &[name]) else {
        return Err(MakeRefusal::OutOfMemory);
    };
    let Ok(samples) = Vec::from_slice(alloc, tile) else {
        return Err(MakeRefusal::OutOfMemory);
    };
    let shape = layout.shape();
    if samples.len() != shape.cells() {
        return Ok(None);
    }
    nine_of_con(alloc, &layout, &Elevation::new(shape, samples), sinks)
}
