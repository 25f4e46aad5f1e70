//! Making products of a mosaic: correct by proof, with headers that can encode them.

ghost use Rattle.std.specs.Prelude.{◌≡◌};
ghost use Rattle.drain_maker.specs.Names.{IfOk, IsCorrect, RunsAreSound, default_numbers, grid_of, products_of, nodata_of, spaced_grid, extent_of};
ghost use Rattle.drain_grid.specs.Spacing.{spacing_of};
ghost use Rattle.drain_maker.specs.Made.{KeepsEveryRule, CanBeWritten, AreRasters, IsSinkAnswer, Succeeds};

use crate::mosaic::AsElevation;
use crate::products::build;
use drain_grid::laws::found_off_data_is_right;
use drain_grid::{Elevation, OutOfMemory, ProductSet, Sinks, Spacing, Spacings, first_off_data};
use drain_mosaic::Layout;
use drain_sets::{Follow, Unfollowed};
use std::alloc::Global;
use thiserror::Error;

/// Why there are no products.
#[derive(Clone, Copy, PartialEq, Eq, Debug, Error)]
pub enum MakeRefusal {
    /// The products break a rule. This never comes: `make` is proved to succeed.
    #[error("the products that were made break a rule")]
    MakerFault,
    /// Memory was refused.
    #[error("out of memory")]
    OutOfMemory,
    /// This line of the list of sinks, counted from 1, lists a cell without data: a void, or outside the mosaic.
    #[error("a listed sink is no data cell")]
    SinkNotData(u64),
}

/// The products of a mosaic's elevations with these sinks, on unit spacing, with the default no-data numbers.
///
/// `SinkNotData` has the least line that lists a cell without data, and comes before all else. `OutOfMemory` comes if
/// memory was refused. There is no other refusal. All rules hold at every cell of what it returns, and the pixels of
/// `product_header` can encode every number. Labels count the outlets in row order from 1. Off flats the direction is
/// the first steepest; on flats it leads to a cell of equal height whose rank is one less. Elsewhere the rank is 0.
pub fn make(
    alloc: Global,
    layout: &Layout,
    elevation: &Elevation,
    sinks: &Sinks,
) -> Result<ProductSet, MakeRefusal>
    requires same_shape { elevation.now.extent ≡ extent_of layout.now }
    ensures shape { IfOk result (λ products. products.con.extent ≡ elevation.now.extent) }
    ensures nodata { IfOk result (λ products. nodata_of products ≡ default_numbers) }
    ensures rules { IfOk result (KeepsEveryRule (grid_of elevation.now sinks.now)) }
    ensures written { IfOk result (CanBeWritten layout.now) }
    ensures rasters { IfOk result AreRasters }

    // Every listed cell has data, or the first line whose cell has none is reported.
    ensures sinks { IsSinkAnswer elevation.now sinks.now result }

    // Where every listed cell has data, there are products, unless memory runs out.
    ensures succeeds { Succeeds elevation.now sinks.now result }

    // What every rule at every cell means: the products are correct, and every run is sound.
    ensures correct { IfOk result (λ products. IsCorrect (grid_of elevation.now sinks.now) (products_of products) default_numbers) }
    ensures runs { IfOk result (λ products. RunsAreSound (grid_of elevation.now sinks.now) (products_of products)) }
{
    let spacings = Spacings::same(alloc, Spacing::unit());
    make_freeing(alloc, layout, elevation, sinks, &spacings, &mut Unfollowed)
}

/// The products of a mosaic's elevations with these sinks, whose rows are spaced so, with the default no-data numbers, for
/// a caller who follows how they are made: each part is reported when it begins.
///
/// What is returned, and when, is as with `make`. The elevations are lent or given away. Given ones are freed as soon as
/// they aren't needed any more.
pub fn make_freeing<E: AsElevation + Drop>(
    alloc: Global,
    layout: &Layout,
    elevation: E,
    sinks: &Sinks,
    spacings: &Spacings,
    follow: &mut impl Follow,
) -> Result<ProductSet, MakeRefusal>
    requires same_shape { (E.heights elevation).extent ≡ extent_of layout.now }
    ensures shape { IfOk result (λ products. products.con.extent ≡ (E.heights elevation).extent) }
    ensures nodata { IfOk result (λ products. nodata_of products ≡ default_numbers) }
    ensures rules { IfOk result (KeepsEveryRule (spaced_grid (spacing_of spacings.now) (E.heights elevation) sinks.now)) }
    ensures written { IfOk result (CanBeWritten layout.now) }
    ensures rasters { IfOk result AreRasters }

    // Every listed cell has data, or the first line whose cell has none is reported.
    ensures sinks { IsSinkAnswer (E.heights elevation) sinks.now result }

    // Where every listed cell has data, there are products, unless memory runs out.
    ensures succeeds { Succeeds (E.heights elevation) sinks.now result }

    // What every rule at every cell means: the products are correct, and every run is sound.
    ensures correct { IfOk result (λ products. IsCorrect (spaced_grid (spacing_of spacings.now) (E.heights elevation) sinks.now) (products_of products) default_numbers) }
    ensures runs { IfOk result (λ products. RunsAreSound (spaced_grid (spacing_of spacings.now) (E.heights elevation) sinks.now) (products_of products)) }
{
    // The law that the first listed cell without data is the grid's.
    found_off_data_is_right();
    if let Some(line) = first_off_data(sinks, elevation.as_elevation()) {
        return Err(MakeRefusal::SinkNotData(line));
    }
    match build(alloc, elevation, sinks, spacings, follow) {
        Ok(products) => Ok(products),
        Err(OutOfMemory) => Err(MakeRefusal::OutOfMemory),
    }
}
