//! The check of products on a grid of elevations, all whole in memory.

ghost use Rattle.std.specs.Prelude.{◌≡◌, ◌<◌, IfOk, OnErr};
ghost use Rattle.drain_grid.specs.Correct.{IsCorrect, RunsAreSound};
ghost use Rattle.drain_grid.specs.declared.judged.Judged.TheVariants.{AllWithRanks};
ghost use Rattle.drain_grid.specs.WholeGrid.{grid_of, products_of, nodata_of};
ghost use Rattle.drain_rules.specs.Labels.{HasNewLabel};
ghost use Rattle.drain_rules.specs.Verdicts.{IsVerdict, IfAccepted};

use crate::patch_rules::PatchRow;
use crate::row_view::Kept;
use crate::walk::Walk;
use drain_grid::laws::correct_from_rules;
use drain_grid::{
    Cell, CellValues, Elevation, Judged, OutOfMemory, Patch, ProductSet, Rules, Sinks, Verdict,
};
use std::alloc::Global;

/// The verdict on the products of a grid; its data cells that are listed sinks are open too. `OutOfMemory` comes only
/// at a data cell with code 0 whose label is new, if every rule holds there and at each earlier cell: no memory for its
/// label. So running out of memory never hides a fault.
pub fn verdict_of(
    alloc: Global,
    elevation: &Elevation,
    sinks: &Sinks,
    products: &ProductSet,
) -> Result<Verdict, OutOfMemory>
    requires same_shape { elevation.now.extent ≡ products.now.con.extent }
    ensures verdict { IfOk result (IsVerdict (grid_of elevation.now sinks.now) (products_of products.now) (nodata_of products.now)) }
    ensures err { OnErr result (HasNewLabel (record { nodata = nodata_of products.now; judged = AllWithRanks }) (grid_of elevation.now sinks.now) (products_of products.now)) }

    // What is accepted is correct, and every run is sound.
    ensures correct { IfAccepted result (IsCorrect (grid_of elevation.now sinks.now) (products_of products.now) (nodata_of products.now)) }
    ensures runs { IfAccepted result (RunsAreSound (grid_of elevation.now sinks.now) (products_of products.now)) }
{
    // The law that turns rules kept at every cell into correct products.
    correct_from_rules();
    walk(alloc, elevation, sinks, products)
}

/// Scans the rows, from north to south.
fn walk(
    alloc: Global,
    elevation: &Elevation,
    sinks: &Sinks,
    products: &ProductSet,
) -> Result<Verdict, OutOfMemory>
    requires same_shape { elevation.now.extent ≡ products.now.con.extent }
    ensures verdict { IfOk result (IsVerdict (grid_of elevation.now sinks.now) (products_of products.now) (nodata_of products.now)) }
    ensures err { OnErr result (HasNewLabel (record { nodata = nodata_of products.now; judged = AllWithRanks }) (grid_of elevation.now sinks.now) (products_of products.now)) }
{
    let shape = elevation.shape();
    let rules = Rules {
        nodata: products.nodata(),
        judged: Judged::AllWithRanks,
    };
    let mut walk = Walk::new(alloc);
    for row in 0..shape.rows() {
        let patches = RasterRow {
            elevation,
            sinks,
            products,
            row,
        };
        walk.check_row(&patches, &rules)?;
    }
    Ok(walk.verdict(shape))
}

/// A row of a grid's rasters.
#[derive(Clone, Copy)]
pub struct RasterRow<'a> {
    pub elevation: &'a Elevation,
    pub sinks: &'a Sinks,
    pub products: &'a ProductSet,
    pub row: u32,
    ghost same_shape: { elevation.now.extent ≡ products.now.con.extent },
    ghost inside: { row < elevation.now.extent.rows },
}

impl<'a> PatchRow for RasterRow<'a> {
    ghost use Rattle.drain_grid.specs.Grid.{patch_at};
    ghost use Rattle.drain_grid.specs.WholeGrid.{grid_of, products_of};
    ghost use Rattle.drain_rules.specs.Rows.{place};

    ghost len = { λ r. r.elevation.now.extent.cols };

    ghost shown = { λ r col. patch_at (grid_of r.elevation.now r.sinks.now) (products_of r.products.now) (place r.row col) };

    fn cols(&self) -> u32 {
        self.elevation.shape().cols()
    }

    /// None: each cell of whole rasters is checked alone.
    fn cells_above_ground(&self) -> u32 {
        0
    }

    /// None, likewise.
    fn kept_from(&self, _rules: &Rules, from: u32, _end: u32) -> Kept {
        Kept::none(from)
    }

    /// Likewise.
    fn voids_until(&self, _rules: &Rules, from: u32, _end: u32) -> u32 {
        from
    }

    /// Likewise.
    fn is_right_outlet(&self, _rules: &Rules, _col: u32) -> bool {
        false
    }

    fn values(&self, col: u32) -> CellValues {
        self.patch(col).here
    }

    fn patch(&self, col: u32) -> Patch {
        self.products
            .patch(self.elevation, self.sinks, Cell { row: self.row, col })
    }
}
