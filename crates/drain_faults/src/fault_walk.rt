//! The walk over a grid, row by row.

ghost use Rattle.std.specs.Prelude.{◌*◌};
ghost use Rattle.drain_faults.specs.Names.{MAX_LENGTH, IsAtMost};

use crate::fault_map::FaultMap;
use crate::patch_faults::{FaultyPatch, RuleFaults};
use crate::per_rule::PerRule;
use crate::product_faults::{ProductFaults, no_faults};
use crate::row_faults::{FaultTally, note_row_of};
use drain_basin::OutletLabels;
use drain_grid::{Counts, OutOfMemory, PerProduct, Rules, Shape, Verdict};
use drain_rules::PatchRow;
use drain_rules::walk::Tally;
use std::alloc::Global;

/// How many rows were scanned, their counts, the results at their cells, and a map of them if required.
#[derive(Drop)]
pub struct FaultWalk {
    rows: u32,
    tally: Tally,
    found: FaultTally,
    map: Option<FaultMap>,
    ghost bounded: { IsAtMost (rows * MAX_LENGTH) tally },
}

impl FaultWalk {
    ghost use Rattle.std.specs.Prelude.{◌≡◌, ◌<◌, ◌+◌, ◌↔◌, ◌⊎◌};
    ghost use Rattle.drain_faults.specs.Names.{IfOk, IfSome, IsNone, IsSome, IsTrue, OnErr, OnOk, Grid, Products, Rules, has_bas, cells_above};
    ghost use Rattle.drain_rules.specs.Verdicts.{IsVerdictBy};
    ghost use Rattle.drain_faults.specs.ByProduct.{AreFaultsByProduct};
    ghost use Rattle.drain_faults.specs.Faults.{AreFaultsOf, IsFirstPatch};
    ghost use Rattle.drain_faults.specs.FaultMaps.{AreMapPixels, IsMapOf, IsMapOfCells, OfNextRowDrawn};
    ghost use Rattle.drain_faults.specs.FaultWalks.{HasNewOutlet, IsCountedOf, IsRightTally, OfNextFaultRow, OfNextRowCounted};

    /// No row was scanned, and no map is drawn. This takes no memory.
    pub fn new(alloc: Global) -> FaultWalk
        ensures rows { result.rows ≡ 0 }
        ensures drawn { IsNone result.map }
        ensures map { (rules : Rules) (g : Grid) (ps : Products) → IsMapOf rules g ps result }
        ensures found { (rules : Rules) (g : Grid) (ps : Products) → IsRightTally rules g ps result }
        ensures counted { (g : Grid) (ps : Products) → IsCountedOf g ps result }
    {
        FaultWalk {
            rows: 0,
            tally: Tally::new(),
            found: FaultTally {
                labels: OutletLabels::new(alloc),
                by_rule: PerRule::same(RuleFaults::none()),
                by_product: no_faults(),
                first: None,
            },
            map: None,
        }
    }

    /// No row was scanned. A map of a grid of this shape is drawn, which grows with the rows.
    pub fn drawing(alloc: Global, shape: Shape) -> Result<FaultWalk, OutOfMemory>
        ensures rows { IfOk result (λ walk. walk.rows ≡ 0) }
        ensures drawn { IfOk result (λ walk. IsSome walk.map) }
        ensures found { IfOk result (λ walk. (rules : Rules) (g : Grid) (ps : Products) → IsRightTally rules g ps walk) }
        ensures counted { IfOk result (λ walk. (g : Grid) (ps : Products) → IsCountedOf g ps walk) }
        ensures map { IfOk result (λ walk. (rules : Rules) (g : Grid) (ps : Products) → IsMapOf rules g ps walk) }
    {
        let map = FaultMap::new(alloc, shape)?;
        let mut walk = FaultWalk::new(alloc);
        walk.map = Some(map);
        Ok(walk)
    }

    /// Scans the next row. The result is right for these rules if the rows above were scanned with them too.
    ///
    /// `OutOfMemory` comes only if a map is drawn, or if labels are judged at a data cell with code 0 whose label no
    /// earlier one has: no memory for it. Then the walk is over.
    pub fn note_row<R: PatchRow>(&mut self, patches: &R, rules: &Rules) -> Result<(), OutOfMemory>
        requires row { self.old.rows < MAX_LENGTH }
        ensures rows { OnOk result (self.new.rows ≡ self.old.rows + 1) }
        ensures found { OnOk result (OfNextFaultRow rules.now self.old (R.len patches.now) (R.shown patches.now) (λ g ps. IsRightTally rules.now g ps self.new)) }
        ensures map { OnOk result (OfNextRowDrawn rules.now self.old (R.len patches.now) (R.shown patches.now) (λ g ps. IsMapOf rules.now g ps self.new)) }
        ensures counted { OnOk result (OfNextRowCounted self.old (R.len patches.now) (R.shown patches.now) (λ g ps. IsCountedOf g ps self.new)) }
        ensures drawn { OnOk result (IsSome self.new.map ↔ IsSome self.old.map) }
        ensures err { OnErr result (IsSome self.old.map ⊎ (IsTrue (has_bas rules.now.judged) × OfNextFaultRow rules.now self.old (R.len patches.now) (R.shown patches.now) HasNewOutlet)) }
    {
        match note_row_of(&mut self.found, &mut self.map, self.rows, patches, rules) {
            Ok(row) => {
                self.tally.join(row);
                self.rows += 1;
                Ok(())
            }
            Err(OutOfMemory) => Err(OutOfMemory),
        }
    }

    /// The verdict on the grid of this shape, after all its rows were scanned: that of `drain_rules` by the same
    /// rules.
    pub fn verdict(&self, shape: Shape) -> Verdict
        ensures { (rules : Rules) (g : Grid) (ps : Products) → g.extent ≡ shape → self.now.rows ≡ g.extent.rows → IsRightTally rules g ps self.now → IsCountedOf g ps self.now → IsVerdictBy rules g ps result }
    {
        match self.found.first {
            None => Verdict::Accepted(Counts {
                rows: shape.rows(),
                cols: shape.cols(),
                data_cells: self.tally.data_cells,
                raised: self.tally.raised,
                outlets: self.tally.outlets,
            }),
            Some(first) => Verdict::Rejected {
                rule: first.rule,
                row: first.cell.row,
                col: first.cell.col,
            },
        }
    }

    /// How many rows were scanned.
    pub fn rows(&self) -> u32
        ensures { result ≡ self.now.rows }
    {
        self.rows
    }

    /// For each rule that is tried at how many cells of these rows it fails, and at which first; of another nothing is
    /// counted. This is for every grid and its products of which the walk is right.
    pub fn faults(&self) -> &PerRule<RuleFaults>
        ensures of_grids { (rules : Rules) (g : Grid) (ps : Products) → IsRightTally rules g ps self.now → AreFaultsOf rules g ps (cells_above g self.now.rows) result.now }
    {
        &self.found.by_rule
    }

    /// For each judged product at how many voids of these rows it has another number, and at how many data cells its
    /// no-data number, and at which first; of another nothing is counted. For the same grids.
    pub fn by_product(&self) -> &PerProduct<ProductFaults>
        ensures of_grids { (rules : Rules) (g : Grid) (ps : Products) → IsRightTally rules g ps self.now → AreFaultsByProduct rules g ps (cells_above g self.now.rows) result.now }
    {
        &self.found.by_product
    }

    /// A number for each cell of these rows, in row order, if a map is drawn: for every grid of which the map is right.
    pub fn map(&self) -> Option<&FaultMap>
        ensures of_grids { (rules : Rules) (g : Grid) (ps : Products) → IsMapOf rules g ps self.now → IfSome result (λ map. AreMapPixels rules g ps (cells_above g self.now.rows) map.now.pixels.items) }
    {
        self.map.as_ref()
    }

    /// The faults of each rule and of each product, and the map if one is drawn; the walk is used up.
    pub fn into_faults(
        self,
    ) -> (
        PerRule<RuleFaults>,
        PerProduct<ProductFaults>,
        Option<FaultMap>,
    )
        ensures of_grids { (rules : Rules) (g : Grid) (ps : Products) → IsRightTally rules g ps self → AreFaultsOf rules g ps (cells_above g self.rows) result.0 }
        ensures by_product { (rules : Rules) (g : Grid) (ps : Products) → IsRightTally rules g ps self → AreFaultsByProduct rules g ps (cells_above g self.rows) result.1 }
        ensures map { (rules : Rules) (g : Grid) (ps : Products) → IsMapOf rules g ps self → IsMapOfCells rules g ps (cells_above g self.rows) result.2 }
        ensures drawn { IsSome result.2 ↔ IsSome self.map }
    {
        (self.found.by_rule, self.found.by_product, self.map)
    }

    /// The first cell of these rows at which any rule that is tried fails, and its patch; none if each holds at each of
    /// them. For the same grids.
    pub fn first_patch(&self) -> Option<FaultyPatch>
        ensures of_grids { (rules : Rules) (g : Grid) (ps : Products) → IsRightTally rules g ps self.now → IsFirstPatch rules g ps (cells_above g self.now.rows) result }
    {
        self.found.first
    }
}
