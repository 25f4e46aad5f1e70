//! The faults of a grid's rows, which also give the verdict.

ghost use Rattle.std.specs.Prelude.{◌≡◌, ◌↔◌};
ghost use Rattle.drain_explain.specs.Names.{IfOk, IsSome, Grid, Products, Rules};
ghost use Rattle.drain_explain.specs.Explanations.{AreFaultNotes, IsWalkNoted};
ghost use Rattle.drain_explain.specs.declared.fault_visitor.Mapping.TheVariants.{Drawn};

use crate::elevation_range::{joined, range_of};
use drain_faults::FaultWalk;
use drain_findings::ElevationRange;
use drain_grid::{Judged, NoData, OutOfMemory, Rules, Shape, Verdict};
use drain_rows::{RowBuffer, RowVisitor, VerdictVisitor};
use drain_rules::ThreeRows;
use std::alloc::Global;

/// Whether a map of the faults is required, which takes a byte for each cell.
#[derive(Clone, Copy, PartialEq, Eq, Debug)]
pub enum Mapping {
    Drawn,
    Undrawn,
}

/// The result of the rows so far, with their map if one is required; the rules tried at the last row; the least and the
/// greatest elevation of these rows.
#[derive(Drop)]
pub struct FaultVisitor {
    pub walk: FaultWalk,
    pub rules: Rules,
    pub elevations: Option<ElevationRange>,
}

impl FaultVisitor {
    /// No row. For a map it takes memory, which grows with the rows; else none.
    pub fn new(
        alloc: Global,
        shape: Shape,
        mapping: Mapping,
        judged: Judged,
    ) -> Result<FaultVisitor, OutOfMemory>
        ensures rows { IfOk result (λ notes. notes.walk.rows ≡ 0) }
        ensures begun { IfOk result (λ notes. (rules : Rules) (g : Grid) (ps : Products) → AreFaultNotes rules g ps 0 notes) }
        ensures drawn { IfOk result (λ notes. IsSome notes.walk.map ↔ (mapping ≡ Drawn)) }
    {
        let walk = new_walk(alloc, shape, mapping)?;
        Ok(FaultVisitor {
            walk,
            rules: Rules {
                nodata: NoData::defaults(),
                judged,
            },
            elevations: None,
        })
    }
}

/// A walk that passed no row, which draws a map if one is required.
fn new_walk(alloc: Global, shape: Shape, mapping: Mapping) -> Result<FaultWalk, OutOfMemory>
    ensures rows { IfOk result (λ walk. walk.rows ≡ 0) }
    ensures begun { IfOk result (λ walk. (rules : Rules) (g : Grid) (ps : Products) → IsWalkNoted rules g ps 0 walk) }
    ensures drawn { IfOk result (λ walk. IsSome walk.map ↔ (mapping ≡ Drawn)) }
{
    match mapping {
        Mapping::Drawn => Ok(FaultWalk::drawing(alloc, shape)?),
        Mapping::Undrawn => Ok(FaultWalk::new(alloc)),
    }
}

impl RowVisitor for FaultVisitor {
    ghost use Rattle.std.specs.Prelude.{◌≡◌, is_some};
    ghost use Rattle.drain_explain.specs.Explanations.{AreFaultNotes};

    ghost counts = { λ n notes. notes.walk.rows ≡ n };

    ghost are_of = { AreFaultNotes };

    ghost wants = { λ rules g ps. Unit {0} };

    ghost lasting = { λ notes. is_some notes.walk.map };

    fn note(
        &mut self,
        row: &RowBuffer,
        rows: &ThreeRows<'_>,
        rules: &Rules,
    ) -> Result<(), OutOfMemory> {
        self.walk.note_row(rows, rules)?;
        self.rules = *rules;
        self.elevations = joined(self.elevations, range_of(&row.z));
        Ok(())
    }
}

impl VerdictVisitor for FaultVisitor {
    fn verdict(&self, shape: Shape) -> Verdict {
        self.walk.verdict(shape)
    }
}
