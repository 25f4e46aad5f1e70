//! The direction of each cell, noted row by row, and the first path without an end.

ghost use Rattle.std.specs.Prelude.{◌≡◌, ◌*◌};
ghost use Rattle.drain_rows.specs.Names.{length, MatchOption, Grid, Products, Rules, IsVerdictBy};
ghost use Rattle.drain_grid.specs.Unranked.{IsFirstEndless};
ghost use Rattle.drain_paths.specs.Flows.{AreFlowsOf};
ghost use Rattle.drain_paths.specs.Walks.{AreKnownFlows};
ghost use Rattle.drain_rows.specs.GridRows.{AllRunsEnd};

use crate::row_buffer::RowBuffer;
use crate::row_visitor::RowVisitor;
use drain_grid::laws::runs_end_by_counts;
use drain_grid::{Cell, Judged, OutOfMemory, Rules, Shape, Verdict};
use drain_paths::CellFlows;
use drain_rules::ThreeRows;

impl RowVisitor for CellFlows {
    ghost use Rattle.std.specs.Prelude.{true};
    ghost use Rattle.drain_paths.specs.Flows.{AreFirstFlows};

    ghost counts = { λ n flows. Unit {0} };

    ghost are_of = { λ rules g ps rows flows. AreFirstFlows g ps g.extent rows flows };

    ghost wants = { λ rules g ps. Unit {0} };

    ghost lasting = { λ flows. true };

    fn note(
        &mut self,
        row: &RowBuffer,
        _rows: &ThreeRows<'_>,
        _rules: &Rules,
    ) -> Result<(), OutOfMemory> {
        self.push_row(&row.z, &row.products.dir)
    }
}

/// The first data cell whose path doesn't end, from the flows of all cells of a grid and this verdict of the rules about
/// the judged rasters. If accumulation is among them, paths are followed only after a rejection: if every rule holds every
/// path ends, since accumulation can't grow along a ring. None if flows and cells differ in number, which never happens
/// if the sources' bytes are known.
pub fn first_endless(
    flows: &mut CellFlows,
    shape: Shape,
    judged: Judged,
    verdict: &Verdict,
) -> Option<Cell>
    ensures first { (rules : Rules) (g : Grid) (ps : Products) → rules.judged ≡ judged → IsVerdictBy rules g ps verdict.now → length flows.old ≡ shape.rows * shape.cols → AreFlowsOf g ps shape flows.old → MatchOption result (AllRunsEnd g ps) (IsFirstEndless g ps) }
    ensures known { (g : Grid) (ps : Products) → AreFlowsOf g ps shape flows.old → AreKnownFlows g ps shape flows.new }
    ensures counted { length flows.new ≡ length flows.old }
{
    // The law that every path ends if the rules on directions and accumulation hold.
    runs_end_by_counts();
    if let Verdict::Accepted(_) = verdict {
        if judged.has_acc() && !judged.has_rnk() {
            return None;
        }
    }
    if flows.len() == shape.cells() {
        flows.first_endless(shape)
    } else {
        None
    }
}
