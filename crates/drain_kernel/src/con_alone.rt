//! The tests where con alone is judged: by the surface, with no test of a direction. But cleared cells count as no
//! outlets, so the direction, which isn't judged, must not be 0.

ghost use Rattle.std.specs.Prelude.{◌<◌, IsTrue};
ghost use Rattle.drain_kernel.specs.Columns.{Along, IsInnerColumn, IsStretch};
ghost use Rattle.drain_kernel.specs.ConAlone.{HasConAt, LiesAt, SurfacePassesAt};
ghost use Rattle.drain_kernel.specs.Shown.{cols};

use crate::column_test::{ColumnTest, passes_along};
use crate::columns::SurfaceTest;
use crate::lane_height::LaneHeight;
use crate::lane_row::LaneRow;
use crate::lane_rows::LaneRows;
use crate::stretches::all_inland;
use drain_grid::NoData;
use drain_pixels::row_lanes::HeightLane;

/// The conditioned elevation isn't its no-data number, and the direction isn't 0.
#[derive(Drop)]
struct ConTest<'a, H: HeightLane> {
    row: &'a LaneRow<'a, H>,
    nodata: &'a NoData,
}

impl<H: LaneHeight> ColumnTest for ConTest<'_, H> {
    ghost CanTest = { λ test k. k < cols test.row.now };

    ghost Passed = { λ test. HasConAt test.nodata.now test.row.now };

    #[inline(always)]
    fn passes(&self, k: usize) -> bool {
        self.row.con_differs(k, self.nodata) & (self.row.code(k) != 0)
    }
}

/// Whether the cells and their neighbours have data, the rules of the conditioned elevation hold, and it is there.
pub(crate) fn surfaces_pass<H: LaneHeight>(
    rows: &LaneRows<H>,
    nodata: &NoData,
    from: usize,
    end: usize,
) -> bool
    requires { IsStretch rows.now from end }
    ensures { IsTrue result → Along from end (SurfacePassesAt nodata.now rows.now) }
{
    let row = &rows.here;
    all_inland(rows, from, end)
        && passes_along(&SurfaceTest(&*rows), from, end)
        && passes_along(&ConTest { row, nodata }, from, end)
}

/// Whether the cell at a column has data and is not raised, and con is there.
pub(crate) fn lies_at<H: LaneHeight>(rows: &LaneRows<H>, nodata: &NoData, k: usize) -> bool
    requires { IsInnerColumn rows.now k }
    ensures { IsTrue result → LiesAt nodata.now rows.now k }
{
    let row = &rows.here;
    row.has_data(k) && row.con(k).is_same(row.height(k)) && ConTest { row, nodata }.passes(k)
}
