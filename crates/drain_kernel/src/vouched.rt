//! No-data numbers that no number of a cell that keeps the rules can be, so that its numbers needn't be compared with them.

ghost use Rattle.std.specs.Prelude.{◌≡◌, ◌≢◌, ◌≤◌};
ghost use Rattle.drain_kernel.specs.Names.{ℕ, IsTrue, true, pos, has_acc};
ghost use Rattle.drain_kernel.specs.Around.{is_direction_code};
ghost use Rattle.drain_kernel.specs.Shown.{lowered};

use crate::cells::bas_differs;
use crate::lane_height::LaneHeight;
use drain_grid::{NoData, Rules};

/// Whether con's no-data number is below all that lie on data, and that of dir is no code of a direction.
pub fn are_no_ways<H: LaneHeight>(nodata: &NoData) -> bool
    ensures con { IsTrue result → (con : ℕ) → 1 ≤ con → lowered H.bias con ≢ nodata.now.con }
    ensures dir { IsTrue result → (code : ℕ) → IsTrue (is_direction_code code) → pos code ≢ nodata.now.dir }
{
    nodata.con <= H::lowest() && (nodata.dir <= 0 || nodata.dir > 128)
}

/// Whether the number is none from 1 on.
fn is_below_1(number: i64) -> bool
    ensures { IsTrue result → (n : ℕ) → 1 ≤ n → pos n ≢ number }
{
    number <= 0
}

/// Whether acc's no-data number is below all that add up, and that of bas is another label than this one. False if the
/// accumulation isn't judged.
pub fn are_no_counts(label: u32, rules: &Rules) -> bool
    ensures tested { IsTrue result → has_acc rules.now.judged ≡ true }
    ensures acc { IsTrue result → (acc : ℕ) → 1 ≤ acc → pos acc ≢ rules.now.nodata.acc }
    ensures bas { IsTrue result → pos label ≢ rules.now.nodata.bas }
{
    rules.judged.has_acc() && is_below_1(rules.nodata.acc) && bas_differs(label, &rules.nodata)
}
