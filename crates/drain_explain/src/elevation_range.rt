//! The least and the greatest elevation of the cells of some rows.

ghost use Rattle.std.specs.Prelude.{◌≡◌, Some, length};
ghost use Rattle.drain_explain.specs.ElevationRanges.{IsOfRow, IsRange, joined};

use drain_findings::ElevationRange;
use drain_pixels::GroundRow;

/// The range of a row's elevations, none if all its cells are voids.
pub(crate) fn range_of(row: &GroundRow) -> Option<ElevationRange>
    ensures { IsRange (IsOfRow row.now (length row.now)) result }
{
    let mut range: Option<ElevationRange> = None;
    for col in 0..row.len() {
        range = joined(range, range_at(row.z(col)));
    }
    range
}

/// The range of one elevation, none of a void.
fn range_at(z: Option<i64>) -> Option<ElevationRange>
    ensures { IsRange (λ height. z ≡ Some height) result }
{
    match z {
        Some(z) => Some(ElevationRange {
            least: z,
            greatest: z,
        }),
        None => None,
    }
}

/// The range of the elevations of both.
pub(crate) fn joined(
    one: Option<ElevationRange>,
    other: Option<ElevationRange>,
) -> Option<ElevationRange>
    ensures { result ≡ joined one other }
{
    match (one, other) {
        (Some(one), Some(other)) => Some(ElevationRange {
            least: one.least.min(other.least),
            greatest: one.greatest.max(other.greatest),
        }),
        (Some(_), None) => one,
        (None, _) => other,
    }
}
