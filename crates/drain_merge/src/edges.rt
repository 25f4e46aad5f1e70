//! The edges of what a place judges.

ghost use Rattle.std.specs.Prelude.{◌≡◌, ◌↔◌};
ghost use Rattle.drain_merge.specs.Names.{IsTrue, BothJudgeOne, IsJudgedAtSome, JudgesSome, judged_bottom, judged_left, judged_right, judged_top};

use drain_grid::Cell;
use drain_union::Place;
use drain_union::place::end_of;

/// The first row that the window at this place judges.
pub(crate) fn top_of(place: &Place) -> u64
    ensures { result ≡ judged_top place.now }
{
    u64::from(place.top) + u64::from(place.inner.north)
}

/// The first column that the window at this place judges.
pub(crate) fn left_of(place: &Place) -> u64
    ensures { result ≡ judged_left place.now }
{
    u64::from(place.left) + u64::from(place.inner.west)
}

/// One more than the last row that the window at this place judges.
pub(crate) fn bottom_of(place: &Place) -> u64
    ensures { result ≡ judged_bottom place.now }
{
    end_of(place.top, place.extent.rows()).saturating_sub(u64::from(place.inner.south))
}

/// One more than the last column that the window at this place judges.
pub(crate) fn right_of(place: &Place) -> u64
    ensures { result ≡ judged_right place.now }
{
    end_of(place.left, place.extent.cols()).saturating_sub(u64::from(place.inner.east))
}

/// Whether some window judges this cell of the union.
pub(crate) fn is_judged(places: &[Place], cell: Cell) -> bool
    ensures { IsTrue result ↔ IsJudgedAtSome places.now cell }
{
    for place in places {
        if place.judges(cell) {
            return true;
        }
    }
    false
}

/// Whether the window at this place judges a cell.
pub(crate) fn judges_some(place: &Place) -> bool
    ensures { IsTrue result ↔ JudgesSome place.now }
{
    top_of(place) < bottom_of(place) && left_of(place) < right_of(place)
}

/// Whether a cell of the union is judged at both places.
pub(crate) fn both_judge_one(p: &Place, q: &Place) -> bool
    ensures { IsTrue result ↔ BothJudgeOne p.now q.now }
{
    let top = top_of(p).max(top_of(q));
    let left = left_of(p).max(left_of(q));
    top < bottom_of(p).min(bottom_of(q)) && left < right_of(p).min(right_of(q))
}
