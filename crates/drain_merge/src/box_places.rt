//! Places that lie in a box.

ghost use Rattle.std.specs.Prelude.{◌↔◌};
ghost use Rattle.drain_merge.specs.Names.{IsTrue, LiesInBox};
ghost use Rattle.drain_merge.specs.Boxes.{ColsLieIn, RowsLieIn};
ghost use Rattle.drain_merge.specs.Places.{IsFirstFailing};

use drain_union::Place;
use drain_union::place::end_of;

/// The first place that doesn't lie in the box, or has a side that isn't inner and isn't one of the box's outer sides.
pub(crate) fn first_outside(bounds: &Place, places: &[Place]) -> Option<usize>
    ensures { IsFirstFailing (LiesInBox bounds.now) places.now result }
{
    for i in 0..places.len() {
        if !lies_in_box(bounds, &places[i]) {
            return Some(i);
        }
    }
    None
}

/// Whether the place lies in the box, and each side that isn't inner is the box's, and not inner there.
fn lies_in_box(bounds: &Place, place: &Place) -> bool
    ensures { IsTrue result ↔ LiesInBox bounds.now place.now }
{
    rows_lie_in(bounds, place) && cols_lie_in(bounds, place)
}

/// So far as rows go.
fn rows_lie_in(bounds: &Place, place: &Place) -> bool
    ensures { IsTrue result ↔ RowsLieIn bounds.now place.now }
{
    let end = end_of(place.top, place.extent.rows());
    let last = end_of(bounds.top, bounds.extent.rows());
    let north = place.inner.north || (place.top == bounds.top && !bounds.inner.north);
    let south = place.inner.south || (end == last && !bounds.inner.south);
    bounds.top <= place.top && end <= last && north && south
}

/// So far as columns go.
fn cols_lie_in(bounds: &Place, place: &Place) -> bool
    ensures { IsTrue result ↔ ColsLieIn bounds.now place.now }
{
    let end = end_of(place.left, place.extent.cols());
    let last = end_of(bounds.left, bounds.extent.cols());
    let west = place.inner.west || (place.left == bounds.left && !bounds.inner.west);
    let east = place.inner.east || (end == last && !bounds.inner.east);
    bounds.left <= place.left && end <= last && west && east
}
