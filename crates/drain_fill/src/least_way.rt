//! The greatest conditioned elevation that rule NotLeast allows at a cell.

ghost use Rattle.std.specs.Prelude.{◌≡◌, ◌↔◌, ◌⊎◌, ◌≤ℤ◌};
ghost use Rattle.drain_fill.specs.Names.{IfSome, MatchOption, Direction, IsDataCell, IsDataNeighbor, neighbor, height, NotLeastHolds, Values};
ghost use Rattle.drain_fill.specs.LeastWays.{IsGreatestAllowed, IsNotAbove, way, way_of};

use drain_grid::{CellValues, Direction, Patch};

/// The greatest conditioned elevation with which a data cell keeps the rule: the least, over its data neighbours, of the
/// greater of the ground here and the elevation there. None if no neighbour has data: then the cell keeps the rule with
/// any.
pub fn greatest_allowed(patch: &Patch) -> Option<i64>
    ensures value { MatchOption result ((d : Direction) (n : Values) → ¬ IsDataNeighbor patch.now d n) (IsGreatestAllowed patch.now) }
    ensures keeps { IsDataCell patch.now → NotLeastHolds patch.now ↔ IfSome result (λ most. patch.now.here.con ≤ℤ most) }
{
    let mut least = None;
    for direction in Direction::ALL {
        least = lesser(least, way(patch, direction));
    }
    least
}

/// The lesser of two, with none greater than any.
fn lesser(one: Option<i64>, other: Option<i64>) -> Option<i64>
    ensures below_one { IsNotAbove result one }
    ensures below_other { IsNotAbove result other }
    ensures either { (result ≡ one) ⊎ (result ≡ other) }
{
    match (one, other) {
        (Some(a), Some(b)) => Some(a.min(b)),
        (Some(a), None) => Some(a),
        (None, any) => any,
    }
}

/// What the neighbour in this direction allows; none if it has no data.
fn way(patch: &Patch, direction: Direction) -> Option<i64>
    ensures { result ≡ way patch.now direction }
{
    let there = patch.neighbor(direction)?;
    over(ground(patch), &there)
}

/// The ground, 0 at a void.
fn ground(patch: &Patch) -> i64
    ensures { result ≡ height patch.now }
{
    match patch.here.z {
        Some(ground) => ground,
        None => 0,
    }
}

/// The greater of the ground and the elevation there; none without data there.
fn over(ground: i64, there: &CellValues) -> Option<i64>
    ensures { result ≡ way_of ground there.now }
{
    if there.z.is_some() {
        Some(ground.max(there.con))
    } else {
        None
    }
}
