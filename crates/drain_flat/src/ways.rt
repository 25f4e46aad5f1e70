//! The ways on along a flat: in which directions rule FlatStep lets a cell step.

ghost use Rattle.std.specs.Prelude.{◌≡◌, ◌↔◌, ◌<ℤ◌};
ghost use Rattle.drain_flat.specs.Names.{IsSome, IsTrue, IsClosed, HasLower, FlatStepHolds, LevelStepHolds};
ghost use Rattle.drain_flat.specs.Ways.{IsFlatWay, IsLevelWay};
ghost use Rattle.drain_grid.specs.Direction.{Names};

use drain_grid::{CellValues, Direction, Patch};

/// Whether a data neighbour of the same height and a smaller rank is in this direction: so a closed cell with no lower
/// neighbour may step there.
pub fn is_flat_way(patch: &Patch, direction: Direction) -> bool
    ensures way { IsTrue result ↔ IsFlatWay patch.now direction }
    ensures keeps { IsClosed patch.now → ¬ HasLower patch.now → Names patch.now.here.dir direction → FlatStepHolds patch.now ↔ IsTrue result }
{
    match patch.neighbor(direction) {
        Some(there) => is_nearer(patch, &there),
        None => false,
    }
}

/// The same without ranks: whether a data neighbour of the same height is in this direction.
pub fn is_flat_way_without_ranks(patch: &Patch, direction: Direction) -> bool
    ensures way { IsTrue result ↔ IsLevelWay patch.now direction }
    ensures keeps { IsClosed patch.now → ¬ HasLower patch.now → Names patch.now.here.dir direction → LevelStepHolds patch.now ↔ IsTrue result }
{
    match patch.neighbor(direction) {
        Some(there) => is_level(patch, &there),
        None => false,
    }
}

/// Whether these values are those of a data cell of the same height and a smaller rank.
fn is_nearer(patch: &Patch, there: &CellValues) -> bool
    ensures { IsTrue result ↔ (IsSome there.now.z × (there.now.con ≡ patch.now.here.con) × (there.now.rnk <ℤ patch.now.here.rnk)) }
{
    is_level(patch, there) && there.rnk < patch.here.rnk
}

/// Whether these values are those of a data cell of the same height.
fn is_level(patch: &Patch, there: &CellValues) -> bool
    ensures { IsTrue result ↔ (IsSome there.now.z × (there.now.con ≡ patch.now.here.con)) }
{
    there.z.is_some() && there.con == patch.here.con
}
