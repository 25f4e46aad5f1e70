//! The cells of a grid with data and their conditioned elevations, compared with the filled surface.

ghost use Rattle.std.specs.Prelude.{◌≡◌, ◌*◌};
ghost use Rattle.drain_filled.specs.Names.{IfOk, MatchOption, vec_len, Grid, Products, RulesHold, IsLeastSurface, surface_rules, IsFillRule};
ghost use Rattle.drain_filled.specs.Compared.{IsFirstUnfilled};
ghost use Rattle.drain_filled.specs.ConRows.{HasSinks, IsGroundAndCon};

use crate::compare::first_unfilled;
use crate::ground::Ground;
use drain_grid::{Cell, OutOfMemory, Sinks};
use std::alloc::Global;

/// Which cells of a grid have data, and the conditioned elevation of each cell in row order.
#[derive(Drop)]
pub struct Surfaces {
    pub ground: Ground,
    pub con: Vec<i64>,
}

impl Surfaces {
    /// The first data cell where the conditioned elevation isn't the least surface that covers the ground and drains;
    /// none if it is that surface.
    ///
    /// This is about each grid whose cells these are, if rules 4, 5 and 9 hold at each of them. Then the conditioned
    /// elevation lies between the ground and that surface. So it alone is raised until it drains, and the ground isn't
    /// needed. `OutOfMemory` if memory was refused.
    pub fn first_unfilled(&self, alloc: Global, sinks: &Sinks) -> Result<Option<Cell>, OutOfMemory>
        requires counted { vec_len self.now.con ≡ self.now.ground.extent.rows * self.now.ground.extent.cols }
        ensures first { IfOk result (λ found. (g : Grid) (ps : Products) → IsGroundAndCon g ps self.now.ground self.now.con.items → HasSinks g sinks.now → RulesHold surface_rules IsFillRule g ps → MatchOption found (IsLeastSurface g ps.con) (IsFirstUnfilled g ps.con)) }
    {
        first_unfilled(alloc, &self.ground, &self.con, sinks, &self.con)
    }
}
