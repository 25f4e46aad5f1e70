//! The low edges of flats: outlets, and cells with a lower neighbour. Their rank is 0.

ghost use Rattle.std.specs.Prelude.{◌≡◌, ◌↔◌};
ghost use Rattle.drain_flood.specs.Names.{MatchOption, IsTrue, Direction, IsCellOf};
ghost use Rattle.drain_flood.specs.Looks.{IsInnerPlace};
ghost use Rattle.drain_flood.specs.Walks.{IsLowEdgeThere};

use crate::flats::Flats;
use crate::heights::HeightList;
use crate::layers::{REACHED, VOID};
use crate::places::{beside, is_inner};
use crate::surface::Surface;
use drain_grid::{Cell, Direction, Shape};

impl Flats {
    /// The first direction in which there is a low edge.
    pub(crate) fn low_edge<C: HeightList>(
        &self,
        surface: &Surface<C>,
        cell: Cell,
        level: i64,
    ) -> Option<Direction>
        requires same { self.now.extent ≡ surface.now.extent }
        requires inside { IsCellOf self.now.extent cell }
        ensures { MatchOption result ((d : Direction) → IsLowEdgeThere self.now.extent surface.now self.now cell level d → ⊥) (IsLowEdgeThere self.now.extent surface.now self.now cell level) }
    {
        let shape = self.shape();
        if is_inner(shape, cell) {
            self.low_edge_inside(surface, shape, cell, level)
        } else {
            self.low_edge_at_edge(surface, shape, cell, level)
        }
    }

    /// The same for a cell that isn't on the edge of the grid, with the eight directions written out.
    #[inline(always)]
    fn low_edge_inside<C: HeightList>(
        &self,
        surface: &Surface<C>,
        shape: Shape,
        cell: Cell,
        level: i64,
    ) -> Option<Direction>
        requires same { self.now.extent ≡ surface.now.extent }
        requires same_shape { shape ≡ self.now.extent }
        requires inside { IsCellOf self.now.extent cell }
        requires inner { IsInnerPlace self.now.extent cell }
        ensures { MatchOption result ((d : Direction) → IsLowEdgeThere self.now.extent surface.now self.now cell level d → ⊥) (IsLowEdgeThere self.now.extent surface.now self.now cell level) }
    {
        if self.is_low_edge(surface, shape, cell, true, Direction::East, level) {
            return Some(Direction::East);
        }
        if self.is_low_edge(surface, shape, cell, true, Direction::SouthEast, level) {
            return Some(Direction::SouthEast);
        }
        if self.is_low_edge(surface, shape, cell, true, Direction::South, level) {
            return Some(Direction::South);
        }
        if self.is_low_edge(surface, shape, cell, true, Direction::SouthWest, level) {
            return Some(Direction::SouthWest);
        }
        if self.is_low_edge(surface, shape, cell, true, Direction::West, level) {
            return Some(Direction::West);
        }
        if self.is_low_edge(surface, shape, cell, true, Direction::NorthWest, level) {
            return Some(Direction::NorthWest);
        }
        if self.is_low_edge(surface, shape, cell, true, Direction::North, level) {
            return Some(Direction::North);
        }
        if self.is_low_edge(surface, shape, cell, true, Direction::NorthEast, level) {
            return Some(Direction::NorthEast);
        }
        None
    }

    /// The same for a cell anywhere, direction by direction.
    #[inline(never)]
    fn low_edge_at_edge<C: HeightList>(
        &self,
        surface: &Surface<C>,
        shape: Shape,
        cell: Cell,
        level: i64,
    ) -> Option<Direction>
        requires same { self.now.extent ≡ surface.now.extent }
        requires same_shape { shape ≡ self.now.extent }
        requires inside { IsCellOf self.now.extent cell }
        ensures { MatchOption result ((d : Direction) → IsLowEdgeThere self.now.extent surface.now self.now cell level d → ⊥) (IsLowEdgeThere self.now.extent surface.now self.now cell level) }
    {
        for direction in Direction::ALL {
            if self.is_low_edge(surface, shape, cell, false, direction, level) {
                return Some(direction);
            }
        }
        None
    }

    /// Whether there is a low edge in a direction.
    #[inline(always)]
    fn is_low_edge<C: HeightList>(
        &self,
        surface: &Surface<C>,
        shape: Shape,
        cell: Cell,
        inner: bool,
        direction: Direction,
        level: i64,
    ) -> bool
        requires same { self.now.extent ≡ surface.now.extent }
        requires same_shape { shape ≡ self.now.extent }
        requires inside { IsCellOf self.now.extent cell }
        requires inner { IsTrue inner → IsInnerPlace self.now.extent cell }
        ensures yes { IsTrue result → IsLowEdgeThere self.now.extent surface.now self.now cell level direction }
        ensures no { IsLowEdgeThere self.now.extent surface.now self.now cell level direction → IsTrue result }
    {
        match beside(shape, cell, inner, direction) {
            Some(next) => {
                let way = self.way_at(next);
                if way == REACHED {
                    return false;
                }
                if way == VOID {
                    return false;
                }
                if self.rank_at(next) != 0 {
                    return false;
                }
                is_level(surface.level_at(next), level)
            }
            None => false,
        }
    }
}

/// Whether a height is this level.
fn is_level(height: i64, level: i64) -> bool
    ensures { IsTrue result ↔ height ≡ level }
{
    height == level
}
