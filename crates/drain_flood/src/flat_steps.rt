//! The steps of the walk along flats: from a settled cell to its eight neighbours.
//!
//! Away from the edge of the grid the eight directions are written out, as where a flood looks around.

ghost use Rattle.std.specs.Prelude.{◌≡◌, ◌+◌, ◌*◌, ◌<◌};
ghost use Rattle.drain_flood.specs.Names.{ℕ, List, MatchOption, IfSome, OnOk, IsTrue, get_or, Cell, East, directions, IsCellOf, Grid};
ghost use Rattle.drain_flood.specs.Floods.{con_at};
ghost use Rattle.drain_flood.specs.Looks.{IsInnerPlace};
ghost use Rattle.drain_flood.specs.Flats.{Laying, IsSettled, AreLaid};
ghost use Rattle.drain_flood.specs.Walks.{IsFlatAt, IsFlatPlace, IsWalk, IsWalked, IsPassed, IsLessWalk};

use crate::flats::Flats;
use crate::heights::HeightList;
use crate::layers::REACHED;
use crate::places::{beside, is_inner};
use crate::surface::Surface;
use crate::ways::code;
use drain_grid::{Cell, Direction, OutOfMemory, Shape};

impl Flats {
    /// Settles the neighbours of a settled cell that have its height and no way yet.
    pub(crate) fn look_around<C: HeightList>(
        &mut self,
        surface: &Surface<C>,
        cell: Cell,
    ) -> Result<(), OutOfMemory>
        requires same { self.old.extent ≡ surface.now.extent }
        requires inside { IsCellOf self.old.extent cell }
        ensures extent { self.new.extent ≡ self.old.extent }
        ensures work { OnOk result (IsLessWalk self.old self.new) }
        ensures around { OnOk result ((g : Grid) (k : ℕ) (busy : List ℕ) → g.extent ≡ self.old.extent → IsSettled g self.old cell → AreLaid g surface.now self.old k busy → IsPassed g surface.now self.new k busy cell) }
    {
        let shape = self.shape();
        let _cells = shape.cells();
        let place = shape.index(cell);
        let level = surface.level_at(place);
        let rank = self.rank_at(place).saturating_add(1);
        self.walk(surface, shape, cell, level, rank)?;
        Ok(())
    }

    /// Settles the neighbours of a cell that have this level and no way yet: their ranks are this one.
    #[inline(always)]
    fn walk<C: HeightList>(
        &mut self,
        surface: &Surface<C>,
        shape: Shape,
        cell: Cell,
        level: i64,
        rank: u32,
    ) -> Result<(), OutOfMemory>
        requires same { self.old.extent ≡ surface.now.extent }
        requires same_shape { shape ≡ self.old.extent }
        requires inside { IsCellOf self.old.extent cell }
        ensures extent { self.new.extent ≡ self.old.extent }
        ensures work { OnOk result (IsLessWalk self.old self.new) }
        ensures around { OnOk result ((g : Grid) (k : ℕ) (busy : List ℕ) → g.extent ≡ self.old.extent → level ≡ con_at g.extent surface.now cell → IsWalked g surface.now self.old k busy cell rank 0 → IsPassed g surface.now self.new k busy cell) }
    {
        if is_inner(shape, cell) {
            self.walk_inside(surface, shape, cell, level, rank)
        } else {
            self.walk_at_edge(surface, shape, cell, level, rank)
        }
    }

    /// The same for a cell that isn't on the edge of the grid.
    #[inline(always)]
    fn walk_inside<C: HeightList>(
        &mut self,
        surface: &Surface<C>,
        shape: Shape,
        cell: Cell,
        level: i64,
        rank: u32,
    ) -> Result<(), OutOfMemory>
        requires same { self.old.extent ≡ surface.now.extent }
        requires same_shape { shape ≡ self.old.extent }
        requires inside { IsCellOf self.old.extent cell }
        requires inner { IsInnerPlace self.old.extent cell }
        ensures extent { self.new.extent ≡ self.old.extent }
        ensures work { OnOk result (IsLessWalk self.old self.new) }
        ensures around { OnOk result ((g : Grid) (k : ℕ) (busy : List ℕ) → g.extent ≡ self.old.extent → level ≡ con_at g.extent surface.now cell → IsWalked g surface.now self.old k busy cell rank 0 → IsPassed g surface.now self.new k busy cell) }
    {
        self.turn(surface, shape, cell, Direction::East, level, rank)?;
        self.turn(surface, shape, cell, Direction::SouthEast, level, rank)?;
        self.turn(surface, shape, cell, Direction::South, level, rank)?;
        self.turn(surface, shape, cell, Direction::SouthWest, level, rank)?;
        self.turn(surface, shape, cell, Direction::West, level, rank)?;
        self.turn(surface, shape, cell, Direction::NorthWest, level, rank)?;
        self.turn(surface, shape, cell, Direction::North, level, rank)?;
        self.turn(surface, shape, cell, Direction::NorthEast, level, rank)?;
        Ok(())
    }

    /// Goes one direction more from such a cell.
    #[inline(always)]
    fn turn<C: HeightList>(
        &mut self,
        surface: &Surface<C>,
        shape: Shape,
        cell: Cell,
        direction: Direction,
        level: i64,
        rank: u32,
    ) -> Result<(), OutOfMemory>
        requires same { self.old.extent ≡ surface.now.extent }
        requires same_shape { shape ≡ self.old.extent }
        requires inside { IsCellOf self.old.extent cell }
        requires inner { IsInnerPlace self.old.extent cell }
        ensures extent { self.new.extent ≡ self.old.extent }
        ensures work { OnOk result ((first : Laying) → IsLessWalk first self.old → IsLessWalk first self.new) }
        ensures around { OnOk result ((g : Grid) (k : ℕ) (busy : List ℕ) (i : ℕ) → g.extent ≡ self.old.extent → level ≡ con_at g.extent surface.now cell → direction ≡ get_or directions i East → IsWalked g surface.now self.old k busy cell rank i → IsWalked g surface.now self.new k busy cell rank (i + 1)) }
    {
        self.look(surface, shape, cell, true, direction, level, rank)?;
        Ok(())
    }

    /// The same as `walk_inside` for a cell anywhere.
    #[inline(never)]
    fn walk_at_edge<C: HeightList>(
        &mut self,
        surface: &Surface<C>,
        shape: Shape,
        cell: Cell,
        level: i64,
        rank: u32,
    ) -> Result<(), OutOfMemory>
        requires same { self.old.extent ≡ surface.now.extent }
        requires same_shape { shape ≡ self.old.extent }
        requires inside { IsCellOf self.old.extent cell }
        ensures extent { self.new.extent ≡ self.old.extent }
        ensures work { OnOk result (IsLessWalk self.old self.new) }
        ensures around { OnOk result ((g : Grid) (k : ℕ) (busy : List ℕ) → g.extent ≡ self.old.extent → level ≡ con_at g.extent surface.now cell → IsWalked g surface.now self.old k busy cell rank 0 → IsPassed g surface.now self.new k busy cell) }
    {
        for direction in Direction::ALL {
            self.look(surface, shape, cell, false, direction, level, rank)?;
        }
        Ok(())
    }

    /// Settles the neighbour in one direction, if it has this level and no way yet.
    #[inline(always)]
    fn look<C: HeightList>(
        &mut self,
        surface: &Surface<C>,
        shape: Shape,
        cell: Cell,
        inner: bool,
        direction: Direction,
        level: i64,
        rank: u32,
    ) -> Result<(), OutOfMemory>
        requires same { self.old.extent ≡ surface.now.extent }
        requires same_shape { shape ≡ self.old.extent }
        requires inside { IsCellOf self.old.extent cell }
        requires inner { IsTrue inner → IsInnerPlace self.old.extent cell }
        ensures extent { self.new.extent ≡ self.old.extent }
        ensures look { OnOk result (IsWalk self.old.extent surface.now self.old self.new cell direction level rank) }
    {
        match self.fresh(surface, shape, cell, inner, direction, level) {
            Some(next) => {
                self.settle(next, code(direction.opposite()), rank)?;
                Ok(())
            }
            None => Ok(()),
        }
    }

    /// The place of the neighbour in a direction, if it has no way and is at the level.
    #[inline(always)]
    fn fresh<C: HeightList>(
        &self,
        surface: &Surface<C>,
        shape: Shape,
        cell: Cell,
        inner: bool,
        direction: Direction,
        level: i64,
    ) -> Option<usize>
        requires same { self.now.extent ≡ surface.now.extent }
        requires same_shape { shape ≡ self.now.extent }
        requires inside { IsCellOf self.now.extent cell }
        requires inner { IsTrue inner → IsInnerPlace self.now.extent cell }
        ensures below { IfSome result (λ place. place < self.now.extent.rows * self.now.extent.cols) }
        ensures fresh { MatchOption result ((n : Cell) → IsFlatAt self.now.extent surface.now self.now cell direction level n → ⊥) (IsFlatPlace self.now.extent surface.now self.now cell direction level) }
    {
        match beside(shape, cell, inner, direction) {
            Some(next) => {
                if self.way_at(next) == REACHED {
                    if surface.level_at(next) == level {
                        Some(next)
                    } else {
                        None
                    }
                } else {
                    None
                }
            }
            None => None,
        }
    }
}
