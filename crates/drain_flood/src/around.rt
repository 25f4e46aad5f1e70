//! Looking at the eight neighbours of a cell of a flood.
//!
//! Most of the time of a flood goes here. Data cells on the edge of the grid are open, so the mark of any other reached
//! cell tells that it isn't there. Around such a cell eight marks are compared first, without a jump: most often none of
//! them is unreached. Else the eight directions are written out, so each neighbour's place is a sum of numbers that are
//! known beforehand, and no side is tested.

ghost use Rattle.std.specs.Prelude.{◌≡◌, ◌↔◌, ◌+◌, ◌*◌, ◌<◌};
ghost use Rattle.drain_flood.specs.Names.{ℕ, ℤ, List, Option, IfOk, OnOk, IsTrue, get_or, Cell, Direction, East, directions, IsCellOf, index_of, Grid, Surface};
ghost use Rattle.drain_flood.specs.Floods.{Flooding};
ghost use Rattle.drain_flood.specs.Looks.{IsAround, IsFreshAt, IsInnerAt, IsLook, IsLookedAround, IsLookedBefore, IsPlaceBeside, LooksAround};
ghost use Rattle.drain_flood.specs.Turns.{IsLessWork};

use crate::flood::Flood;
use crate::heights::Heights;
use crate::places::{beside, beside_inner};
use drain_grid::{Cell, Direction, OutOfMemory, Shape};

impl<H: Heights> Flood<H> {
    /// Reaches the unreached neighbours of the cell at a place; lower ones only if it raises them. Returns whether a lower
    /// one was left.
    pub(crate) fn look_around(
        &mut self,
        place: usize,
        level: i64,
        raises: bool,
    ) -> Result<bool, OutOfMemory>
        requires below { place < self.old.extent.rows * self.old.extent.cols }
        requires holds { H.holds level }
        ensures extent { self.new.extent ≡ self.old.extent }
        ensures work { OnOk result (IsLessWork self.old self.new) }
        ensures around { IfOk result (LooksAround self.old.extent self.old self.new place level raises) }
    {
        if self.is_inner(place) {
            self.look_inside(place, level, raises)
        } else {
            self.look_at_edge(self.shape().cell(place), level, raises)
        }
    }

    /// The same for a cell that isn't on the edge of the grid.
    #[inline(always)]
    fn look_inside(&mut self, place: usize, level: i64, raises: bool) -> Result<bool, OutOfMemory>
        requires inner { IsInnerAt self.old.extent place }
        requires holds { H.holds level }
        ensures extent { self.new.extent ≡ self.old.extent }
        ensures work { OnOk result (IsLessWork self.old self.new) }
        ensures around { IfOk result (LooksAround self.old.extent self.old self.new place level raises) }
    {
        if self.has_fresh_beside(place) {
            self.look_each_way(place, level, raises)
        } else {
            Ok(false)
        }
    }

    /// Whether a neighbour of such a cell isn't reached.
    #[inline(always)]
    fn has_fresh_beside(&self, place: usize) -> bool
        requires { IsInnerAt self.now.extent place }
        ensures { (c : Cell) → IsCellOf self.now.extent c → place ≡ index_of self.now.extent c → (IsTrue result ↔ ((d : Direction) × ((n : Cell) × IsFreshAt self.now.extent self.now c d n))) }
    {
        let shape = self.shape();
        let east = self.is_fresh(shape, place, Direction::East);
        let south_east = self.is_fresh(shape, place, Direction::SouthEast);
        let south = self.is_fresh(shape, place, Direction::South);
        let south_west = self.is_fresh(shape, place, Direction::SouthWest);
        let west = self.is_fresh(shape, place, Direction::West);
        let north_west = self.is_fresh(shape, place, Direction::NorthWest);
        let north = self.is_fresh(shape, place, Direction::North);
        let north_east = self.is_fresh(shape, place, Direction::NorthEast);
        east | south_east | south | south_west | west | north_west | north | north_east
    }

    /// Whether the neighbour in one direction isn't reached.
    #[inline(always)]
    fn is_fresh(&self, shape: Shape, place: usize, direction: Direction) -> bool
        requires same { shape ≡ self.now.extent }
        requires inner { IsInnerAt self.now.extent place }
        ensures { (c : Cell) → IsCellOf self.now.extent c → place ≡ index_of self.now.extent c → (IsTrue result ↔ ((n : Cell) × IsFreshAt self.now.extent self.now c direction n)) }
    {
        self.is_unreached(beside_inner(shape, place, direction))
    }

    /// Looks in all directions from such a cell, one after the other. Apart, so that the test before it is short.
    #[inline(never)]
    fn look_each_way(&mut self, place: usize, level: i64, raises: bool) -> Result<bool, OutOfMemory>
        requires inner { IsInnerAt self.old.extent place }
        requires holds { H.holds level }
        ensures extent { self.new.extent ≡ self.old.extent }
        ensures work { OnOk result (IsLessWork self.old self.new) }
        ensures around { IfOk result (LooksAround self.old.extent self.old self.new place level raises) }
    {
        let shape = self.shape();
        let east = self.turn(shape, place, Direction::East, level, raises, false)?;
        let south_east = self.turn(shape, place, Direction::SouthEast, level, raises, east)?;
        let south = self.turn(shape, place, Direction::South, level, raises, south_east)?;
        let south_west = self.turn(shape, place, Direction::SouthWest, level, raises, south)?;
        let west = self.turn(shape, place, Direction::West, level, raises, south_west)?;
        let north_west = self.turn(shape, place, Direction::NorthWest, level, raises, west)?;
        let north = self.turn(shape, place, Direction::North, level, raises, north_west)?;
        let north_east = self.turn(shape, place, Direction::NorthEast, level, raises, north)?;
        Ok(north_east)
    }

    /// Looks in one direction more from such a cell. Returns whether a lower neighbour was left so far.
    #[inline(always)]
    fn turn(
        &mut self,
        shape: Shape,
        place: usize,
        direction: Direction,
        level: i64,
        raises: bool,
        left: bool,
    ) -> Result<bool, OutOfMemory>
        requires same { shape ≡ self.old.extent }
        requires inner { IsInnerAt self.old.extent place }
        requires holds { H.holds level }
        ensures extent { self.new.extent ≡ self.old.extent }
        ensures work { OnOk result ((first : Flooding) → IsLessWork first self.old → IsLessWork first self.new) }
        ensures around { IfOk result (λ after. (g : Grid) (first : Surface) (stand : Option ℤ) (busy : List ℕ) (k : ℕ) (c : Cell) → g.extent ≡ self.old.extent → place ≡ index_of g.extent c → direction ≡ get_or directions k East → IsAround g first self.old stand busy c level raises left k → IsAround g first self.new stand busy c level raises after (k + 1)) }
    {
        let next = beside_inner(shape, place, direction);
        let more = self.look_at(next, level, raises)?;
        Ok(left || more)
    }

    /// Looks around a cell anywhere.
    #[inline(never)]
    fn look_at_edge(&mut self, cell: Cell, level: i64, raises: bool) -> Result<bool, OutOfMemory>
        requires inside { IsCellOf self.old.extent cell }
        requires holds { H.holds level }
        ensures extent { self.new.extent ≡ self.old.extent }
        ensures work { OnOk result (IsLessWork self.old self.new) }
        ensures around { IfOk result (λ left. (g : Grid) (first : Surface) (stand : Option ℤ) (busy : List ℕ) → g.extent ≡ self.old.extent → IsLookedBefore g first self.old stand busy cell level raises → IsLookedAround g first self.new stand busy cell level raises left) }
    {
        let mut left = false;
        for direction in Direction::ALL {
            let more = self.look(cell, direction, level, raises)?;
            left = left || more;
        }
        Ok(left)
    }

    /// Looks in one direction from such a cell.
    fn look(
        &mut self,
        cell: Cell,
        direction: Direction,
        level: i64,
        raises: bool,
    ) -> Result<bool, OutOfMemory>
        requires inside { IsCellOf self.old.extent cell }
        requires holds { H.holds level }
        ensures extent { self.new.extent ≡ self.old.extent }
        ensures look { IfOk result (IsLook self.old.extent self.old self.new cell direction level raises) }
    {
        match beside(self.shape(), cell, false, direction) {
            Some(next) => self.look_at(next, level, raises),
            None => Ok(false),
        }
    }

    /// Reaches the neighbour at a place, if it isn't reached; a lower one only if the cell raises it. Returns whether a
    /// lower one was left.
    #[inline(always)]
    fn look_at(&mut self, next: usize, level: i64, raises: bool) -> Result<bool, OutOfMemory>
        requires below { next < self.old.extent.rows * self.old.extent.cols }
        requires holds { H.holds level }
        ensures extent { self.new.extent ≡ self.old.extent }
        ensures look { IfOk result (λ left. (c : Cell) (d : Direction) → IsPlaceBeside self.old.extent c d next → IsLook self.old.extent self.old self.new c d level raises left) }
    {
        if !self.is_unreached(next) {
            return Ok(false);
        }
        let ground = self.level_at(next);
        if ground < level && !raises {
            return Ok(true);
        }
        self.reach(next, ground.max(level))?;
        Ok(false)
    }
}
