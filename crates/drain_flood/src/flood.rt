//! The filled surface: a flood from the open cells inwards, by traces.
//!
//! A trace reaches every cell that it can reach without going down, each at its own height. The first starts at all
//! open cells, so on whole slopes no cell waits. A cell with an unreached lower neighbour waits at its height. Waiting
//! cells are taken lowest first, in any order within a level, and their unreached neighbours are raised to their level,
//! which is the lowest way out. So a cell's height when it is reached is its conditioned elevation. The order of the
//! cells of a trace doesn't matter. For heights of 16 bits time is linear in the cells.
//!
//! It may begin at any surface between the ground and the filled one: the nearer it is, the less has to be raised.
//!
//! Source: Priority-Flood (Barnes, Lehman and Mulla 2014), with traces as in Zhou, Sun and Fu (2016); that it may begin
//! at any such surface is this project's own.

ghost use Rattle.std.specs.Prelude.{◌≡◌, ◌+◌, ◌*◌, ◌<◌};
ghost use Rattle.drain_flood.specs.Names.{ℕ, pos, [], Some, None, MatchOption, IfSome, IfOk, OnOk, IsTrue, length, slice_index_or, Distances, spaced_grid, IsFilled, Cell, IsCellOf, index_of, Grid};
ghost use Rattle.drain_flood.specs.Floods.{Flooding, HasFirstMarks, IsBetween, IsFilledFrom, IsFloodOf, IsFlooded, Reaches, con_at, listed_at, unreached};
ghost use Rattle.drain_flood.specs.Looks.{IsInnerAt};
ghost use Rattle.drain_flood.specs.Turns.{IsNextTurn, IsDone, IsPopped, IsEmptied, IsLeftWaiting};

use crate::heights::Heights;
use crate::laws::flood_is_filled;
use crate::layers::{REACHED, UNREACHED, copied};
use crate::open_cells::{first_marks, grounds, open_places};
use crate::surface::Surface;
use crate::tracing::spread;
use drain_grid::{Cell, Elevation, OutOfMemory, Shape, Sinks};
use std::alloc::Global;
use std::marker::Model;

/// A flood under way.
#[derive(Drop)]
pub struct Flood<H: Heights> {
    shape: Shape,
    con: H,
    mark: Vec<u8>,
    /// Places of reached cells whose neighbours haven't been looked at yet: the one reached last comes first.
    trail: Vec<u32>,
    waiting: H::Waiting,
}

impl<H: Heights> Model for Flood<H> {
    ghost use Rattle.drain_flood.specs.Floods.{Flooding};
    ghost use Rattle.drain_flood.specs.Turns.{AreTogether};

    ghost Value = { Flooding };

    ghost view = { λ f. record { extent = f.shape; con = H.numbers f.con; mark = f.mark.items; ahead = f.trail.items; waiting = H.pairs f.waiting } };

    ghost invariant = { λ f. AreTogether f.shape (H.numbers f.con) f.mark.items f.trail.items (H.pairs f.waiting) };
}

/// The filled surface: raises each data cell to the lowest level from which water can leave. How far apart cells are
/// plays no part.
pub fn fill(
    alloc: Global,
    elevation: &Elevation,
    sinks: &Sinks,
) -> Result<Flood<Vec<i16>>, OutOfMemory>
    ensures extent { IfOk result (λ flood. flood.extent ≡ elevation.now.extent) }
    ensures flooded { IfOk result (λ flood. (spacing : ℕ → Distances) → IsFlooded (spaced_grid spacing elevation.now sinks.now) flood) }

    // These levels are the spill level of each data cell, and the least surface that covers the ground and drains.
    ensures filled { IfOk result (λ flood. (spacing : ℕ → Distances) → IsFilled (spaced_grid spacing elevation.now sinks.now) (con_at elevation.now.extent flood)) }
{
    // The law that a flooded grid is filled.
    flood_is_filled();
    let con = grounds(alloc, elevation)?;
    let mark = first_marks(alloc, elevation, con.as_slice(), sinks)?;
    fill_heights(alloc, elevation.shape(), con, mark)
}

/// The same from heights and first marks, one for each cell in row order: of each grid with these marks, if the heights lie
/// between its ground and its filled surface. At voids the heights stay.
pub fn fill_heights<H: Heights>(
    alloc: Global,
    shape: Shape,
    heights: H,
    marks: Vec<u8>,
) -> Result<Flood<H>, OutOfMemory>
    requires counted { length (H.numbers heights) ≡ shape.rows * shape.cols }
    requires marks_counted { length marks.items ≡ shape.rows * shape.cols }
    requires marked { (g : Grid) × HasFirstMarks g shape marks.items }
    ensures extent { IfOk result (λ flood. flood.extent ≡ shape) }
    ensures filled { IfOk result (λ flood. (g : Grid) → HasFirstMarks g shape marks.items → IsBetween g (listed_at shape (H.numbers heights)) → IsFilledFrom g (listed_at shape (H.numbers heights)) flood) }
{
    let mut flood = Flood::start(alloc, shape, heights, marks)?;
    spread(&mut flood, alloc)?;
    Ok(flood)
}

impl Flood<Vec<i16>> {
    /// The surface, without what only the flood needs, which is freed. Its heights are copied into memory of just their
    /// size: where the elevations were, if these are freed before.
    pub fn into_surface(self, alloc: Global) -> Result<Surface<Vec<i16>>, OutOfMemory>
        ensures extent { IfOk result (λ surface. surface.extent ≡ self.extent) }
        ensures flooded { IfOk result (λ surface. (g : Grid) → IsFlooded g self → IsFlooded g surface) }
    {
        let con = copied(alloc, &self.con)?;
        Ok(Surface::new(self.shape, con, self.mark))
    }
}

impl<H: Heights> Flood<H> {
    /// Returns the heights and the marks in row order, and frees the rest.
    pub fn into_parts(self) -> (H, Vec<u8>)
        ensures counted { length (H.numbers result.0) ≡ self.extent.rows * self.extent.cols }
        ensures heights { H.numbers result.0 ≡ self.con }
        ensures marks_counted { length result.1.items ≡ self.extent.rows * self.extent.cols }
        ensures marks { result.1.items ≡ self.mark }
    {
        (self.con, self.mark)
    }

    /// A flood that stands at no level: the open cells are reached, each at its height, and are on the trail.
    #[inline(never)]
    fn start(alloc: Global, shape: Shape, con: H, mark: Vec<u8>) -> Result<Flood<H>, OutOfMemory>
        requires counted { length (H.numbers con) ≡ shape.rows * shape.cols }
        requires marks_counted { length mark.items ≡ shape.rows * shape.cols }
        requires marked { (g : Grid) × HasFirstMarks g shape mark.items }
        ensures extent { IfOk result (λ flood. flood.extent ≡ shape) }
        ensures laid { IfOk result (λ flood. (g : Grid) → HasFirstMarks g shape mark.items → IsBetween g (listed_at shape (H.numbers con)) → IsFloodOf g (listed_at shape (H.numbers con)) flood None []) }
    {
        let _cells = shape.cells();
        let waiting = H::none_waiting(alloc)?;
        let trail = open_places(alloc, mark.as_slice())?;
        Ok(Flood {
            shape,
            con,
            mark,
            trail,
            waiting,
        })
    }

    /// The height of the cell at a place.
    #[inline(always)]
    pub(crate) fn level_at(&self, place: usize) -> i64
        requires { place < self.now.extent.rows * self.now.extent.cols }
        ensures level { result ≡ slice_index_or self.now.con place (pos 0) }
        ensures holds { H.holds result }
    {
        self.con.at(place)
    }

    /// The rows and columns of the grid.
    pub fn shape(&self) -> Shape
        ensures { result ≡ self.now.extent }
    {
        self.shape
    }

    /// Whether the cell at a place is a data cell that isn't reached.
    #[inline(always)]
    pub(crate) fn is_unreached(&self, place: usize) -> bool
        requires { place < self.now.extent.rows * self.now.extent.cols }
        ensures yes { IsTrue result → slice_index_or self.now.mark place 0 ≡ UNREACHED }
        ensures no { slice_index_or self.now.mark place 0 ≡ UNREACHED → IsTrue result }
    {
        self.mark[place] == UNREACHED
    }

    /// Whether the cell at a place is reached and isn't open: then it isn't on the edge of the grid.
    #[inline(always)]
    pub(crate) fn is_inner(&self, place: usize) -> bool
        requires { place < self.now.extent.rows * self.now.extent.cols }
        ensures { IsTrue result → IsInnerAt self.now.extent place }
    {
        self.mark[place] == REACHED
    }

    /// Reaches the cell at a place, and puts it at the end of the trail.
    #[inline(always)]
    pub(crate) fn reach(&mut self, place: usize, height: i64) -> Result<(), OutOfMemory>
        requires below { place < self.old.extent.rows * self.old.extent.cols }
        requires fresh { slice_index_or self.old.mark place 0 ≡ UNREACHED }
        requires holds { H.holds height }
        ensures extent { self.new.extent ≡ self.old.extent }
        ensures reaches { OnOk result ((n : Cell) → IsCellOf self.old.extent n → place ≡ index_of self.old.extent n → Reaches self.old.extent self.old self.new n height) }
    {
        self.con.put(place, height);
        self.mark[place] = REACHED;
        match self.trail.push(place as u32) {
            Ok(()) => Ok(()),
            Err(_) => Err(OutOfMemory),
        }
    }

    /// Takes the place of the next cell of the trail.
    pub(crate) fn next(&mut self) -> Option<u32>
        ensures extent { self.new.extent ≡ self.old.extent }
        ensures below { IfSome result (λ place. place < self.old.extent.rows * self.old.extent.cols) }
        ensures next { MatchOption result (IsDone self.old self.new) (λ place. (c : Cell) × IsNextTurn self.old self.new c × (place ≡ index_of self.old.extent c)) }
    {
        let place = self.trail.pop()?;
        Some(place)
    }

    /// Takes the place of a waiting cell below which none waits, and its level.
    pub(crate) fn pop(&mut self) -> Option<(i64, u32)>
        ensures extent { self.new.extent ≡ self.old.extent }
        ensures holds { IfSome result (λ pair. H.holds pair.0) }
        ensures below { IfSome result (λ pair. pair.1 < self.old.extent.rows * self.old.extent.cols) }
        ensures popped { MatchOption result (IsEmptied self.old self.new) (λ pair. IsPopped self.old self.new pair.0 pair.1) }
    {
        H::pop(&mut self.waiting)
    }

    /// Makes the cell at a place wait at its level.
    pub(crate) fn wait(&mut self, place: u32, level: i64) -> Result<(), OutOfMemory>
        requires holds { H.holds level }
        requires below { place < self.old.extent.rows * self.old.extent.cols }
        ensures extent { self.new.extent ≡ self.old.extent }
        ensures waits { OnOk result (IsLeftWaiting self.old self.new level place) }
    {
        H::push(&mut self.waiting, level, place)
    }
}

/// Whether the flood stands at a level.
#[inline(always)]
pub(crate) fn is_at(stand: Option<i64>, level: i64) -> bool
    ensures { IsTrue result → stand ≡ Some level }
{
    match stand {
        Some(at) => at == level,
        None => false,
    }
}
