//! Ways along flats, from their low edges inwards: each cell's leads to a neighbour of equal height, nearer to a low
//! edge.
//!
//! Low edges are outlets and cells with a lower neighbour; their rank is 0. Any other rank counts steps along the flat.
//! Time is linear in the cells.
//!
//! Source: ways along flats from their low edges (Garbrecht and Martz 1997; Barnes, Lehman and Mulla 2014b).

ghost use Rattle.std.specs.Prelude.{◌≡◌, ◌≢◌, ◌+◌, ◌*◌, ◌<◌};
ghost use Rattle.drain_flood.specs.Names.{ℕ, List, [], MatchOption, IfSome, IfOk, OnOk, IsTrue, length, slice_index_or, Cell, Direction, IsCellOf, index_of, Grid};
ghost use Rattle.drain_flood.specs.Floods.{IsSurfaceOf, con_at};
ghost use Rattle.drain_flood.specs.Flats.{first_rank, AreFirstRanks, Laying, way_at, rank_at, wayless, IsSettled, AreLaid, Settles, AreWaysOnFlats};
ghost use Rattle.drain_flood.specs.Ways.{AreFirstCodes};
ghost use Rattle.drain_flood.specs.Walks.{IsFlatAt, IsFlatPlace, IsLowEdgeAt, IsLowEdgeThere, IsWalk, IsPassed, IsLessWalk, IsNextPlace, IsDonePlaces};

use crate::heights::HeightList;
use crate::layers::{NO_RANK, REACHED, VOID, no_places, room_for_ranks};
use crate::places::cell_at;
use crate::surface::Surface;
use crate::ways::code;
use drain_grid::{Cell, Direction, OutOfMemory, Shape};
use std::alloc::Global;
use std::marker::Model;

/// Codes and ranks while flats get their ways.
#[derive(Drop)]
pub struct Flats {
    shape: Shape,
    /// For the cells of places.
    inverse: u64,
    way: Vec<u8>,
    rnk: Vec<u32>,
    /// Places of cells that got their way along a flat; the neighbours of those from the head on are to be looked at.
    trail: Vec<u32>,
    head: usize,
}

impl Model for Flats {
    ghost use Rattle.std.specs.Prelude.{drop};
    ghost use Rattle.drain_flood.specs.Flats.{Laying};
    ghost use Rattle.drain_flood.specs.Walks.{AreLaidOut};

    ghost Value = { Laying };

    ghost view = { λ f. record { extent = f.shape; way = f.way.items; rnk = f.rnk.items; ahead = drop f.head f.trail.items } };

    ghost invariant = { λ f. AreLaidOut f.shape f.way.items f.rnk.items f.trail.items f.head };
}

/// The way and the rank of each cell of a filled surface, whose codes of ways down and of outlets are given in row order.
pub fn ways_on_flats<C: HeightList>(
    alloc: Global,
    surface: &Surface<C>,
    codes: Vec<u8>,
) -> Result<Flats, OutOfMemory>
    requires counted { length codes.items ≡ surface.now.extent.rows * surface.now.extent.cols }
    ensures extent { IfOk result (λ flats. flats.extent ≡ surface.now.extent) }
    ensures ways { IfOk result (λ flats. (g : Grid) → g.extent ≡ surface.now.extent → IsSurfaceOf g surface.now → AreFirstCodes g surface.now codes.items → AreWaysOnFlats g surface.now flats) }
{
    let mut flats = Flats::start(alloc, surface, codes)?;
    flats.find_low_edges(surface)?;
    flats.spread(surface)?;
    Ok(flats)
}

/// The code and the rank of each cell, in row order.
#[derive(Drop)]
pub struct CodesAndRanks {
    pub way: Vec<u8>,
    pub rnk: Vec<u32>,
}

impl Flats {
    /// Returns codes and ranks in row order, and frees the rest.
    pub fn into_codes_and_ranks(self) -> CodesAndRanks
        ensures way { result.way.items ≡ self.way }
        ensures rnk { result.rnk.items ≡ self.rnk }
    {
        CodesAndRanks {
            way: self.way,
            rnk: self.rnk,
        }
    }

    /// The codes of ways down and of outlets; cells of flats have none yet.
    fn start<C: HeightList>(
        alloc: Global,
        surface: &Surface<C>,
        way: Vec<u8>,
    ) -> Result<Flats, OutOfMemory>
        requires counted { length way.items ≡ surface.now.extent.rows * surface.now.extent.cols }
        ensures extent { IfOk result (λ flats. flats.extent ≡ surface.now.extent) }
        ensures laid { IfOk result (λ flats. (g : Grid) → g.extent ≡ surface.now.extent → IsSurfaceOf g surface.now → AreFirstCodes g surface.now way.items → AreLaid g surface.now flats 0 []) }
    {
        let shape = surface.shape();
        let _cells = shape.cells();
        let rnk = first_ranks(alloc, way.as_slice())?;
        let trail = no_places(alloc)?;
        Ok(Flats {
            shape,
            inverse: surface.inverse(),
            way,
            rnk,
            trail,
            head: 0,
        })
    }

    /// Settles the cells of flats next to low edges: each gets its way.
    fn find_low_edges<C: HeightList>(&mut self, surface: &Surface<C>) -> Result<(), OutOfMemory>
        requires same { self.old.extent ≡ surface.now.extent }
        ensures extent { self.new.extent ≡ self.old.extent }
        ensures laid { OnOk result ((g : Grid) → g.extent ≡ self.old.extent → AreLaid g surface.now self.old 0 [] → AreLaid g surface.now self.new (self.old.extent.rows * self.old.extent.cols) []) }
    {
        for place in 0..self.shape.cells() {
            self.look_for(surface, place)?;
        }
        Ok(())
    }

    /// Settles the cell at a place, if it has no way and is next to a low edge.
    fn look_for<C: HeightList>(
        &mut self,
        surface: &Surface<C>,
        place: usize,
    ) -> Result<(), OutOfMemory>
        requires same { self.old.extent ≡ surface.now.extent }
        requires below { place < self.old.extent.rows * self.old.extent.cols }
        ensures extent { self.new.extent ≡ self.old.extent }
        ensures laid { OnOk result ((g : Grid) → g.extent ≡ self.old.extent → AreLaid g surface.now self.old place [] → AreLaid g surface.now self.new (place + 1) []) }
    {
        if self.way_at(place) != REACHED {
            return Ok(());
        }
        let cell = cell_at(self.shape, self.inverse, place);
        match self.low_edge(surface, cell, surface.level_at(place)) {
            Some(direction) => {
                self.settle(place, code(direction), 1)?;
                Ok(())
            }
            None => Ok(()),
        }
    }

    /// Walks inwards from the cells of the trail.
    fn spread<C: HeightList>(&mut self, surface: &Surface<C>) -> Result<(), OutOfMemory>
        requires same { self.old.extent ≡ surface.now.extent }
        ensures extent { self.new.extent ≡ self.old.extent }
        ensures ways { OnOk result ((g : Grid) → g.extent ≡ self.old.extent → IsSurfaceOf g surface.now → AreLaid g surface.now self.old (self.old.extent.rows * self.old.extent.cols) [] → AreWaysOnFlats g surface.now self.new) }
    {
        while let Some(cell) = self.next() {
            self.look_around(surface, cell)?;
        }
        Ok(())
    }

    /// The rows and columns of the grid.
    pub(crate) fn shape(&self) -> Shape
        ensures { result ≡ self.now.extent }
    {
        self.shape
    }

    /// The code of the cell at a place.
    #[inline(always)]
    pub(crate) fn way_at(&self, place: usize) -> u8
        requires { place < self.now.extent.rows * self.now.extent.cols }
        ensures { result ≡ slice_index_or self.now.way place 0 }
    {
        self.way[place]
    }

    /// The rank of the cell at a place.
    #[inline(always)]
    pub(crate) fn rank_at(&self, place: usize) -> u32
        requires { place < self.now.extent.rows * self.now.extent.cols }
        ensures { result ≡ slice_index_or self.now.rnk place 0 }
    {
        self.rnk[place]
    }

    /// Settles the cell at a place, and puts it at the end of the trail.
    #[inline(always)]
    pub(crate) fn settle(&mut self, place: usize, code: u8, rank: u32) -> Result<(), OutOfMemory>
        requires below { place < self.old.extent.rows * self.old.extent.cols }
        requires flat { slice_index_or self.old.way place 0 ≡ REACHED }
        requires coded { code ≢ REACHED }
        ensures extent { self.new.extent ≡ self.old.extent }
        ensures settles { OnOk result ((n : Cell) → IsCellOf self.old.extent n → place ≡ index_of self.old.extent n → Settles self.old.extent self.old self.new n code rank) }
    {
        self.way[place] = code;
        self.rnk[place] = rank;
        match self.trail.push(place as u32) {
            Ok(()) => Ok(()),
            Err(_) => Err(OutOfMemory),
        }
    }

    /// Takes the next cell of the trail.
    fn next(&mut self) -> Option<Cell>
        ensures extent { self.new.extent ≡ self.old.extent }
        ensures next { MatchOption result (IsDonePlaces self.old self.new) (IsNextPlace self.old self.new) }
    {
        if self.head < self.trail.len() {
            let place = self.trail[self.head];
            self.head += 1;
            Some(cell_at(self.shape, self.inverse, place as usize))
        } else {
            self.trail.clear();
            self.head = 0;
            None
        }
    }
}

/// The first rank of each cell, by its code.
fn first_ranks(alloc: Global, way: &[u8]) -> Result<Vec<u32>, OutOfMemory>
    ensures counted { IfOk result (λ ranks. length ranks.items ≡ length way.now) }
    ensures ranks { IfOk result (λ ranks. AreFirstRanks way.now ranks.items) }
{
    let mut ranks = room_for_ranks(alloc, way.len())?;
    for place in 0..way.len() {
        ranks.push(first_rank(way[place]))?;
    }
    Ok(ranks)
}

/// The first rank of a cell with this code.
fn first_rank(way: u8) -> u32
    ensures { result ≡ first_rank way }
{
    if way == VOID { NO_RANK } else { 0 }
}
