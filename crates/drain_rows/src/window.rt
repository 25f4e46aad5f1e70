//! A window of three rows that moves down the rows of a grid.

ghost use Rattle.std.specs.Prelude.{◌≡◌, ◌||◌};
ghost use Rattle.drain_rows.specs.Names.{[], length, None, IfErr, OnOk, Cell, AreRowNumbers, blank, is_among, spacing_of};
ghost use Rattle.drain_rows.specs.GridRows.{IsNext, IsWalkStop, ReadsOn, is_listed_void};
ghost use Rattle.drain_rows.specs.RowBuffers.{LanesMatch, IsMarked, marked_of, buffer_numbers};

use crate::grid_rows::GridRows;
use crate::listed_voids::ListedVoids;
use crate::row_buffer::RowBuffer;
use crate::row_visitor::WalkStop;
use drain_grid::{Judged, OutOfMemory, Sinks, Spacings};
use drain_rules::ThreeRows;
use std::alloc::Global;
use std::mem::swap;

/// Reads the next row, with this number, marks its listed sinks, notes those that are voids, takes how far apart its cells
/// are, and fills its lanes for rules about these rasters, of 32 bits if `wide` says so. It stops if the source does, or, where there are sinks, if memory runs out.
pub fn read_marked<T, P, S: GridRows<T, P>>(
    source: &mut S,
    tiles: &mut [T],
    products: &mut P,
    row: u32,
    sinks: &Sinks,
    spacings: &Spacings,
    judged: Judged,
    wide: bool,
    held: &mut RowBuffer,
    voids: &mut ListedVoids,
) -> Result<(), WalkStop<S::Stop>>
    requires counted { length tiles.old ≡ S.count source.old }
    ensures counted { S.count source.new ≡ S.count source.old }
    ensures as_many { length tiles.new ≡ length tiles.old }
    ensures next { OnOk result (IsNext (S.gives (source.old, tiles.old, products.old)) (S.gives (source.new, tiles.new, products.new)) (buffer_numbers held.new)) }
    ensures whole { OnOk result (AreRowNumbers (buffer_numbers held.new)) }
    ensures marked { OnOk result (IsMarked sinks.now (spacing_of spacings.now) row (marked_of held.new)) }
    ensures lanes { OnOk result (LanesMatch held.new) }
    ensures noted { OnOk result ((c : Cell) → is_among voids.new c ≡ (is_among voids.old c || is_listed_void row (buffer_numbers held.new).z held.new.sinks.items c)) }
    ensures reads { OnOk result (ReadsOn S.has_read (source.old, tiles.old, products.old) (source.new, tiles.new, products.new) 1 None) }
    ensures stops { IfErr result (IsWalkStop S.has_read (source.old, tiles.old, products.old) (source.new, tiles.new, products.new) 1 (¬ (sinks.now ≡ []))) }
{
    match source.read_row(tiles, products, held) {
        Ok(()) => (),
        Err(stop) => return Err(WalkStop::Source(stop)),
    }
    match held.mark(row, sinks, spacings, voids) {
        Ok(()) => {
            held.take_lanes(judged, wide);
            Ok(())
        }
        Err(OutOfMemory) => Err(WalkStop::OutOfMemory),
    }
}

/// A row, and those above and below it. The one below is there to be read into.
#[derive(Drop)]
pub struct Window {
    pub above: RowBuffer,
    pub here: RowBuffer,
    pub below: RowBuffer,
}

impl Window {
    /// No rows. This needs no memory.
    pub fn new(alloc: Global) -> Window
        ensures above { buffer_numbers result.above ≡ blank }
        ensures here { buffer_numbers result.here ≡ blank }
        ensures here_lanes { LanesMatch result.here }
    {
        Window {
            above: RowBuffer::new(alloc),
            here: RowBuffer::new(alloc),
            below: RowBuffer::new(alloc),
        }
    }

    /// Moves the window one row down. The lower row is then only memory to read into.
    pub fn turn(&mut self)
        ensures above { self.new.above ≡ self.old.here }
        ensures here { self.new.here ≡ self.old.below }
    {
        swap(&mut self.above, &mut self.here);
        swap(&mut self.here, &mut self.below);
    }

    /// The rows as slices.
    pub fn rows(&self) -> ThreeRows<'_>
        requires above { AreRowNumbers (buffer_numbers self.now.above) }
        requires here { AreRowNumbers (buffer_numbers self.now.here) }
        requires below { AreRowNumbers (buffer_numbers self.now.below) }
        requires above_lanes { LanesMatch self.now.above }
        requires here_lanes { LanesMatch self.now.here }
        requires below_lanes { LanesMatch self.now.below }
        ensures above { result.above ≡ marked_of self.now.above }
        ensures here { result.here ≡ marked_of self.now.here }
        ensures below { result.below ≡ marked_of self.now.below }
    {
        ThreeRows {
            above: self.above.view(),
            here: self.here.view(),
            below: self.below.view(),
        }
    }
}
