//! The rows of a mosaic, one at a time, from tiles that go on together.
//!
//! A row starts as voids, and the next row of each tile over it fills them; the row of an only tile is read as it is.
//! So only one row of the mosaic and one row of a tile are in memory, and each tile's device is read a row at a time.

ghost use Rattle.std.specs.Prelude.{◌≡◌, ◌≢◌, ◌≤◌, ◌<◌, ◌^◌};
ghost use Rattle.drain_mosaic.specs.Names.{[], None, length, IfOk, IfErr, IfSome, IsErrOf, MatchOption, Ok, OnOk, All, option_or, IsEmptyUnlessRow, IsLong, StaysEnded, Steps, progress_after, Progress, VOID, IsSample, names_of};
ghost use Rattle.drain_mosaic.specs.Streams.{cell_at};
ghost use Rattle.drain_mosaic.specs.PlacedRows.{AreTold, ArePlacedWithin, HaveEnded, HaveRead, IsPlacedAt, first_stopped};

use crate::layout::Layout;
use crate::one_row::read_row;
use crate::placed_rows::{PlacedRows, read_ends};
use drain_device::{ByteSource, Progress, ReadFault, RowStep};
use drain_grid::{Cell, OutOfMemory, Shape};
use drain_hgt::{TileInput, TileRows};
use std::alloc::Global;

/// A reader of a mosaic's rows, the northernmost first, each from west to east, in whole metres with -32768 for a void.
///
/// Where tiles differ a row holds the value of the tile listed first. A tile of wrong length doesn't end the mosaic:
/// it gives voids from its first row that isn't whole on, and after the last row `wrong_length` reports the first such
/// tile. So this reader never returns `WrongLength`.
#[derive(Drop)]
pub struct MosaicRows {
    side: u32,
    shape: Shape,
    row: u32,
    progress: Progress,
    tiles: Vec<PlacedRows>,
    tile_row: Vec<i64>,
    seam: Option<Cell>,
    ghost within: { ArePlacedWithin side shape.rows shape.cols tiles.items },
    ghost bounded: { row ≤ shape.rows },
    ghost at_row: { progress ≡ Progress.Going → All (IsPlacedAt side row) tiles.items },
    ghost ended: { progress ≡ Progress.Done → (row ≡ shape.rows) × HaveEnded tiles.items },
}

impl MosaicRows {
    ghost use Rattle.drain_mosaic.specs.GivenTiles.{IsBegun, IsToldAtEnd, coming_of, seam_to_tell, wrong_to_tell};

    /// The rows of the mosaic of these tiles, from the first byte of each on.
    pub fn new(alloc: Global, layout: &Layout) -> Result<MosaicRows, OutOfMemory>
        ensures begun { IfOk result (IsBegun layout.now) }
        ensures counted { IfOk result (λ rows. length rows.tiles.items ≡ length layout.now.corners) }
    {
        let side = layout.side();
        let mut tiles = Vec::new(alloc);
        for i in 0..layout.len() {
            let placed = PlacedRows {
                place: layout.place(i),
                rows: TileRows::new(side),
            };
            if tiles.push(placed).is_err() {
                return Err(OutOfMemory);
            }
        }
        Ok(MosaicRows {
            side,
            shape: layout.shape(),
            row: 0,
            progress: Progress::Going,
            tiles,
            tile_row: Vec::new(alloc),
            seam: None,
        })
    }

    /// The first cell in row order where tiles differ, of the rows that were given.
    pub fn seam(&self) -> Option<Cell>
        ensures { result ≡ self.now.seam }
    {
        self.seam
    }

    /// The first tile found to have a wrong length, counted from 0; none after a fault.
    pub fn wrong_length(&self) -> Option<usize>
        ensures stopped { self.now.progress ≡ Progress.Stopped → result ≡ None }
        ensures told { self.now.progress ≢ Progress.Stopped → result ≡ first_stopped 0 self.now.tiles.items }
        ensures of_a_tile { IfSome result (λ place. place < length self.now.tiles.items) }
    {
        if self.progress == Progress::Stopped {
            return None;
        }
        for i in 0..self.tiles.len() {
            if self.tiles[i].rows.is_stopped() {
                return Some(i);
            }
        }
        None
    }

    /// Reads the next row into the vector, which then holds only that row; or returns that none is left, with an empty
    /// vector.
    ///
    /// `from` has the tiles in the layout's order, the same at each call. After the last row every tile is read to its
    /// end, and `Ended` is returned. `ReadFailed` comes if a device fails for good, `OutOfMemory` if memory for a row
    /// runs out. After either every later call returns `AlreadyFailed`, and after `Ended` it returns `Ended`; these
    /// read nothing. Only a row that is given changes `seam`.
    pub fn next_row<R: ByteSource>(
        &mut self,
        from: &mut [TileInput<R>],
        out: &mut Vec<i64>,
    ) -> Result<RowStep, ReadFault>
        requires named { length from.old ≡ length self.old.tiles.items }

        // If the devices' bytes are known: a row is the next one of the mosaic, and the seam and the tile to report
        // stay.
        ensures rows { AreTold R.bytes_left from.old → Steps (coming_of R.bytes_left self.old from.old) result out.new.items (coming_of R.bytes_left self.new from.new) }
        ensures seam { AreTold R.bytes_left from.old → OnOk result (seam_to_tell R.bytes_left self.new from.new ≡ seam_to_tell R.bytes_left self.old from.old) }
        ensures wrong { AreTold R.bytes_left from.old → OnOk result (wrong_to_tell R.bytes_left self.new from.new ≡ wrong_to_tell R.bytes_left self.old from.old) }
        ensures at_end { result ≡ Ok RowStep.Ended → IsToldAtEnd R.bytes_left self.new from.new }

        // For any devices: a row has a sample for each column, and the end and a fault stay.
        ensures long { IsLong self.old.shape.cols result out.new.items }
        ensures samples { All IsSample out.new.items }
        ensures empty { IsEmptyUnlessRow result out.new.items }
        ensures stays { StaysEnded self.old.progress result }
        ensures already { IsErrOf result ReadFault.AlreadyFailed → self.old.progress ≡ Progress.Stopped }
        ensures after { self.new.progress ≡ progress_after result }
        ensures never { ¬ IsErrOf result ReadFault.WrongLength }

        // What is read of each tile, and that the read fails exactly if one of their devices fails for good.
        ensures read { HaveRead R.bytes_left R.counts self.old.tiles.items self.new.tiles.items from.old from.new (IsErrOf result ReadFault.ReadFailed) }
        ensures reads_nothing { self.old.progress ≢ Progress.Going → from.new ≡ from.old }

        // What stays.
        ensures names { names_of from.new ≡ names_of from.old }
        ensures keeps_seam { result ≢ Ok RowStep.Row → self.new.seam ≡ self.old.seam }
        ensures keeps_shape { self.new.shape ≡ self.old.shape }
        ensures keeps_tiles { length self.new.tiles.items ≡ length self.old.tiles.items }
    {
        match self.progress {
            Progress::Done => return no_row(out, Ok(RowStep::Ended)),
            Progress::Stopped => return no_row(out, Err(ReadFault::AlreadyFailed)),
            Progress::Going => {}
        }
        if self.row == self.shape.rows() {
            out.clear();
            return match read_ends(&mut self.tiles, from, &mut self.tile_row) {
                Ok(()) => {
                    self.progress = Progress::Done;
                    Ok(RowStep::Ended)
                }
                Err(fault) => {
                    self.progress = Progress::Stopped;
                    Err(fault)
                }
            };
        }
        match read_row(
            &mut self.tiles,
            from,
            self.side,
            self.row,
            self.shape.cols(),
            &mut self.tile_row,
            out,
        ) {
            Ok(found) => {
                self.seam = first_cell(self.seam, cell_at(self.row, found));
                self.row += 1;
                Ok(RowStep::Row)
            }
            Err(fault) => {
                out.clear();
                self.progress = Progress::Stopped;
                Err(fault)
            }
        }
    }
}

/// Leaves the vector empty, and returns the answer.
fn no_row(out: &mut Vec<i64>, answer: Result<RowStep, ReadFault>) -> Result<RowStep, ReadFault>
    ensures answer { result ≡ answer }
    ensures empty { out.new.items ≡ [] }
{
    out.clear();
    answer
}

/// The first cell if there is one, else the other.
fn first_cell(first: Option<Cell>, other: Option<Cell>) -> Option<Cell>
    ensures { result ≡ option_or first other }
{
    match first {
        Some(cell) => Some(cell),
        None => other,
    }
}

/// The cell of a row at the column that was found.
fn cell_at(row: u32, found: Option<usize>) -> Option<Cell>
    requires { MatchOption found (Unit {0}) (λ col. col < 2 ^ 32) }
    ensures { result ≡ cell_at row found }
{
    match found {
        Some(col) => Some(Cell {
            row,
            col: col as u32,
        }),
        None => None,
    }
}
