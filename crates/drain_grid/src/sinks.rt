//! Cells that a user lists as sinks: inland places where water may leave the grid.
//!
//! A check looks up each cell, so the list is kept twice: as its cells with their line numbers, for reports that name a
//! line, and as the sorted places of the cells, for a binary search. A place is one number of 64 bits, so the search
//! compares no pairs, and an empty list needs no comparison.

ghost use Rattle.std.specs.Prelude.{◌≡◌, ℕ, ◌+◌, ◌*◌, ◌^◌, ◌<◌, ◌≤◌, [], false, length, map, slice_get, slice_index_or, Some, IfOk};
ghost use Rattle.drain_grid.specs.SinkTexts.{is_listed, wide_place, AreNarrow, ArePlaces};

use crate::cell::Cell;
use crate::memory::OutOfMemory;
use crate::numbered_cells::NumberedCells;
use std::alloc::Global;
use std::marker::Model;

/// The lines of a sink list that are not empty, in order.
///
/// A sink takes 16 bytes, 8 for its cell and 8 for its place. Each run of lines takes 16 more: one for the first sink,
/// and one after each gap of empty lines between two sinks.
#[derive(Drop)]
pub struct Sinks {
    lines: NumberedCells,
    places: Vec<u64>,
}

impl Model for Sinks {
    ghost use Rattle.std.specs.Prelude.{List};
    ghost use Rattle.drain_grid.specs.declared.sink_line.SinkLine.{SinkLine};
    ghost use Rattle.drain_grid.specs.SinkTexts.{ArePlaces};

    ghost Value = { List SinkLine };

    ghost view = { λ s. s.lines };

    ghost invariant = { λ s. ArePlaces s.lines s.places.items };
}

impl Sinks {
    /// No sink. This takes no memory.
    pub fn none(alloc: Global) -> Sinks
        ensures { result ≡ [] }
    {
        Sinks {
            lines: NumberedCells::new(alloc),
            places: Vec::new(alloc),
        }
    }

    /// The sinks that these lines list.
    pub(crate) fn of(alloc: Global, lines: NumberedCells) -> Result<Sinks, OutOfMemory>
        requires { AreNarrow lines }
        ensures { IfOk result (λ sinks. sinks ≡ lines) }
    {
        let places = places_of(alloc, lines.cells())?;
        let mut rising = places;
        rising.sort_unstable();
        Ok(Sinks {
            lines,
            places: rising,
        })
    }

    /// Whether a line lists the cell.
    pub fn has(&self, cell: Cell) -> bool
        ensures { result ≡ is_listed self.now cell }
    {
        self.places.binary_search(&place_of(cell)).is_ok()
    }

    /// Marks the listed columns of a row, and unmarks all others.
    pub fn mark_row(&self, row: u32, marks: &mut [bool])
        requires within { length marks.old ≤ 2 ^ 32 }
        ensures counted { length marks.new ≡ length marks.old }
        ensures listed { (col : ℕ) → col < length marks.new → slice_index_or marks.new col false ≡ is_listed self.now (record { row = row; col = col }) }
    {
        marks.fill(false);
        let first = place_of(Cell { row, col: 0 });
        let start = self.places.partition_point(|place| *place < first);
        for place in &self.places[start..] {
            let col = (*place - first) as usize;
            if marks.len() <= col {
                return;
            }
            marks[col] = true;
        }
    }

    /// How many lines there are that are not empty.
    pub fn count(&self) -> usize
        ensures { result ≡ length self.now }
    {
        self.lines.len()
    }

    /// The number of such a line, counted from 1 with the empty ones, and the cell that it lists.
    pub fn entry(&self, i: usize) -> (u64, Cell)
        requires { i < length self.now }
        ensures { slice_get self.now i ≡ Some (record { line = result.0; cell = result.1 }) }
    {
        let listed = self.lines.get(i);
        (listed.line, listed.cell)
    }
}

/// The place of a cell in row order on a grid of 2^32 columns.
fn place_of(cell: Cell) -> u64
    ensures { result ≡ wide_place cell }
{
    u64::from(cell.row) * 0x1_0000_0000 + u64::from(cell.col)
}

/// The places of the cells, in order.
fn places_of(alloc: Global, cells: &[Cell]) -> Result<Vec<u64>, OutOfMemory>
    ensures { IfOk result (λ places. places.items ≡ map wide_place cells.now) }
{
    let mut places = Vec::new(alloc);
    for cell in cells {
        places.push(place_of(*cell))?;
    }
    Ok(places)
}
