//! Listed sinks that are voids, noted row by row.

ghost use Rattle.std.specs.Prelude.{◌≡◌, ◌<◌, ◌≤◌, ◌||◌};
ghost use Rattle.drain_rows.specs.Names.{[], length, OnOk, Cell, MAX_LENGTH, is_among, same_cell};
ghost use Rattle.drain_rows.specs.GridRows.{is_listed_void};

use drain_grid::{Cell, OutOfMemory};
use drain_pixels::GroundRow;
use std::alloc::Global;
use std::collections::BTreeSet;
use std::marker::Model;

/// Cells that are listed and void.
#[derive(Drop)]
pub struct ListedVoids {
    cells: BTreeSet<Cell>,
}

impl Model for ListedVoids {
    ghost use Rattle.drain_rows.specs.Names.{List, Cell};

    ghost Value = { List Cell };

    ghost view = { λ s. s.cells.keys };
}

impl ListedVoids {
    /// No cell. This needs no memory.
    pub fn new(alloc: Global) -> ListedVoids
        ensures { result ≡ [] }
    {
        ListedVoids {
            cells: BTreeSet::new(alloc),
        }
    }

    /// Whether the cell is one of them.
    pub fn has(&self, cell: Cell) -> bool
        ensures { result ≡ is_among self.now cell }
    {
        self.cells.contains(&cell)
    }

    /// Notes the cells of a row that are marked as listed and are void.
    pub fn note_row(&mut self, row: u32, z: &GroundRow, marks: &[bool]) -> Result<(), OutOfMemory>
        requires narrow { length marks.now ≤ MAX_LENGTH }
        ensures noted { OnOk result ((c : Cell) → is_among self.new c ≡ (is_among self.old c || is_listed_void row z.now marks.now c)) }
    {
        for (col, mark) in marks.iter().enumerate() {
            if *mark && col < z.len() && z.z(col).is_none() {
                let col = col as u32;
                self.note(Cell { row, col })?;
            }
        }
        Ok(())
    }

    /// Notes a cell.
    fn note(&mut self, cell: Cell) -> Result<(), OutOfMemory>
        ensures noted { OnOk result ((c : Cell) → is_among self.new c ≡ (same_cell c cell || is_among self.old c)) }
    {
        match self.cells.insert(cell) {
            Ok(_) => Ok(()),
            Err(_) => Err(OutOfMemory),
        }
    }
}
