//! Cells with their line numbers.
//!
//! Most lines follow one another, so a line number is kept only if it doesn't follow that of the cell before.

ghost use Rattle.std.specs.Prelude.{◌≡◌, ◌↔◌, ◌+◌, ◌-◌, ◌<◌, ◌≤◌, ◌∷◌, ◌++◌};
ghost use Rattle.drain_grid.specs.Names.{ℕ, [], length, map, slice_get, slice_index_or, Some, IsTrue, IsErr, OnOk, IsNonDecreasingBy};
ghost use Rattle.std.specs.List.{All};
ghost use Rattle.drain_grid.specs.declared.numbered_cells.LineRun.{LineRun};
ghost use Rattle.drain_grid.specs.OffData.{line_number_at, AreRuns};

use crate::cell::Cell;
use crate::memory::OutOfMemory;
use crate::sink_line::SinkLine;
use std::alloc::Global;
use std::marker::Model;

/// The first of some cells on consecutive lines: how many cells come before it, and its line number.
#[derive(Clone, Copy, PartialEq, Eq, Debug)]
pub struct LineRun {
    pub first: usize,
    pub line: u64,
}

/// Cells in the order of their lines, and the runs of lines that follow one another.
#[derive(Drop)]
pub struct NumberedCells {
    cells: Vec<Cell>,
    runs: Vec<LineRun>,
}

impl Model for NumberedCells {
    ghost use Rattle.std.specs.Prelude.{List, length};
    ghost use Rattle.drain_grid.specs.declared.sink_line.SinkLine.{SinkLine};
    ghost use Rattle.drain_grid.specs.OffData.{numbered, AreRuns};

    ghost Value = { List SinkLine };

    ghost view = { λ n. numbered n.runs.items n.cells.items };

    ghost invariant = { λ n. AreRuns n.runs.items (length n.cells.items) };
}

impl NumberedCells {
    /// No cell. This takes no memory.
    pub(crate) fn new(alloc: Global) -> NumberedCells
        ensures { result ≡ [] }
    {
        NumberedCells {
            cells: Vec::new(alloc),
            runs: Vec::new(alloc),
        }
    }

    /// Adds a cell with its line number.
    pub(crate) fn push(&mut self, line: u64, cell: Cell) -> Result<(), OutOfMemory>
        ensures added { OnOk result (self.new ≡ self.old ++ record { line = line; cell = cell } ∷ []) }
        ensures kept { IsErr result → self.new ≡ self.old }
    {
        let count = self.cells.len();
        run_on(&mut self.runs, count, line)?;
        self.cells.push(cell)?;
        Ok(())
    }

    /// How many cells there are.
    pub(crate) fn len(&self) -> usize
        ensures { result ≡ length self.now }
    {
        self.cells.len()
    }

    /// The cells without their numbers.
    pub(crate) fn cells(&self) -> &[Cell]
        ensures { result.now ≡ map (λ s. s.cell) self.now }
    {
        &self.cells
    }

    /// The cell at this place, with its line number.
    pub(crate) fn get(&self, i: usize) -> SinkLine
        requires { i < length self.now }
        ensures { slice_get self.now i ≡ Some result }
    {
        let run = run_of(&self.runs, i);
        SinkLine {
            line: run.line + (i - run.first) as u64,
            cell: self.cells[i],
        }
    }
}

/// Makes the runs give this line number for the next cell. They stay as they are if they give it already.
fn run_on(runs: &mut Vec<LineRun>, count: usize, line: u64) -> Result<(), OutOfMemory>
    requires { AreRuns runs.old.items count }
    ensures runs { AreRuns runs.new.items count }
    ensures before { (i : ℕ) → i < count → line_number_at runs.new.items i ≡ line_number_at runs.old.items i }
    ensures next { OnOk result (line_number_at runs.new.items count ≡ line) }
    ensures told { OnOk result (0 < length runs.new.items) }
    ensures spare { 0 < length runs.old.items → line_number_at runs.old.items count ≡ line → runs.new.items ≡ runs.old.items }
{
    if follows(runs, count, line) {
        return Ok(());
    }
    runs.push(LineRun { first: count, line })?;
    Ok(())
}

/// Whether the last run gives this line number for the next cell.
fn follows(runs: &[LineRun], count: usize, line: u64) -> bool
    requires { All (λ run. run.first ≤ count) runs.now }
    ensures { IsTrue result ↔ ((0 < length runs.now) × (line_number_at runs.now count ≡ line)) }
{
    match runs.last() {
        Some(run) => run.line <= line && line - run.line == (count - run.first) as u64,
        None => false,
    }
}

/// The last run that begins at the cell at this place or before it.
fn run_of(runs: &[LineRun], i: usize) -> LineRun
    requires rising { IsNonDecreasingBy (λ run. run.first) runs.now }
    requires begun { (d : LineRun) → (slice_index_or runs.now 0 d).first ≡ 0 }
    requires some { 0 < length runs.now }
    ensures first { result.first ≤ i }
    ensures number { line_number_at runs.now i ≡ result.line + (i - result.first) }
{
    let begun = runs.partition_point(|run| run.first <= i);
    runs[begun - 1]
}
