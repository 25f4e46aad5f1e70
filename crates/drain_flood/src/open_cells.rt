//! The start of a flood: the ground of each cell, its first mark, and the places of the open cells.
//!
//! A data cell is open if it is listed or beside a gap. A place around the grid is a gap, as a void is. A row of bytes
//! has one for each cell of a row of the grid, between two for the places beside it: 0 at a gap, 1 at data. The least of
//! the eight around a cell is 0 if the cell is beside a gap. So a row's cells are looked at many at a time, by loops
//! without a branch.

ghost use Rattle.drain_flood.specs.Names.{ℕ, pos, min, false, List, Contains, IfOk, OnOk, length, slice_index, slice_index_or, Cell, IsCellOf, index_of, IsSample, Distances, spaced_grid};
ghost use Rattle.std.specs.Prelude.{◌≡◌, ◌↔◌, ◌≤◌, ◌<◌, ◌+◌, ◌*◌, All};
ghost use Rattle.drain_grid.specs.declared.sink_line.SinkLine.{SinkLine};
ghost use Rattle.drain_grid.specs.SinkTexts.{is_listed};
ghost use Rattle.drain_flood.specs.declared.level_queue.TheConstants.{MAX_CELLS};
ghost use Rattle.drain_flood.specs.Floods.{IsFirstMark};
ghost use Rattle.drain_flood.specs.Laid.{AreDataMarks, AreFirstMarks, AreGrounds, IsMarkOf, IsOpenPlace, around_in, least_across, least_along, least_around};

use crate::heights::narrow;
use crate::layers::{NO_HEIGHT, OPEN, UNREACHED, VOID, heights, marks, no_places};
use drain_grid::{Elevation, OutOfMemory, Sinks};
use std::alloc::Global;
use std::mem::swap;

/// The ground of each cell; at a void, the sample of a void.
pub(crate) fn grounds(alloc: Global, elevation: &Elevation) -> Result<Vec<i16>, OutOfMemory>
    ensures { IfOk result (λ con. AreGrounds elevation.now con.items) }
{
    let mut con = heights(alloc, NO_HEIGHT, elevation.shape().cells())?;
    let mut samples = Vec::new(alloc);
    put_rows(elevation, &mut samples, con.as_mut_slice())?;
    Ok(con)
}

/// Puts the samples of all rows at their places, with room for those of a row.
fn put_rows(
    elevation: &Elevation,
    samples: &mut Vec<i64>,
    con: &mut [i16],
) -> Result<(), OutOfMemory>
    requires { length con.old ≡ elevation.now.extent.rows * elevation.now.extent.cols }
    ensures len { length con.new ≡ length con.old }
    ensures grounds { OnOk result (AreGrounds elevation.now con.new) }
{
    let shape = elevation.shape();
    for row in 0..shape.rows() {
        elevation.read_row(row, samples)?;
        put_samples(samples.as_slice(), shape.row_start(row), con);
    }
    Ok(())
}

/// Puts a row's samples at their places.
#[inline(never)]
fn put_samples(samples: &[i64], start: usize, con: &mut [i16])
    requires inside { start + length samples.now ≤ length con.old }
    requires samples { All IsSample samples.now }
    ensures len { length con.new ≡ length con.old }
    ensures row { (k : ℕ) → k < length samples.now → slice_index_or con.new (start + k) (pos 0) ≡ slice_index_or samples.now k (pos 0) }
    ensures others { (i : ℕ) → i < start → slice_index_or con.new i (pos 0) ≡ slice_index_or con.old i (pos 0) }
{
    for k in 0..samples.len() {
        con[start + k] = narrow(samples[k]);
    }
}

/// The first mark of each cell, from its ground: that of a void, of an open cell, or of a cell that isn't reached.
pub(crate) fn first_marks(
    alloc: Global,
    elevation: &Elevation,
    con: &[i16],
    sinks: &Sinks,
) -> Result<Vec<u8>, OutOfMemory>
    requires { AreGrounds elevation.now con.now }
    ensures counted { IfOk result (λ marks. length marks.items ≡ elevation.now.extent.rows * elevation.now.extent.cols) }
    ensures marks { IfOk result (λ marks. (spacing : ℕ → Distances) → AreFirstMarks (spaced_grid spacing elevation.now sinks.now) elevation.now.extent.rows marks.items) }
{
    let shape = elevation.shape();
    let mut first = marks(alloc, VOID, shape.cells())?;
    let mut listed = vec![in alloc; false; shape.cols() as usize]?;
    let mut rows = RowMarks::new(alloc, elevation, con)?;
    mark_rows(
        elevation,
        con,
        sinks,
        listed.as_mut_slice(),
        &mut rows,
        first.as_mut_slice(),
    );
    Ok(first)
}

/// Puts the first marks of all rows at their places, with room for the listed columns of a row.
fn mark_rows(
    elevation: &Elevation,
    con: &[i16],
    sinks: &Sinks,
    listed: &mut [bool],
    rows: &mut RowMarks,
    marks: &mut [u8],
)
    requires grounds { AreGrounds elevation.now con.now }
    requires listed { length listed.old ≡ elevation.now.extent.cols }
    requires above { AreDataMarks elevation.now 0 rows.old.here.items }
    requires here { AreDataMarks elevation.now 1 rows.old.below.items }
    requires room { length rows.old.above.items ≡ elevation.now.extent.cols + 2 }
    requires counted { length marks.old ≡ elevation.now.extent.rows * elevation.now.extent.cols }
    ensures counted { length marks.new ≡ length marks.old }
    ensures marks { (spacing : ℕ → Distances) → AreFirstMarks (spaced_grid spacing elevation.now sinks.now) elevation.now.extent.rows marks.new }
{
    for row in 0..elevation.shape().rows() {
        sinks.mark_row(row, listed);
        rows.put_row(elevation, con, row, listed, marks);
    }
}

/// Which cells of a row and of the rows above and below it are data.
#[derive(Drop)]
struct RowMarks {
    above: Vec<u8>,
    here: Vec<u8>,
    below: Vec<u8>,
}

impl RowMarks {
    /// Those for the row above the grid: the row below it is the first. Rows are counted from 1.
    fn new(alloc: Global, elevation: &Elevation, con: &[i16]) -> Result<RowMarks, OutOfMemory>
        requires { AreGrounds elevation.now con.now }
        ensures above { IfOk result (λ rows. AreDataMarks elevation.now 0 rows.here.items) }
        ensures here { IfOk result (λ rows. AreDataMarks elevation.now 1 rows.below.items) }
        ensures room { IfOk result (λ rows. length rows.above.items ≡ elevation.now.extent.cols + 2) }
    {
        let places = elevation.shape().cols() as usize + 2;
        let mut rows = RowMarks {
            above: gaps(alloc, places)?,
            here: gaps(alloc, places)?,
            below: gaps(alloc, places)?,
        };
        lay_marks(elevation, con, 1, rows.below.as_mut_slice());
        Ok(rows)
    }

    /// Goes one row down, and puts the first marks of its cells at their places.
    fn put_row(
        &mut self,
        elevation: &Elevation,
        con: &[i16],
        row: u32,
        listed: &[bool],
        marks: &mut [u8],
    )
        requires grounds { AreGrounds elevation.now con.now }
        requires inside { row < elevation.now.extent.rows }
        requires above { AreDataMarks elevation.now row self.old.here.items }
        requires here { AreDataMarks elevation.now (row + 1) self.old.below.items }
        requires room { length self.old.above.items ≡ elevation.now.extent.cols + 2 }
        requires listed { length listed.now ≡ elevation.now.extent.cols }
        requires counted { length marks.old ≡ elevation.now.extent.rows * elevation.now.extent.cols }
        ensures above { AreDataMarks elevation.now (row + 1) self.new.here.items }
        ensures here { AreDataMarks elevation.now (row + 2) self.new.below.items }
        ensures room { length self.new.above.items ≡ elevation.now.extent.cols + 2 }
        ensures counted { length marks.new ≡ length marks.old }
        ensures row { (spacing : ℕ → Distances) (sinks : List SinkLine) → ((col : ℕ) → col < length listed.now → slice_index_or listed.now col false ≡ is_listed sinks (record { row = row; col = col })) → (c : Cell) → IsCellOf elevation.now.extent c → c.row ≡ row → IsFirstMark (spaced_grid spacing elevation.now sinks) c (slice_index marks.new (index_of elevation.now.extent c)) }
        ensures others { (i : ℕ) → i < row * elevation.now.extent.cols → slice_index marks.new i ≡ slice_index marks.old i }
    {
        swap(&mut self.above, &mut self.here);
        swap(&mut self.here, &mut self.below);
        lay_marks(elevation, con, row as usize + 2, self.below.as_mut_slice());
        put_marks(
            self.above.as_slice(),
            self.here.as_slice(),
            self.below.as_slice(),
            listed,
            elevation.shape().row_start(row),
            marks,
        );
    }
}

/// A row of gaps.
fn gaps(alloc: Global, places: usize) -> Result<Vec<u8>, OutOfMemory>
    ensures counted { IfOk result (λ gaps. length gaps.items ≡ places) }
    ensures gaps { IfOk result (λ gaps. All (λ mark. mark ≡ 0) gaps.items) }
{
    Ok(vec![in alloc; 0u8; places]?)
}

/// Lays a row of the grid, which is counted from 1; those next to the grid are gaps.
fn lay_marks(elevation: &Elevation, con: &[i16], down: usize, marks: &mut [u8])
    requires grounds { AreGrounds elevation.now con.now }
    requires len { length marks.old ≡ elevation.now.extent.cols + 2 }
    ensures { AreDataMarks elevation.now down marks.new }
{
    let shape = elevation.shape();
    if 0 < down && down <= shape.rows() as usize {
        mark_data(con, shape.row_start((down - 1) as u32), marks);
    } else {
        mark_gaps(marks);
    }
}

/// Lays a row of gaps.
fn mark_gaps(marks: &mut [u8])
    ensures len { length marks.new ≡ length marks.old }
    ensures gaps { (k : ℕ) → k < length marks.old → slice_index marks.new k ≡ 0 }
{
    for k in 0..marks.len() {
        marks[k] = 0;
    }
}

/// Lays a row whose grounds are there from this place on, between two gaps.
#[inline(never)]
fn mark_data(con: &[i16], start: usize, marks: &mut [u8])
    requires room { 2 ≤ length marks.old }
    requires inside { start + length marks.old ≤ length con.now + 2 }
    ensures len { length marks.new ≡ length marks.old }
    ensures first { slice_index marks.new 0 ≡ 0 }
    ensures last { (k : ℕ) → k + 1 ≡ length marks.old → slice_index marks.new k ≡ 0 }
    ensures marks { (k : ℕ) → k + 2 < length marks.old → (slice_index marks.new (k + 1) ≡ 0 ↔ slice_index_or con.now (start + k) (pos 0) ≡ NO_HEIGHT) }
{
    let cols = marks.len() - 2;
    marks[0] = 0;
    marks[cols + 1] = 0;
    for k in 0..cols {
        marks[k + 1] = data_mark(con[start + k]);
    }
}

/// 0 if the ground is that of a void, else 1.
#[inline(always)]
fn data_mark(ground: i16) -> u8
    ensures { result ≡ 0 ↔ ground ≡ NO_HEIGHT }
{
    u8::from(ground != NO_HEIGHT)
}

/// The least of the eight around the one in the middle of three columns.
#[inline(always)]
fn least_around(above: &[u8], here: &[u8], below: &[u8], k: usize) -> u8
    requires above_len { k + 2 < length above.now }
    requires here_len { k + 2 < length here.now }
    requires below_len { k + 2 < length below.now }
    ensures { result ≡ least_around above.now here.now below.now k }
{
    let along = here[k + 2].min(below[k + 1]).min(here[k].min(above[k + 1]));
    let across = below[k + 2].min(below[k]).min(above[k].min(above[k + 2]));
    along.min(across)
}

/// The first mark of a cell: whether it has data, is listed, or is beside a gap.
#[inline(always)]
fn first_mark(own: u8, listed: bool, least: u8) -> u8
    ensures { IsMarkOf own listed least result }
{
    let unlisted = if listed { OPEN } else { UNREACHED };
    let opened = if least == 0 { OPEN } else { unlisted };
    if own == 0 { VOID } else { opened }
}

/// Puts the first marks of the cells of the middle row, from this place on.
#[inline(never)]
fn put_marks(
    above: &[u8],
    here: &[u8],
    below: &[u8],
    listed: &[bool],
    start: usize,
    marks: &mut [u8],
)
    requires above_len { length above.now ≡ length listed.now + 2 }
    requires here_len { length here.now ≡ length listed.now + 2 }
    requires below_len { length below.now ≡ length listed.now + 2 }
    requires inside { start + length listed.now ≤ length marks.old }
    ensures len { length marks.new ≡ length marks.old }
    ensures row { (k : ℕ) → k < length listed.now → IsMarkOf (slice_index here.now (k + 1)) (slice_index_or listed.now k false) (least_around above.now here.now below.now k) (slice_index marks.new (start + k)) }
    ensures others { (i : ℕ) → i < start → slice_index marks.new i ≡ slice_index marks.old i }
{
    for k in 0..listed.len() {
        let least = least_around(above, here, below, k);
        marks[start + k] = first_mark(here[k + 1], listed[k], least);
    }
}

/// The places of the open cells, in row order.
pub(crate) fn open_places(alloc: Global, marks: &[u8]) -> Result<Vec<u32>, OutOfMemory>
    requires few { length marks.now ≤ MAX_CELLS }
    ensures all { IfOk result (λ places. (place : ℕ) → place < length marks.now → slice_index marks.now place ≡ OPEN → Contains places.items place) }
    ensures open { IfOk result (λ places. All (IsOpenPlace marks.now) places.items) }
{
    let mut places = no_places(alloc)?;
    for place in 0..marks.len() {
        if marks[place] == OPEN {
            places.push(place as u32)?;
        }
    }
    Ok(places)
}
