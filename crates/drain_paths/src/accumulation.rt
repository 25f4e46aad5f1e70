//! How many cells drain through each cell.

ghost use Rattle.std.specs.Prelude.{◌≡◌, ◌≤◌, ◌<◌, ◌+◌, ◌-◌, ◌*◌, ◌==◌, if◌then◌else◌, ◌≢◌, ◌^◌};
ghost use Rattle.drain_paths.specs.Names.{ℕ, length, vec_len, slice_index, slice_index_or, slice_set, IfOk, Cell, code_of, IsCellOf};
ghost use Rattle.drain_paths.specs.declared.flow.Flow.TheVariants.{Void};
ghost use Rattle.drain_paths.specs.declared.flow.TheConstants.{NO_CODE};
ghost use Rattle.drain_paths.specs.Flows.{OfFlows, AllFlowsEnd, byte_flow, bytes_flows};
ghost use Rattle.drain_paths.specs.Inflows.{AreRowCodes, AreInflows, IsInflowOf, inflow_at, IsPassing, AreUpstreamCounts};
ghost use Rattle.drain_paths.specs.CellNumbers.{cell_number, ones_of};

use crate::cell_numbers::room_for;
use crate::flow::{Flow, NO_CODE};
use crate::places::{CodedOnward, ListedOnward, Onward, code_offsets, offsets, place_ahead};
use drain_grid::{Direction, OutOfMemory, Shape};
use std::alloc::Global;

/// The inflows of a cell that has passed its count on. No cell has this many.
pub const DONE: u8 = u8::MAX;

/// How many cells flow into each cell.
fn inflows<O: Onward>(alloc: Global, onward: &O, shape: Shape) -> Result<Vec<u8>, OutOfMemory>
    requires counted { length (O.flows onward.now) ≡ shape.rows * shape.cols }
    ensures counted { IfOk result (λ waits. vec_len waits ≡ shape.rows * shape.cols) }
    ensures inflows { IfOk result (λ waits. OfFlows shape (O.flows onward.now) (λ g ps. AreInflows g ps shape waits.items)) }
{
    let cols = shape.cols() as usize;
    let mut waits = zeros(alloc, shape.cells())?;
    let mut above = zeros(alloc, cols + 2)?;
    let mut here = zeros(alloc, cols + 2)?;
    let mut below = zeros(alloc, cols + 2)?;
    count_rows(
        onward,
        shape,
        above.as_mut_slice(),
        here.as_mut_slice(),
        below.as_mut_slice(),
        waits.as_mut_slice(),
    );
    Ok(waits)
}

/// The same number of zeros.
fn zeros(alloc: Global, len: usize) -> Result<Vec<u8>, OutOfMemory>
    ensures { IfOk result (λ zeros. vec_len zeros ≡ len) }
{
    let mut zeros = Vec::with_capacity(alloc, room_for(len))?;
    zeros.resize(len, 0u8)?;
    Ok(zeros)
}

/// The same, with room for three rows of codes.
fn count_rows<O: Onward>(
    onward: &O,
    shape: Shape,
    above: &mut [u8],
    here: &mut [u8],
    below: &mut [u8],
    waits: &mut [u8],
)
    requires counted { length (O.flows onward.now) ≡ shape.rows * shape.cols }
    requires above_len { length above.old ≡ shape.cols + 2 }
    requires here_len { length here.old ≡ shape.cols + 2 }
    requires below_len { length below.old ≡ shape.cols + 2 }
    requires waits_counted { length waits.old ≡ shape.rows * shape.cols }
    ensures waits_counted { length waits.new ≡ length waits.old }
    ensures inflows { OfFlows shape (O.flows onward.now) (λ g ps. AreInflows g ps shape waits.new) }
{
    for row in 0..shape.rows() {
        count_row(onward, shape, row, above, here, below, waits);
    }
}

/// Counts what flows into the cells of a row.
fn count_row<O: Onward>(
    onward: &O,
    shape: Shape,
    row: u32,
    above: &mut [u8],
    here: &mut [u8],
    below: &mut [u8],
    waits: &mut [u8],
)
    requires counted { length (O.flows onward.now) ≡ shape.rows * shape.cols }
    requires inside { row < shape.rows }
    requires above_len { length above.old ≡ shape.cols + 2 }
    requires here_len { length here.old ≡ shape.cols + 2 }
    requires below_len { length below.old ≡ shape.cols + 2 }
    requires waits_counted { length waits.old ≡ shape.rows * shape.cols }
    ensures above_len { length above.new ≡ length above.old }
    ensures here_len { length here.new ≡ length here.old }
    ensures below_len { length below.new ≡ length below.old }
    ensures waits_counted { length waits.new ≡ length waits.old }
    ensures row { OfFlows shape (O.flows onward.now) (λ g ps. (c : Cell) → IsCellOf shape c → c.row ≡ row → IsInflowOf g ps shape waits.new c) }
    ensures others { (i : ℕ) → i < row * shape.cols → slice_index waits.new i ≡ slice_index waits.old i }
{
    lay_row(onward, shape, row as usize, above);
    lay_row(onward, shape, row as usize + 1, here);
    lay_row(onward, shape, row as usize + 2, below);
    put_inflows(above, here, below, shape.row_start(row), waits);
}

/// Lays the codes of a row of the grid, between two voids. Rows are counted from 1; those next to the grid are voids.
fn lay_row<O: Onward>(onward: &O, shape: Shape, down: usize, codes: &mut [u8])
    requires counted { length (O.flows onward.now) ≡ shape.rows * shape.cols }
    requires codes_len { length codes.old ≡ shape.cols + 2 }
    ensures len { length codes.new ≡ length codes.old }
    ensures codes { AreRowCodes shape (O.flows onward.now) down codes.new }
{
    if 0 < down && down <= shape.rows() as usize {
        lay_codes(onward, shape, shape.row_start((down - 1) as u32), codes);
    } else {
        lay_voids(codes);
    }
}

/// Lays a row of voids.
#[inline(never)]
fn lay_voids(codes: &mut [u8])
    ensures len { length codes.new ≡ length codes.old }
    ensures voids { (k : ℕ) → k < length codes.old → slice_index codes.new k ≡ NO_CODE }
{
    for k in 0..codes.len() {
        codes[k] = NO_CODE;
    }
}

/// Lays the codes from this place on, between two voids.
#[inline(never)]
fn lay_codes<O: Onward>(onward: &O, shape: Shape, start: usize, codes: &mut [u8])
    requires counted { length (O.flows onward.now) ≡ shape.rows * shape.cols }
    requires room { 2 ≤ length codes.old }
    requires inside { start + length codes.old ≤ length (O.flows onward.now) + 2 }
    ensures len { length codes.new ≡ length codes.old }
    ensures first { slice_index codes.new 0 ≡ NO_CODE }
    ensures last { (k : ℕ) → k + 1 ≡ length codes.old → slice_index codes.new k ≡ NO_CODE }
    ensures codes { (k : ℕ) → k + 2 < length codes.old → byte_flow (slice_index codes.new (k + 1)) ≡ slice_index_or (O.flows onward.now) (start + k) Void }
{
    // A local copy: behind a reference the address of the cells would be loaded again for each.
    let cells = *onward;
    let _cells = shape.cells();
    let cols = codes.len() - 2;
    codes[0] = NO_CODE;
    codes[cols + 1] = NO_CODE;
    for k in 0..cols {
        codes[k + 1] = cells.code(start + k);
    }
}

/// 1 if the code is that of the direction, else 0.
#[inline(always)]
fn one_if(code: u8, back: Direction) -> u8
    ensures is { result ≡ (if code == code_of back then 1 else 0) }
    ensures few { result ≤ 1 }
{
    u8::from(code as i64 == back.code())
}

/// How many of the eight neighbours of a column lead to it.
#[inline(always)]
fn inflow(above: &[u8], here: &[u8], below: &[u8], k: usize) -> u8
    requires above_len { k + 2 < length above.now }
    requires here_len { k + 2 < length here.now }
    requires below_len { k + 2 < length below.now }
    ensures { result ≡ inflow_at above.now here.now below.now k }
{
    let first = one_if(here[k + 2], Direction::West)
        + one_if(below[k + 2], Direction::NorthWest)
        + one_if(below[k + 1], Direction::North)
        + one_if(below[k], Direction::NorthEast);
    let second = one_if(here[k], Direction::East)
        + one_if(above[k], Direction::SouthEast)
        + one_if(above[k + 1], Direction::South)
        + one_if(above[k + 2], Direction::SouthWest);
    first + second
}

/// Puts the inflows of the middle row from this place on.
#[inline(never)]
fn put_inflows(above: &[u8], here: &[u8], below: &[u8], start: usize, waits: &mut [u8])
    requires room { 2 ≤ length here.now }
    requires above_len { length above.now ≡ length here.now }
    requires below_len { length below.now ≡ length here.now }
    requires inside { start + length here.now ≤ length waits.old + 2 }
    ensures len { length waits.new ≡ length waits.old }
    ensures row { (k : ℕ) → k + 2 < length here.now → slice_index waits.new (start + k) ≡ inflow_at above.now here.now below.now k }
    ensures others { (i : ℕ) → i < start → slice_index waits.new i ≡ slice_index waits.old i }
{
    for k in 0..here.len() - 2 {
        waits[start + k] = inflow(above, here, below, k);
    }
}

/// Passes counts on from the data cell with this many cells before it, as far as no inflow is missing.
fn pass_counts<O: Onward>(
    onward: &O,
    shape: Shape,
    waits: &mut [u8],
    counts: &mut [u32],
    start: usize,
)
    requires counted { length (O.flows onward.now) ≡ shape.rows * shape.cols }
    requires extent { O.extent onward.now ≡ shape }
    requires waits_counted { length waits.old ≡ shape.rows * shape.cols }
    requires counts_counted { length counts.old ≡ shape.rows * shape.cols }
    requires inside { start < shape.rows * shape.cols }
    requires has_data { slice_index_or (O.flows onward.now) start Void ≢ Void }
    requires passing { OfFlows shape (O.flows onward.now) (λ g ps. IsPassing g ps shape waits.old counts.old) }
    ensures passing { OfFlows shape (O.flows onward.now) (λ g ps. IsPassing g ps shape waits.new counts.new) }
    ensures start { slice_index_or waits.new start 0 ≢ 0 }
    ensures others { (c : Cell) → IsCellOf shape c → cell_number shape waits.old c ≢ 0 → cell_number shape waits.new c ≢ 0 }
{
    let _cells = shape.cells();
    let mut here = start;
    'walk: while waits[here] == 0 {
        if onward.ends(here) {
            waits[here] = DONE;
            return;
        }
        let ahead = place_ahead(onward, shape, here);
        pass_on(waits, counts, here, ahead);
        here = ahead;
    }
}

/// Passes the count of one place on to another, which then waits for one inflow less.
#[inline(always)]
fn pass_on(waits: &mut [u8], counts: &mut [u32], from: usize, to: usize)
    requires from_waits { from < length waits.old }
    requires to_waits { to < length waits.old }
    requires from_counts { from < length counts.old }
    requires to_counts { to < length counts.old }
    requires some { 0 < slice_index_or waits.old to 0 }
    requires fits { slice_index_or counts.old to 0 + slice_index_or counts.old from 0 < 2 ^ 32 }
    ensures waits { waits.new ≡ slice_set (slice_set waits.old to (slice_index_or waits.old to 0 - 1)) from DONE }
    ensures counts { counts.new ≡ slice_set counts.old to (slice_index_or counts.old to 0 + slice_index_or counts.old from 0) }
{
    counts[to] += counts[from];
    waits[to] -= 1;
    waits[from] = DONE;
}

/// The number of data cells that drain through each data cell, itself included, and 0 at voids, from the flows of all
/// cells of a grid whose runs all end.
///
/// A cell passes its count on as soon as all cells that flow into it have. So each cell is passed once, and once more
/// to count its inflows. It takes five bytes per cell, and frees one of them at the end.
#[inline(never)]
pub fn accumulate(alloc: Global, flows: &[Flow], shape: Shape) -> Result<Vec<u32>, OutOfMemory>
    requires counted { length flows.now ≡ shape.rows * shape.cols }
    requires ends { OfFlows shape flows.now AllFlowsEnd }
    ensures counted { IfOk result (λ counts. vec_len counts ≡ shape.rows * shape.cols) }
    ensures counts { IfOk result (λ counts. OfFlows shape flows.now (λ g ps. AreUpstreamCounts g ps shape counts.items)) }
{
    let onward = ListedOnward {
        flows,
        shape,
        offsets: offsets(shape),
    };
    count_all(alloc, &onward, shape)
}

/// The same from the codes of all cells, a byte per cell: `NO_CODE` at voids.
#[inline(never)]
pub fn accumulate_codes(alloc: Global, codes: &[u8], shape: Shape) -> Result<Vec<u32>, OutOfMemory>
    requires counted { length codes.now ≡ shape.rows * shape.cols }
    requires ends { OfFlows shape (bytes_flows codes.now) AllFlowsEnd }
    ensures counted { IfOk result (λ counts. vec_len counts ≡ shape.rows * shape.cols) }
    ensures counts { IfOk result (λ counts. OfFlows shape (bytes_flows codes.now) (λ g ps. AreUpstreamCounts g ps shape counts.items)) }
{
    let onward = CodedOnward {
        codes,
        shape,
        offsets: code_offsets(shape),
    };
    count_all(alloc, &onward, shape)
}

/// The counts, whatever keeps the flows.
#[inline(always)]
fn count_all<O: Onward>(alloc: Global, onward: &O, shape: Shape) -> Result<Vec<u32>, OutOfMemory>
    requires counted { length (O.flows onward.now) ≡ shape.rows * shape.cols }
    requires extent { O.extent onward.now ≡ shape }
    requires ends { OfFlows shape (O.flows onward.now) AllFlowsEnd }
    ensures counted { IfOk result (λ counts. vec_len counts ≡ shape.rows * shape.cols) }
    ensures counts { IfOk result (λ counts. OfFlows shape (O.flows onward.now) (λ g ps. AreUpstreamCounts g ps shape counts.items)) }
{
    let mut counts = ones(alloc, onward, shape)?;
    let mut waits = inflows(alloc, onward, shape)?;
    for place in 0..shape.cells() {
        visit(onward, shape, &mut waits, &mut counts, place);
    }
    Ok(counts)
}

/// 1 for each data cell, and 0 for each void.
fn ones<O: Onward>(alloc: Global, onward: &O, shape: Shape) -> Result<Vec<u32>, OutOfMemory>
    requires { length (O.flows onward.now) ≡ shape.rows * shape.cols }
    ensures { IfOk result (λ counts. counts.items ≡ ones_of (O.flows onward.now)) }
{
    let cells = shape.cells();
    let mut counts = vec![in alloc; 0u32; cells]?;
    for place in 0..cells {
        counts[place] = u32::from(onward.has_data(place));
    }
    Ok(counts)
}

/// Passes counts on from the cell with this many cells before it, if it has data and waits for no inflow.
fn visit<O: Onward>(onward: &O, shape: Shape, waits: &mut [u8], counts: &mut [u32], place: usize)
    requires counted { length (O.flows onward.now) ≡ shape.rows * shape.cols }
    requires extent { O.extent onward.now ≡ shape }
    requires waits_counted { length waits.old ≡ shape.rows * shape.cols }
    requires counts_counted { length counts.old ≡ shape.rows * shape.cols }
    requires inside { place < shape.rows * shape.cols }
    requires passing { OfFlows shape (O.flows onward.now) (λ g ps. IsPassing g ps shape waits.old counts.old) }
    ensures passing { OfFlows shape (O.flows onward.now) (λ g ps. IsPassing g ps shape waits.new counts.new) }
    ensures here { slice_index_or (O.flows onward.now) place Void ≢ Void → slice_index_or waits.new place 0 ≢ 0 }
    ensures others { (c : Cell) → IsCellOf shape c → cell_number shape waits.old c ≢ 0 → cell_number shape waits.new c ≢ 0 }
{
    if waits[place] == 0 && onward.has_data(place) {
        pass_counts(onward, shape, waits, counts, place);
    }
}
