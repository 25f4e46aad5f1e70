//! Grids of worked directions, and questions about their runs.

ghost use Rattle.std.specs.Prelude.{◌≡◌, ◌<◌, IfOk};

use drain_grid::{Cell, Elevation, OutOfMemory, Raster, Shape, VOID};
use drain_paths::{CellFlows, CertifyRefusal, EndlessPath, count_steps, flows_of_rasters};
use drain_pixels::{GroundRow, PixelRow, Voids};
use std::alloc::Global;
use std::test::Fail;

/// Means no rank.
pub const NONE: i64 = 4_294_967_295;

/// The directions of a grid.
fn directions(alloc: Global, shape: Shape, codes: &[u8]) -> Result<Raster, Fail>
    ensures { IfOk result (λ dir. dir.extent ≡ shape) }
{
    let numbers = codes.to_vec(alloc)?;
    if numbers.len() != shape.cells() {
        return Err("a code for each cell".into());
    }
    Ok(Raster::of_bytes(shape, 255, numbers))
}

/// The elevations of a grid: 0, and a void where `voids` has a 1.
fn elevations(alloc: Global, shape: Shape, voids: &[u8]) -> Result<Elevation, Fail>
    ensures { IfOk result (λ elevation. elevation.extent ≡ shape) }
{
    let mut samples = Vec::new(alloc);
    for void in voids {
        samples.push(if *void == 1 { VOID } else { 0 })?;
    }
    if samples.len() != shape.cells() {
        return Err("a sample for each cell".into());
    }
    Ok(Elevation::new(shape, samples))
}

/// A grid of worked directions.
#[derive(Drop)]
struct Grid {
    shape: Shape,
    elevation: Elevation,
    dir: Raster,
    ghost same_elevation: { elevation.extent ≡ shape },
    ghost same_dir: { dir.extent ≡ shape },
}

/// The grid of these voids and directions, row by row.
fn grid_of(alloc: Global, rows: u32, cols: u32, voids: &[u8], codes: &[u8]) -> Result<Grid, Fail> {
    let Some(shape) = Shape::new(rows, cols) else {
        return Err("a shape".into());
    };
    let elevation = elevations(alloc, shape, voids)?;
    let dir = directions(alloc, shape, codes)?;
    Ok(Grid {
        shape,
        elevation,
        dir,
    })
}

/// The ranks for these directions, on a grid with these voids; or the first cell whose run doesn't end.
pub fn certified(
    alloc: Global,
    rows: u32,
    cols: u32,
    voids: &[u8],
    codes: &[u8],
) -> Result<Result<Raster, Cell>, Fail> {
    let grid = grid_of(alloc, rows, cols, voids, codes)?;
    let flows = flows_of_rasters(alloc, &grid.elevation, &grid.dir)?;
    match count_steps(alloc, &flows, grid.shape) {
        Ok(steps) => Ok(Ok(Raster::of_counts(grid.shape, NONE, steps))),
        Err(CertifyRefusal::NoEnd(cell)) => Ok(Err(cell)),
        Err(CertifyRefusal::OutOfMemory) => Err(OutOfMemory.into()),
    }
}

/// Whether the ranks are these, row by row.
pub fn are_ranks(answer: &Result<Raster, Cell>, ranks: &[i64]) -> bool {
    let Ok(raster) = answer else {
        return false;
    };
    let shape = raster.shape();
    if ranks.len() != shape.cells() || raster.nodata() != NONE {
        return false;
    }
    for (index, rank) in ranks.iter().enumerate() {
        if index < shape.cells() && raster.value(shape.cell(index)) != *rank {
            return false;
        }
    }
    true
}

/// The first cell whose run doesn't end, on the same grid.
pub fn first_endless(
    alloc: Global,
    rows: u32,
    cols: u32,
    voids: &[u8],
    codes: &[u8],
) -> Result<Option<Cell>, Fail> {
    let grid = grid_of(alloc, rows, cols, voids, codes)?;
    let mut flows = taken(alloc, &grid)?;
    if flows.len() != grid.shape.cells() {
        return Err("a flow for each cell".into());
    }
    Ok(flows.first_endless(grid.shape))
}

/// Where the run of this cell leads if it doesn't end, on the same grid.
pub fn endless_path(
    alloc: Global,
    rows: u32,
    cols: u32,
    voids: &[u8],
    codes: &[u8],
    start: Cell,
) -> Result<Option<EndlessPath>, Fail> {
    let grid = grid_of(alloc, rows, cols, voids, codes)?;
    let flows = taken(alloc, &grid)?;
    endless_of(alloc, grid.shape, flows, start)
}

/// The same of the flows of a grid of this shape.
fn endless_of(
    alloc: Global,
    shape: Shape,
    mut flows: CellFlows,
    start: Cell,
) -> Result<Option<EndlessPath>, Fail> {
    if flows.len() != shape.cells() || start.row >= shape.rows() || start.col >= shape.cols() {
        return Err("a flow for each cell, and one of them".into());
    }
    // flows no longer have the codes of runs that end
    let _first = flows.first_endless(shape);
    if flows.len() != shape.cells() {
        return Err("as many flows".into());
    }
    Ok(flows.endless_path(alloc, shape, start)?)
}

/// The flows of a grid, row by row.
fn taken(alloc: Global, grid: &Grid) -> Result<CellFlows, OutOfMemory> {
    let mut flows = CellFlows::new(alloc);
    let mut samples = GroundRow::new(alloc);
    let mut dir = PixelRow::new(alloc);
    for row in 0..grid.shape.rows() {
        take_row(&mut flows, grid, row, &mut samples, &mut dir)?;
    }
    Ok(flows)
}

/// Takes the flows of a row, which is read into these.
fn take_row(
    flows: &mut CellFlows,
    grid: &Grid,
    row: u32,
    samples: &mut GroundRow,
    dir: &mut PixelRow,
) -> Result<(), OutOfMemory>
    requires { row < grid.now.shape.rows }
{
    let mut heights = samples.take_numbers();
    grid.elevation.read_row(row, &mut heights)?;
    samples.put_numbers(Voids::of(Some(VOID.into())), heights);
    let mut numbers = dir.take_numbers();
    grid.dir.read_row(row, &mut numbers)?;
    dir.put_numbers(numbers);
    if samples.len() == dir.len() {
        flows.push_row(samples, dir)?;
    }
    Ok(())
}

/// One run through all cells, to and fro from the first cell on; or, where it goes round, from its last cell to the one above.
pub fn to_and_fro(alloc: Global, side: u32, goes_round: bool) -> Result<Vec<u8>, Fail> {
    let mut codes = Vec::new(alloc);
    for row in 0..side {
        for col in 0..side {
            codes.push(code_to_and_fro(side, row, col, goes_round))?;
        }
    }
    Ok(codes)
}

fn code_to_and_fro(side: u32, row: u32, col: u32, goes_round: bool) -> u8
    requires { row < side }
{
    let goes_east = row % 2 == 0;
    let turns = if goes_east { col == side - 1 } else { col == 0 };
    if !turns {
        if goes_east { 1 } else { 16 }
    } else if row < side - 1 {
        4
    } else if goes_round {
        64
    } else {
        0
    }
}
