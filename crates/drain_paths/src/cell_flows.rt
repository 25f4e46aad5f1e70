//! Which way each cell of a grid leads, a byte per cell, taken row by row.

ghost use Rattle.std.specs.Prelude.{◌≡◌, ◌*◌, ◌<◌, ◌++◌};
ghost use Rattle.drain_paths.specs.Names.{vec_len, IfOk, [], length, All, OnOk, OnErr, slice_index_or, IsCellOf, elevation_at, number_at, IsPixel};
ghost use Rattle.drain_paths.specs.Flows.{AreFlowsOf, bytes_flows, cell_flow, flows_of};
ghost use Rattle.drain_paths.specs.Ways.{ground_of, directions_of};
ghost use Rattle.drain_pixels.specs.Ground.{elevations};

use crate::flow::{Flow, FlowTable, NO_CODE, cell_code, flows_of_codes};
use crate::ways::Ways;
use drain_grid::{Cell, Elevation, HeightKind, OutOfMemory, Raster};
use drain_pixels::voids::height_with;
use drain_pixels::{GroundRow, PixelNumbers, PixelRow, Pixels, Voids};
use std::alloc::Global;
use std::marker::Model;

/// The flow of each cell, from its elevation and its direction number.
pub fn flows_of_rasters(
    alloc: Global,
    elevation: &Elevation,
    dir: &Raster,
) -> Result<Vec<Flow>, OutOfMemory>
    requires same_shape { elevation.now.extent ≡ dir.now.extent }
    ensures counted { IfOk result (λ flows. vec_len flows ≡ elevation.now.extent.rows * elevation.now.extent.cols) }
    ensures flows { IfOk result (λ flows. AreFlowsOf (ground_of elevation.now) (directions_of dir.now) elevation.now.extent flows.items) }
{
    let table = FlowTable::new();
    let shape = elevation.shape();
    let mut flows = vec![in alloc; Flow::Void; shape.cells()]?;
    for place in 0..shape.cells() {
        flows[place] = flow_of_cell(&table, elevation, dir, shape.cell(place));
    }
    Ok(flows)
}

/// The flow of one cell.
fn flow_of_cell(table: &FlowTable, elevation: &Elevation, dir: &Raster, cell: Cell) -> Flow
    requires same_shape { elevation.now.extent ≡ dir.now.extent }
    requires inside { IsCellOf elevation.now.extent cell }
    ensures { result ≡ cell_flow (elevation_at elevation.now cell) (number_at dir.now cell) }
{
    match elevation.z(cell) {
        Some(_) => table.flow_of_number(dir.value(cell)),
        None => Flow::Void,
    }
}

/// The flows of the cells that were taken so far, in row order.
#[derive(Drop)]
pub struct CellFlows {
    codes: Vec<u8>,
    table: FlowTable,
}

impl Model for CellFlows {
    ghost use Rattle.std.specs.Prelude.{List};
    ghost use Rattle.drain_paths.specs.declared.flow.Flow.{Flow};
    ghost use Rattle.drain_paths.specs.Flows.{bytes_flows};

    ghost Value = { List Flow };

    ghost view = { λ f. bytes_flows f.codes.items };
}

impl CellFlows {
    ghost use Rattle.std.specs.Prelude.{slice_set};
    ghost use Rattle.drain_paths.specs.declared.flow.Flow.TheVariants.{Void};

    /// No cell. This takes no memory.
    pub fn new(alloc: Global) -> CellFlows
        ensures { result ≡ [] }
    {
        CellFlows {
            codes: Vec::new(alloc),
            table: FlowTable::new(),
        }
    }

    /// Takes the next row: each cell's elevation and direction number. Without memory nothing is changed.
    pub fn push_row(&mut self, samples: &GroundRow, dir: &PixelRow) -> Result<(), OutOfMemory>
        requires cells { length samples.now ≡ length dir.now }
        requires pixels { All IsPixel dir.now }
        ensures ok { OnOk result (self.new ≡ self.old ++ flows_of samples.now dir.now) }
        ensures err { OnErr result (self.new ≡ self.old) }
    {
        let before = self.len();
        let Some(end) = before.checked_add(samples.len()) else {
            return Err(OutOfMemory);
        };
        self.codes.resize(end, NO_CODE)?;
        let codes = &mut self.codes[before..];
        match dir.pixels() {
            Pixels::U8(dir) => fill_by(codes, samples, &dir),
            Pixels::I16(dir) => fill_by(codes, samples, &dir),
            Pixels::U16(dir) => fill_by(codes, samples, &dir),
            Pixels::I32(dir) => fill_by(codes, samples, &dir),
            Pixels::U32(dir) => fill_by(codes, samples, &dir),
            Pixels::F32(dir) => fill_by(codes, samples, &dir),
            Pixels::Any(dir) => fill_by(codes, samples, &dir),
        }
        Ok(())
    }

    /// How many cells were taken.
    pub fn len(&self) -> usize
        ensures { result ≡ length self.now }
    {
        self.codes.len()
    }

    /// The flows, in row order, with a byte per cell for them; the memory of those taken is given back.
    pub fn into_flows(self, alloc: Global) -> Result<Vec<Flow>, OutOfMemory>
        ensures { IfOk result (λ flows. flows.items ≡ self) }
    {
        flows_of_codes(alloc, &self.codes)
    }

    /// The flow of the cell with this many cells before it.
    pub(crate) fn at(&self, index: usize) -> Flow
        requires { index < length self.now }
        ensures { result ≡ slice_index_or self.now index Void }
    {
        self.table.flow(self.codes[index])
    }

    /// Records that the run of the cell with this many cells before it is known to end.
    pub(crate) fn set_ended(&mut self, index: usize)
        requires { index < length self.old }
        ensures { self.new ≡ slice_set self.old index Flow.Ends }
    {
        self.codes[index] = 0;
    }
}

impl Ways for CellFlows {
    ghost flows = { λ f. f };

    #[inline(always)]
    fn flow(&self, place: usize) -> Flow {
        self.at(place)
    }
}

/// The codes of a row, one to each place.
fn fill_by<N: PixelNumbers + Copy>(out: &mut [u8], samples: &GroundRow, dir: &N)
    requires cells { length out.old ≡ length samples.now }
    requires numbers { length samples.now ≡ length (N.numbers dir.now) }
    requires pixels { All IsPixel (N.numbers dir.now) }
    ensures { bytes_flows out.new ≡ flows_of samples.now (N.numbers dir.now) }
{
    let (voids, z) = samples.parts();
    match z {
        Pixels::U8(z) => fill(out, voids, &z, dir),
        Pixels::I16(z) => fill(out, voids, &z, dir),
        Pixels::U16(z) => fill(out, voids, &z, dir),
        Pixels::I32(z) => fill(out, voids, &z, dir),
        Pixels::U32(z) => fill(out, voids, &z, dir),
        Pixels::F32(z) => fill(out, voids, &z, dir),
        Pixels::Any(z) => fill(out, voids, &z, dir),
    }
}

/// The same, from the numbers of elevations, of which these mean a void. Each kind of them has a loop of its own.
fn fill<Z: PixelNumbers + Copy, N: PixelNumbers + Copy>(
    out: &mut [u8],
    voids: Voids,
    z: &Z,
    dir: &N,
)
    requires cells { length out.old ≡ length (Z.numbers z.now) }
    requires numbers { length (Z.numbers z.now) ≡ length (N.numbers dir.now) }
    requires pixels { All IsPixel (N.numbers dir.now) }
    ensures { bytes_flows out.new ≡ flows_of (elevations voids (Z.numbers z.now)) (N.numbers dir.now) }
{
    match voids.kind {
        HeightKind::Whole => fill_each(out, Voids::of(voids.number), z, dir),
        HeightKind::Single => {
            let single = Voids {
                number: voids.number,
                kind: HeightKind::Single,
            };
            fill_each(out, single, z, dir)
        }
    }
}

/// The same, in one loop. It is inlined where the kind of voids is known, so the loop has no test of it.
#[inline(always)]
fn fill_each<Z: PixelNumbers + Copy, N: PixelNumbers + Copy>(
    out: &mut [u8],
    voids: Voids,
    z: &Z,
    dir: &N,
)
    requires cells { length out.old ≡ length (Z.numbers z.now) }
    requires numbers { length (Z.numbers z.now) ≡ length (N.numbers dir.now) }
    requires pixels { All IsPixel (N.numbers dir.now) }
    ensures { bytes_flows out.new ≡ flows_of (elevations voids (Z.numbers z.now)) (N.numbers dir.now) }
{
    // Local copies: behind references their addresses would be loaded again at each column.
    let heights = *z;
    let pixels = *dir;
    for k in 0..heights.len() {
        out[k] = cell_code(height_with(voids, heights.at(k)), pixels.at(k));
    }
}
