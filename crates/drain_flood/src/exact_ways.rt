//! The code of each data cell of a filled surface with a lower neighbour, whatever its heights and its spacing: cell by
//! cell, by the keys of slopes.

ghost use Rattle.std.specs.Prelude.{◌≡◌, ◌*◌, ◌<◌, ◌==◌, if◌then◌else◌};
ghost use Rattle.drain_flood.specs.Names.{ℕ, IfOk, None, Some, length, slice_index, Cell, IsCellOf, index_of, Grid, IsInside, spacing_of};
ghost use Rattle.drain_flood.specs.Floods.{IsSurfaceOf};
ghost use Rattle.drain_flood.specs.Ways.{AreFirstCodes, IsCodeAt, IsSpaced};

use crate::heights::HeightList;
use crate::layers::{VOID, marks};
use crate::surface::Surface;
use crate::ways::code;
use drain_grid::{Cell, CellSource, CellValues, OutOfMemory, Patch, Shape, Spacing, Spacings};
use drain_slope::steepest;
use std::alloc::Global;

/// A surface as a grid with its heights, whose rows have one spacing.
#[derive(Drop)]
struct Shown<'a, C: HeightList> {
    surface: &'a Surface<C>,
    spacing: Spacing,
}

impl<'a, C: HeightList> CellSource for Shown<'a, C> {
    ghost use Rattle.drain_grid.specs.Grid.{values_at};
    ghost use Rattle.drain_flood.specs.Ways.{marked_grid, marked_products};

    ghost size = { λ s. s.surface.now.extent };

    ghost shown = { λ s. values_at (marked_grid s.spacing s.surface.now.extent s.surface.now) (marked_products s.surface.now.extent s.surface.now) };

    ghost spaced = { λ s row. s.spacing };

    fn shape(&self) -> Shape {
        self.surface.shape()
    }

    fn values(&self, cell: Cell) -> CellValues {
        let place = self.surface.shape().index(cell);
        let con = self.surface.level_at(place);
        CellValues {
            z: height_if(self.surface.mark_at(place), con),
            sink: false,
            con,
            dir: 0,
            acc: 0,
            bas: 0,
            spl: 0,
            rnk: 0,
        }
    }

    fn spacing(&self, _row: u32) -> Spacing {
        self.spacing
    }
}

/// The height, none where the mark is that of a void.
fn height_if(mark: u8, height: i64) -> Option<i64>
    ensures { result ≡ (if mark == VOID then None else Some height) }
{
    if mark == VOID { None } else { Some(height) }
}

/// The codes in row order, as of `directions`: VOID at voids, OPEN at outlets, REACHED at closed cells without a lower
/// neighbour.
pub fn exact_directions<C: HeightList>(
    alloc: Global,
    surface: &Surface<C>,
    spacings: &Spacings,
) -> Result<Vec<u8>, OutOfMemory>
    ensures counted { IfOk result (λ dirs. length dirs.items ≡ surface.now.extent.rows * surface.now.extent.cols) }
    ensures codes { IfOk result (λ dirs. (g : Grid) → g.extent ≡ surface.now.extent → IsSpaced g (spacing_of spacings.now) → IsSurfaceOf g surface.now → AreFirstCodes g surface.now dirs.items) }
{
    let shape = surface.shape();
    let mut dirs = marks(alloc, VOID, shape.cells())?;
    put_exact_rows(surface, spacings, dirs.as_mut_slice());
    Ok(dirs)
}

/// Puts the code of each cell at its place.
fn put_exact_rows<C: HeightList>(surface: &Surface<C>, spacings: &Spacings, dirs: &mut [u8])
    requires dirs_len { length dirs.old ≡ surface.now.extent.rows * surface.now.extent.cols }
    ensures counted { length dirs.new ≡ length dirs.old }
    ensures codes { (g : Grid) → g.extent ≡ surface.now.extent → IsSpaced g (spacing_of spacings.now) → IsSurfaceOf g surface.now → AreFirstCodes g surface.now dirs.new }
{
    for row in 0..surface.shape().rows() {
        put_exact_row(surface, row, spacings.of_row(row), dirs);
    }
}

/// Puts the code of each cell of a row of this spacing at its place.
pub(crate) fn put_exact_row<C: HeightList>(
    surface: &Surface<C>,
    row: u32,
    spacing: Spacing,
    dirs: &mut [u8],
)
    requires inside { row < surface.now.extent.rows }
    requires dirs_len { length dirs.old ≡ surface.now.extent.rows * surface.now.extent.cols }
    ensures dirs_len { length dirs.new ≡ length dirs.old }
    ensures row { (g : Grid) → g.extent ≡ surface.now.extent → g.spacing row ≡ spacing → IsSurfaceOf g surface.now → (c : Cell) → IsInside g c → c.row ≡ row → IsCodeAt g surface.now c (slice_index dirs.new (index_of g.extent c)) }
    ensures others { (i : ℕ) → i < row * surface.now.extent.cols → slice_index dirs.new i ≡ slice_index dirs.old i }
{
    let shape = surface.shape();
    for col in 0..shape.cols() {
        let cell = Cell { row, col };
        dirs[shape.index(cell)] = first_code(surface, spacing, cell);
    }
}

/// The code of a cell: that of its first steepest way down, its mark if no neighbour is lower.
fn first_code<C: HeightList>(surface: &Surface<C>, spacing: Spacing, cell: Cell) -> u8
    requires inside { IsCellOf surface.now.extent cell }
    ensures code { (g : Grid) → g.extent ≡ surface.now.extent → g.spacing cell.row ≡ spacing → IsSurfaceOf g surface.now → IsCodeAt g surface.now cell result }
{
    let patch = Patch::at(&Shown { surface, spacing }, cell);
    match steepest(&patch) {
        Some(direction) => code(direction),
        None => surface.mark_at(surface.shape().index(cell)),
    }
}
