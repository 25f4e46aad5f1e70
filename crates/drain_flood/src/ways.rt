//! The code of each data cell of a filled surface that has a lower neighbour: the first steepest way down. Any other
//! cell keeps its mark.
//!
//! Source: D8 (O'Callaghan and Mark 1984). In rows of square cells with whole heights slopes are compared by the squares of
//! their drops, halved across corners, many cells at a time; in any other row cell by cell.

ghost use Rattle.std.specs.Prelude.{◌≡◌, ◌↔◌, ◌+◌, ◌*◌};
ghost use Rattle.drain_flood.specs.Names.{IfOk, IsTrue, OnOk, length, code_of, Grid, spacing_of, unit_spacing};
ghost use Rattle.drain_flood.specs.Floods.{IsFlooded};
ghost use Rattle.drain_flood.specs.Ways.{AreFirstCodes, IsSpaced};

use crate::exact_ways::put_exact_row;
use crate::falls::put_row;
use crate::layers::{VOID, lanes, marks};
use crate::surface::Surface;
use drain_grid::{Direction, HeightKind, OutOfMemory, Spacing, Spacings};
use std::alloc::Global;

/// The codes in row order: VOID at voids, OPEN at outlets, REACHED at closed cells without a lower neighbour.
#[inline(never)]
pub fn directions(
    alloc: Global,
    surface: &Surface<Vec<i16>>,
    spacings: &Spacings,
) -> Result<Vec<u8>, OutOfMemory>
    ensures counted { IfOk result (λ dirs. length dirs.items ≡ surface.now.extent.rows * surface.now.extent.cols) }
    ensures codes { IfOk result (λ dirs. (g : Grid) → g.extent ≡ surface.now.extent → IsSpaced g (spacing_of spacings.now) → IsFlooded g surface.now → AreFirstCodes g surface.now dirs.items) }
{
    let shape = surface.shape();
    let mut dirs = marks(alloc, VOID, shape.cells())?;
    put_all(alloc, surface, spacings, dirs.as_mut_slice())?;
    Ok(dirs)
}

/// Puts the code of each cell at its place.
fn put_all(
    alloc: Global,
    surface: &Surface<Vec<i16>>,
    spacings: &Spacings,
    dirs: &mut [u8],
) -> Result<(), OutOfMemory>
    requires { length dirs.old ≡ surface.now.extent.rows * surface.now.extent.cols }
    ensures counted { length dirs.new ≡ length dirs.old }
    ensures codes { OnOk result ((g : Grid) → g.extent ≡ surface.now.extent → IsSpaced g (spacing_of spacings.now) → IsFlooded g surface.now → AreFirstCodes g surface.now dirs.new) }
{
    let cols = surface.shape().cols() as usize;
    let mut above = lanes(alloc, cols + 2)?;
    let mut here = lanes(alloc, cols + 2)?;
    let mut below = lanes(alloc, cols + 2)?;
    let mut codes = lanes(alloc, cols)?;
    put_rows(
        surface,
        spacings,
        above.as_mut_slice(),
        here.as_mut_slice(),
        below.as_mut_slice(),
        codes.as_mut_slice(),
        dirs,
    );
    Ok(())
}

/// The same, with room for three rows of lanes and for the codes of a row.
fn put_rows(
    surface: &Surface<Vec<i16>>,
    spacings: &Spacings,
    above: &mut [u16],
    here: &mut [u16],
    below: &mut [u16],
    codes: &mut [u16],
    dirs: &mut [u8],
)
    requires above_len { length above.old ≡ surface.now.extent.cols + 2 }
    requires here_len { length here.old ≡ surface.now.extent.cols + 2 }
    requires below_len { length below.old ≡ surface.now.extent.cols + 2 }
    requires codes_len { length codes.old ≡ surface.now.extent.cols }
    requires dirs_len { length dirs.old ≡ surface.now.extent.rows * surface.now.extent.cols }
    ensures counted { length dirs.new ≡ length dirs.old }
    ensures codes { (g : Grid) → g.extent ≡ surface.now.extent → IsSpaced g (spacing_of spacings.now) → IsFlooded g surface.now → AreFirstCodes g surface.now dirs.new }
{
    for row in 0..surface.shape().rows() {
        let spacing = spacings.of_row(row);
        if is_unit(spacing) {
            put_row(surface, row, above, here, below, codes, dirs);
        } else {
            put_exact_row(surface, row, spacing, dirs);
        }
    }
}

/// Whether cells are square, with sides of 1 and whole heights.
fn is_unit(spacing: Spacing) -> bool
    ensures { IsTrue result ↔ (spacing ≡ unit_spacing) }
{
    match spacing.kind {
        HeightKind::Whole => spacing.width == 1 && spacing.height == 1,
        HeightKind::Single => false,
    }
}

/// The code of a direction, in a byte.
pub fn code(direction: Direction) -> u8
    ensures { result ≡ code_of direction }
{
    match direction {
        Direction::East => 1,
        Direction::SouthEast => 2,
        Direction::South => 4,
        Direction::SouthWest => 8,
        Direction::West => 16,
        Direction::NorthWest => 32,
        Direction::North => 64,
        Direction::NorthEast => 128,
    }
}
