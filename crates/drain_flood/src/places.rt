//! Cells and their places in row order, and the places of neighbours.

ghost use Rattle.std.specs.Prelude.{◌≡◌, ◌+◌, ◌*◌, ◌^◌, ◌<◌};
ghost use Rattle.drain_flood.specs.Names.{None, MatchOption, IfSome, IsTrue, rows_down, cols_right, IsCellOf, index_of, step};
ghost use Rattle.drain_flood.specs.Looks.{IsInnerAt, IsInnerPlace, IsPlaceBeside};

use drain_grid::{Cell, Direction, Shape};

/// A number by which places are divided by the columns: 2^32 divided by them, rounded up.
pub(crate) fn columns_inverse(shape: Shape) -> u64 {
    let cols = u64::from(shape.cols());
    if cols == 0 {
        return 0;
    }
    (1 << 32) / cols + 1
}

/// The cell at a place. A product with the inverse of the columns is a quick quotient; where it isn't the row, which is
/// seen at once, the place is divided.
#[inline(always)]
pub(crate) fn cell_at(shape: Shape, inverse: u64, place: usize) -> Cell
    requires { place < shape.rows * shape.cols }
    ensures inside { IsCellOf shape result }
    ensures place { index_of shape result ≡ place }
{
    let row = ((place as u64).wrapping_mul(inverse) >> 32) as usize;
    if row < shape.rows() as usize {
        let first = row * shape.cols() as usize;
        if first <= place && place - first < shape.cols() as usize {
            return Cell {
                row: row as u32,
                col: (place - first) as u32,
            };
        }
    }
    shape.cell(place)
}

/// Whether a cell isn't on the edge of the grid.
#[inline(always)]
pub(crate) fn is_inner(shape: Shape, cell: Cell) -> bool
    requires { IsCellOf shape cell }
    ensures { IsTrue result → IsInnerPlace shape cell }
{
    0 < cell.row
        && 0 < cell.col
        && (cell.row as u64 + 1) < shape.rows() as u64
        && (cell.col as u64 + 1) < shape.cols() as u64
}

/// The place of the neighbour in a direction, none outside the grid. An inner cell's is found without a test.
#[inline(always)]
pub(crate) fn beside(shape: Shape, cell: Cell, inner: bool, direction: Direction) -> Option<usize>
    requires inside { IsCellOf shape cell }
    requires inner { IsTrue inner → IsInnerPlace shape cell }
    ensures below { IfSome result (λ place. place < shape.rows * shape.cols) }
    ensures beside { MatchOption result (step shape cell direction ≡ None) (IsPlaceBeside shape cell direction) }
{
    if inner {
        return Some(beside_inner(shape, shape.index(cell), direction));
    }
    match shape.step(cell, direction) {
        Some(next) => Some(shape.index(next)),
        None => None,
    }
}

/// The same for the cell at a place, which isn't on the edge of the grid.
#[inline(always)]
pub(crate) fn beside_inner(shape: Shape, place: usize, direction: Direction) -> usize
    requires { IsInnerAt shape place }
    ensures below { result < shape.rows * shape.cols }
    ensures beside { (c : Cell) → IsCellOf shape c → place ≡ index_of shape c → IsPlaceBeside shape c direction result }
{
    let cols = shape.cols() as usize;
    place + offset(cols, direction) - (cols + 1)
}

/// How many places the neighbour in a direction comes after the one to the north-west.
#[inline(always)]
fn offset(cols: usize, direction: Direction) -> usize
    requires { cols < 2 ^ 32 }
    ensures { result ≡ rows_down direction * cols + cols_right direction }
{
    match direction {
        Direction::East => cols + 2,
        Direction::SouthEast => 2 * cols + 2,
        Direction::South => 2 * cols + 1,
        Direction::SouthWest => 2 * cols,
        Direction::West => cols,
        Direction::NorthWest => 0,
        Direction::North => 1,
        Direction::NorthEast => 2,
    }
}
