//! Numbers a cell: steps, counts or labels, kept as 32 bits.

ghost use Rattle.std.specs.Prelude.{◌≤◌, ◌≡◌, ◌*◌, ◌≢◌};
ghost use Rattle.drain_paths.specs.Names.{length, ℕ, IsCellOf, Cell, MAX_LENGTH, Grid, Products};
ghost use Rattle.drain_paths.specs.CellNumbers.{cell_number, IsPutAt, IsNumberBehind};

use drain_grid::{Cell, Shape};

/// 32 MiB and a page, in bytes.
const ROOM: usize = 33_558_528;

/// The capacity of a list of this many bytes.
pub(crate) fn room_for(len: usize) -> usize
    ensures { len ≤ result }
{
    len.max(ROOM)
}

/// The number of a cell.
pub fn number_at(shape: Shape, numbers: &[u32], cell: Cell) -> u32
    requires counted { length numbers.now ≡ shape.rows * shape.cols }
    requires inside { IsCellOf shape cell }
    ensures { result ≡ cell_number shape numbers.now cell }
{
    numbers[shape.index(cell)]
}

/// Writes the number of a cell.
pub fn put_at(shape: Shape, numbers: &mut [u32], cell: Cell, number: u32)
    requires counted { length numbers.old ≡ shape.rows * shape.cols }
    requires inside { IsCellOf shape cell }
    ensures { IsPutAt shape numbers.old numbers.new cell number }
{
    numbers[shape.index(cell)] = number;
}

/// A number for each cell whose path ends.
pub trait PathNumber {
    /// Marks a number that is not known. No cell has it.
    const UNKNOWN: u32;

    /// The same.
    ghost UNKNOWN: { ℕ };

    /// The number of each cell whose path ends.
    ghost number_of: { Grid → Products → Cell → ℕ };

    /// The number of a cell from which this many steps lead to one with this number.
    fn behind(number: u32, steps: usize) -> u32
        requires known { number ≢ UNKNOWN }
        requires few { steps ≤ MAX_LENGTH * MAX_LENGTH }
        ensures { IsNumberBehind UNKNOWN number_of number steps result };
}
