//! The line of a window's place.

ghost use Rattle.std.specs.Prelude.{◌≡◌};
ghost use Rattle.drain_report.specs.Names.{drop, length, Some, IfSome, FitsNumbers};
ghost use Rattle.drain_union.specs.declared.place.InnerSides.{InnerSides as SidesOf};
ghost use Rattle.drain_report.specs.Lines.{AreLong};
ghost use Rattle.drain_report.specs.Facts.{side_numbers, place_numbers, place_line, IsPlace};

use crate::facts::{Fact, ReportLine, cell_at, flag_at, read_fact};
use crate::fault::ReportFault;
use crate::lines::{Lines, push_line};
use drain_grid::{Cell, OutOfMemory};
use drain_union::{InnerSides, Place, UnionSize};

/// The inner sides, which follow the place's four numbers.
fn sides(numbers: &[i64]) -> Option<InnerSides>
    requires long { AreLong numbers.now }
    requires len { length numbers.now ≡ 8 }
    ensures sound { IfSome result (λ s. drop 4 numbers.now ≡ side_numbers s) }
    ensures back { (s : SidesOf) → drop 4 numbers.now ≡ side_numbers s → result ≡ Some s }
{
    let north = flag_at(numbers, 4)?;
    let south = flag_at(numbers, 5)?;
    let west = flag_at(numbers, 6)?;
    let east = flag_at(numbers, 7)?;
    Some(InnerSides {
        north,
        south,
        west,
        east,
    })
}

impl Fact for Place {
    ghost numbers_of = { place_numbers };

    ghost how_many = { 8 };

    ghost is_in_range = { IsPlace };

    fn from_numbers(numbers: &[i64]) -> Option<Place> {
        let corner = cell_at(numbers, 0)?;
        let size = cell_at(numbers, 2)?;
        let inner = sides(numbers)?;
        Some(Place {
            top: corner.row,
            left: corner.col,
            extent: UnionSize {
                rows: size.row,
                cols: size.col,
            },
            inner,
        })
    }
}

/// The rows and columns of a size.
fn size(extent: UnionSize) -> Cell
    ensures size { result ≡ record { row = extent.rows; col = extent.cols } }
    ensures in_range { FitsNumbers extent }
{
    Cell {
        row: extent.rows(),
        col: extent.cols(),
    }
}

impl ReportLine for Place {
    ghost line_of = { place_line };

    ghost fits = { IsPlace };

    fn read_from<'a>(lines: Lines<'a>) -> Result<(Place, Lines<'a>), ReportFault> {
        let mut numbers = [0i64; 8];
        read_fact(lines, "window", &mut numbers)
    }

    fn push_to(&self, text: &mut Vec<u8>) -> Result<(), OutOfMemory> {
        let size = size(self.extent);
        let inner = self.inner;
        let numbers = [
            i64::from(self.top),
            i64::from(self.left),
            i64::from(size.row),
            i64::from(size.col),
            i64::from(inner.north),
            i64::from(inner.south),
            i64::from(inner.west),
            i64::from(inner.east),
        ];
        push_line(text, "window", &numbers)
    }
}
