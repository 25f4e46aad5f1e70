//! The line of the grid whose rows and columns a report counts: the side of tiles, or a part of a raster of elevations.

ghost use Rattle.std.specs.Prelude.{◌≡◌, ◌<◌, ◌^◌, ◌++◌, ◌+◌, ℕ, List, pos, length, get_or, IfOk, OnOk, MatchResult};
ghost use Rattle.drain_union.specs.declared.union_grid.DemPart.{DemPart as PartOf};
ghost use Rattle.drain_union.specs.declared.union_grid.UnionGrid.{UnionGrid as GridOf};
ghost use Rattle.drain_report.specs.Faults.{IsAt, IsPast, IsLineFault};
ghost use Rattle.drain_report.specs.Facts.{GridFits, IsPart, grid_line, part_line, part_numbers};
ghost use Rattle.drain_report.specs.Lines.{AreLong};

use crate::facts::{Fact, at, cell_at, read_fact};
use crate::fault::ReportFault;
use crate::lines::{Lines, push_line, read_line};
use crate::numbers::push_count;
use drain_grid::OutOfMemory;
use drain_union::{Decimal, DemPart, UnionGrid};

/// The number of a header whose whole units are at a place, and what is beyond them at the next.
fn decimal_at(numbers: &[i64], place: usize) -> Decimal
    requires long { AreLong numbers.now }
    requires inside { place + 1 < length numbers.now }
    ensures units { result.units ≡ get_or numbers.now place (pos 0) }
    ensures parts { result.parts ≡ get_or numbers.now (place + 1) (pos 0) }
{
    Decimal {
        units: at(numbers, place),
        parts: at(numbers, place + 1),
    }
}

impl Fact for DemPart {
    ghost numbers_of = { part_numbers };

    ghost how_many = { 10 };

    ghost is_in_range = { IsPart };

    fn from_numbers(numbers: &[i64]) -> Option<DemPart> {
        let cell = cell_at(numbers, 0)?;
        Some(DemPart {
            at: cell,
            ulx: decimal_at(numbers, 2),
            uly: decimal_at(numbers, 4),
            xdim: decimal_at(numbers, 6),
            ydim: decimal_at(numbers, 8),
        })
    }
}

/// Reads the line of a part of a raster.
fn read_part<'a>(lines: Lines<'a>) -> Result<(UnionGrid, Lines<'a>), ReportFault>
    ensures sound { IfOk result (λ found. lines.entry.rest.now ≡ grid_line found.0 ++ found.1.rest.now) }
    ensures back { (part : PartOf) (rest : List ℕ) → IsPart part → lines.entry.rest.now ≡ part_line part ++ rest → MatchResult result (λ found. (found.0 ≡ UnionGrid.Dem part) × (found.1.rest.now ≡ rest)) (λ _. ⊥) }
    ensures place { (feeds : ℕ) → feeds < 2 ^ 63 → IsAt feeds lines.entry.number lines.entry.rest.now → MatchResult result (λ found. IsPast feeds lines.entry.number found.1.number found.1.rest.now) (IsLineFault feeds lines.entry.number) }
{
    let mut numbers = [0i64; 10];
    let (part, next): (DemPart, Lines<'a>) = match read_fact(lines, "dem", &mut numbers) {
        Ok(read) => read,
        Err(fault) => return Err(fault),
    };
    Ok((UnionGrid::Dem(part), next))
}

/// Reads the line of a grid.
pub fn read_grid<'a>(lines: Lines<'a>) -> Result<(UnionGrid, Lines<'a>), ReportFault>
    ensures sound { IfOk result (λ found. lines.entry.rest.now ≡ grid_line found.0 ++ found.1.rest.now) }
    ensures back { (grid : GridOf) (rest : List ℕ) → GridFits grid → lines.entry.rest.now ≡ grid_line grid ++ rest → MatchResult result (λ found. (found.0 ≡ grid) × (found.1.rest.now ≡ rest)) (λ _. ⊥) }
    ensures place { (feeds : ℕ) → feeds < 2 ^ 63 → IsAt feeds lines.entry.number lines.entry.rest.now → MatchResult result (λ found. IsPast feeds lines.entry.number found.1.number found.1.rest.now) (IsLineFault feeds lines.entry.number) }
{
    let mut numbers = [0i64; 1];
    let next = match read_line(lines, "side", &mut numbers) {
        Ok(next) => next,
        Err(_) => return read_part(lines),
    };
    let Some(side) = u32::from_numbers(&numbers) else {
        return Err(ReportFault::OutOfRange(lines.number));
    };
    Ok((UnionGrid::Tiles(side), next))
}

/// Appends the line of a part of a raster.
fn push_part(text: &mut Vec<u8>, part: &DemPart) -> Result<(), OutOfMemory>
    ensures written { OnOk result (text.new.items ≡ text.old.items ++ part_line part.now) }
    ensures in_range { IsPart part.now }
{
    let numbers = [
        i64::from(part.at.row),
        i64::from(part.at.col),
        part.ulx.units,
        part.ulx.parts,
        part.uly.units,
        part.uly.parts,
        part.xdim.units,
        part.xdim.parts,
        part.ydim.units,
        part.ydim.parts,
    ];
    push_line(text, "dem", &numbers)
}

/// Appends the line of a grid.
pub fn push_grid(text: &mut Vec<u8>, grid: &UnionGrid) -> Result<(), OutOfMemory>
    ensures written { OnOk result (text.new.items ≡ text.old.items ++ grid_line grid.now) }
    ensures in_range { GridFits grid.now }
{
    match grid {
        UnionGrid::Tiles(side) => push_count(text, "side", *side),
        UnionGrid::Dem(part) => push_part(text, part),
    }
}
