//! A part of a raster of elevations in the whole raster.

ghost use Rattle.std.specs.Prelude.{◌≡◌, ◌≤◌};
ghost use Rattle.drain_window.specs.Names.{pos, IsCoordinate, value_of};
ghost use Rattle.drain_window.specs.WindowAnswers.{IsPartOf};

use crate::window_ground::WindowGround;
use drain_device::ByteSource;
use drain_grid::{Cell, OutOfMemory};
use drain_header::Header;
use drain_hgt::TileName;
use drain_union::place::is_origin;
use drain_union::{Decimal, DemPart, UnionGrid};
use drain_verdict::RasterInput;
use std::alloc::Global;

impl<R: ByteSource> WindowGround<R> for RasterInput<R> {
    ghost use Rattle.drain_window.specs.Names.{IsOrigin};
    ghost use Rattle.drain_window.specs.WindowAnswers.{IsOfDem};

    type At = Cell;

    ghost in_range = { IsOrigin };

    ghost named = { λ at key inputs grid corners. IsOfDem at inputs grid corners };

    fn is_in_range(at: &Cell) -> bool {
        is_origin(*at)
    }

    fn in_union(
        alloc: Global,
        header: &Header,
        at: &Cell,
    ) -> Result<(Cell, UnionGrid, Vec<TileName>), OutOfMemory> {
        Ok((*at, UnionGrid::Dem(part(header, *at)), Vec::new(alloc)))
    }
}

/// The part of a raster that has this header and begins at this cell of the whole.
fn part(header: &Header, at: Cell) -> DemPart
    ensures { IsPartOf at header.now.place result }
{
    DemPart {
        at,
        ulx: decimal(header.place.ulx),
        uly: decimal(header.place.uly),
        xdim: decimal(header.place.xdim),
        ydim: decimal(header.place.ydim),
    }
}

/// Units of 10^-15 in one.
const UNITS: u128 = 1000000000000000;

/// A number of a header in units of 10^-15, as whole units and what is beyond them.
fn decimal(number: i128) -> Decimal
    requires { IsCoordinate number }
    ensures { value_of result ≡ number }
{
    let magnitude = number.unsigned_abs();
    let units = small(magnitude / UNITS);
    let parts = small(magnitude % UNITS);
    if number < 0 {
        Decimal {
            units: -units,
            parts: -parts,
        }
    } else {
        Decimal { units, parts }
    }
}

/// A number of less than 16 digits, as one with a sign.
fn small(number: u128) -> i64
    requires { number ≤ 1000000000000000 }
    ensures { result ≡ pos number }
{
    (number as u64) as i64
}
