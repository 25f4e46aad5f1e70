//! Where the cells of a page lie: on a mosaic of tiles by longitude and latitude, on a raster of elevations by the
//! coordinates of its header; and the words for both.

ghost use Rattle.std.specs.Prelude.{◌≡◌, ◌+ℤ◌, ◌-ℤ◌, ◌*ℤ◌, pos};

use crate::degrees::{Degrees, latitude, longitude};
use crate::names::{DECIMAL_LENGTH, units_text};
use arrayvec::ArrayString;
use drain_grid::{HeightKind, Shape};
use drain_header::Header;
use drain_mosaic::Layout;
use drain_raster::shape;

/// How far east or north a cell's centre lies.
#[derive(Clone, Copy)]
pub enum Coordinate {
    /// On a mosaic.
    Degrees(Degrees),
    /// On a raster of elevations, in units of 10^-15 of its header's unit.
    Units(i128),
}

impl Coordinate {
    /// As it is printed: degrees with seven places after the point, the header's unit with fifteen.
    pub(crate) fn text(self) -> ArrayString<DECIMAL_LENGTH> {
        match self {
            Coordinate::Degrees(degrees) => degrees.text(),
            Coordinate::Units(units) => units_text(units),
        }
    }
}

/// The words of a page.
#[derive(Clone, Copy)]
pub struct Words {
    /// What has an edge: the mosaic or the raster.
    pub whole: &'static str,
    /// How far east a cell lies.
    pub east: &'static str,
    /// How far north.
    pub north: &'static str,
    /// The line of headings above the rules that fail, as wide as the lines below it.
    pub headings: &'static str,
    /// Whether coordinates have fifteen places, and take 26 columns or more.
    pub is_wide: bool,
    /// Whether the grid lies in degrees, so that its cells aren't square on the ground.
    pub is_in_degrees: bool,
    /// Whether the least and the greatest elevation are printed.
    pub has_elevations: bool,
}

/// Where a grid lies, for its page.
pub trait Frame {
    ghost use Rattle.drain_page.specs.Names.{ℕ, HeightKind};
    ghost use Rattle.drain_page.specs.declared.frame.Coordinate.{Coordinate};

    /// What numbers of its heights stand for.
    ghost heights: { Self → HeightKind };

    /// The cells of this column lie so far east.
    ghost lies_east: { Self → ℕ → Coordinate → Type 0 };

    /// The cells of this row lie so far north.
    ghost lies_north: { Self → ℕ → Coordinate → Type 0 };

    /// What numbers of its heights stand for.
    fn height_kind(&self) -> HeightKind
        ensures { result ≡ heights self.now };

    /// Its rows and columns.
    fn shape(&self) -> Shape;

    /// How far east the cells of a column lie.
    fn east(&self, col: u32) -> Coordinate
        ensures { lies_east self.now col result };

    /// How far north the cells of a row lie.
    fn north(&self, row: u32) -> Coordinate
        ensures { lies_north self.now row result };

    /// The words of its page.
    fn words() -> Words;
}

impl Frame for Layout {
    ghost use Rattle.drain_grid.specs.declared.height_kind.HeightKind.{HeightKind};
    ghost use Rattle.drain_page.specs.Places.{IsLatitude, IsLongitude};

    ghost heights = { λ layout. HeightKind.Whole };

    ghost lies_east = { IsLongitude };

    ghost lies_north = { IsLatitude };

    fn height_kind(&self) -> HeightKind {
        HeightKind::Whole
    }

    fn shape(&self) -> Shape {
        self.shape()
    }

    fn east(&self, col: u32) -> Coordinate {
        Coordinate::Degrees(longitude(self, col))
    }

    fn north(&self, row: u32) -> Coordinate {
        Coordinate::Degrees(latitude(self, row))
    }

    fn words() -> Words {
        Words {
            whole: "mosaic",
            east: "longitude",
            north: "latitude",
            headings: "rule                cells    row column     longitude      latitude\n",
            is_wide: false,
            is_in_degrees: true,
            has_elevations: false,
        }
    }
}

impl Frame for Header {
    ghost use Rattle.drain_page.specs.Places.{IsX, IsY};

    ghost heights = { λ header. header.kind };

    ghost lies_east = { IsX };

    ghost lies_north = { IsY };

    fn height_kind(&self) -> HeightKind {
        self.kind
    }

    fn shape(&self) -> Shape {
        shape(self)
    }

    fn east(&self, col: u32) -> Coordinate {
        Coordinate::Units(x_of(self, col))
    }

    fn north(&self, row: u32) -> Coordinate {
        Coordinate::Units(y_of(self, row))
    }

    fn words() -> Words {
        Words {
            whole: "raster",
            east: "x",
            north: "y",
            headings: "rule                cells    row column                         x                         y\n",
            is_wide: true,
            is_in_degrees: false,
            has_elevations: true,
        }
    }
}

/// How far east the centres of a column's cells lie, in units of 10^-15 of the header's unit.
pub fn x_of(header: &Header, col: u32) -> i128
    ensures { result ≡ header.now.place.ulx +ℤ (pos col *ℤ header.now.place.xdim) }
{
    header.place.ulx + i128::from(col) * header.place.xdim
}

/// How far north the centres of a row's cells lie, likewise.
pub fn y_of(header: &Header, row: u32) -> i128
    ensures { result ≡ header.now.place.uly -ℤ (pos row *ℤ header.now.place.ydim) }
{
    header.place.uly - i128::from(row) * header.place.ydim
}
