//! The details of a refusal: what was expected and found in refused inputs.

use drain_grid::{HeightKind, Product};
use drain_header::Place;
use drain_hgt::TileName;

/// How many bytes of a bad line of a list are shown.
pub const SHOWN_BYTES: usize = 80;

/// The details of a refusal beyond its line.
#[derive(Drop)]
pub enum RefusalDetail {
    /// `BadSide`: the given side, where 2 to 3601 are sides.
    Side(u32),
    /// `BadName`: the name as given, in place of one such as N36W085.hgt.
    Name(Vec<u8>),
    /// `WrongShape`: the rows and columns of the elevations, and those of the product's header.
    Shape {
        product: Product,
        expected: Extent,
        found: Extent,
    },
    /// `Misplaced`: the centre of the north-west pixel and the sizes of a pixel, of the elevations and of the product's
    /// header, in units of 10^-15 degree, or of 10^-15 of the unit of a raster of elevations.
    Position {
        product: Product,
        expected: Place,
        found: Place,
    },
    /// `BadTileLength`: the bytes that a tile of this side has, and those of the file.
    TileLength {
        tile: TileName,
        expected: u64,
        found: u64,
    },
    /// `RasterShort`: the bytes that the raster needs by its header, and those of the file.
    RasterLength {
        product: Product,
        expected: u64,
        found: u64,
    },
    /// `SeamMismatch`: the first tile with data at the cell and its height there, and the first that has another.
    Seam {
        first: TileValue,
        other: TileValue,
    },
    /// `BadSinkLine`: the first `SHOWN_BYTES` bytes of the line as in the list, or all of a shorter one, and how many
    /// bytes the line has.
    SinkLine {
        number: u64,
        start: Vec<u8>,
        bytes: u64,
    },
    /// `SinkNotData`: the cell that the line lists, by row and column, and why it isn't a data cell.
    SinkCell {
        number: u64,
        row: u64,
        col: u64,
        why: NotData,
    },
    /// `BadSpacingLine`: the same of a line of a spacing by row.
    SpacingLine {
        number: u64,
        start: Vec<u8>,
        bytes: u64,
    },
    /// `SpacingRows`: the rows of the elevations, and how many the spacing by row lists.
    SpacingRows {
        expected: u32,
        found: u64,
    },
    /// `BadPixelSize`: the width and the height of a pixel by the header of the raster of elevations, in units of 10^-15
    /// of its own, where those above 0 are sizes.
    PixelSize {
        xdim: i128,
        ydim: i128,
    },
    /// `DemShort`: the bytes that the raster of elevations needs by its header, and those of the file.
    DemLength {
        expected: u64,
        found: u64,
    },
    /// `BadHeader` of con on a raster of elevations: the kind of the elevations, and the other one, which con's header
    /// says.
    Kind {
        expected: HeightKind,
        found: HeightKind,
    },
}

/// Rows and columns.
#[derive(Clone, Copy)]
pub struct Extent {
    pub rows: u32,
    pub cols: u32,
}

/// The height of a tile at a cell.
#[derive(Clone, Copy)]
pub struct TileValue {
    pub tile: TileName,
    pub metres: i16,
}

/// Why a listed cell isn't a data cell.
#[derive(Clone, Copy)]
pub enum NotData {
    /// It is a void.
    Void,
    /// It is outside the grid.
    Outside,
}
