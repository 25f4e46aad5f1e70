//! Why there is no verdict.

use drain_grid::{Cell, Product};
use drain_header::HeaderFault;
use drain_hgt::TileName;
use thiserror::Error;

/// Why there is no verdict, in the order in which refusals are reported. Those of one product's header come before
/// those of the next.
#[derive(Clone, Copy, PartialEq, Eq, Debug, Error)]
pub enum Refusal {
    /// No tile has this number of samples along an edge.
    #[error("no tile has this side")]
    BadSide,
    /// The name in this place, counted from 0, names no tile.
    #[error("a name is no tile's")]
    BadName(usize),
    /// No tile is named.
    #[error("no tile is named")]
    NoTiles,
    /// The tile was named before.
    #[error("a tile is named twice")]
    RepeatedTile(TileName),
    /// The tiles lie further apart than 8 by 8.
    #[error("the tiles lie too far apart")]
    BoxTooLarge,
    /// The product's header has this fault.
    #[error("a header has a fault")]
    BadHeader(Product, HeaderFault),
    /// The product has other rows or columns than the mosaic.
    #[error("a product has another shape")]
    WrongShape(Product),
    /// The product has another place than the mosaic.
    #[error("a product lies elsewhere")]
    Misplaced(Product),
    /// The tile has another number of bytes.
    #[error("a tile has another length")]
    BadTileLength(TileName),
    /// A byte of some pixel of the product is missing.
    #[error("a raster is too short")]
    RasterShort(Product),
    /// Two tiles give the cell different values.
    #[error("two tiles differ at a cell")]
    SeamMismatch(Cell),
    /// This line of the list of sinks, counted from 1, is not a row and a column.
    #[error("a line is not a row and a column")]
    BadSinkLine(u64),
    /// This line of the list of sinks, counted from 1, lists a cell without data: a void, or outside the mosaic.
    #[error("a listed sink is no data cell")]
    SinkNotData(u64),
    /// This line of the text of spacings, counted from 1, is not a width and a height.
    #[error("a line is not a width and a height")]
    BadSpacingLine(u64),
    /// The text of spacings lists this number of rows, and the mosaic has another.
    #[error("other rows are listed than there are")]
    SpacingRows(u64),
    /// The header of the one raster of elevations has this fault. It comes before all else, in place of the refusals of
    /// sides, names and layouts.
    #[error("the header of the elevations has a fault")]
    BadDemHeader(HeaderFault),
    /// Its XDIM or YDIM is not above 0. It comes before the headers of products.
    #[error("the pixels of the elevations have no size")]
    BadPixelSize,
    /// A byte of some pixel of it is missing. It comes where a tile's length does.
    #[error("the elevations are too short")]
    DemShort,
    /// Memory was refused.
    #[error("out of memory")]
    OutOfMemory,
    /// A source failed, or was interrupted for the 1,000th time.
    #[error("the read failed")]
    ReadFailed,
}
