//! The bytes that C passes in: each slice is a pointer and a length there.

/// Bytes. Where C had NULL for them, there are none, and `missing` is how many there should be.
#[derive(Clone, Copy)]
#[repr(C)]
pub struct GivenBytes<'a> {
    pub bytes: &'a [u8],
    pub missing: usize,
}

/// A tile: its name, as N36W085.hgt, and its samples, two bytes each, the high one first.
#[repr(C)]
pub struct TileBytes<'a> {
    pub name: GivenBytes<'a>,
    pub samples: GivenBytes<'a>,
}

/// A raster: the text of its header and the bytes of its pixels.
#[derive(Clone, Copy)]
#[repr(C)]
pub struct RasterBytes<'a> {
    pub header: GivenBytes<'a>,
    pub pixels: GivenBytes<'a>,
}

/// The five rasters of a set. Those that aren't judged aren't read.
#[derive(Clone, Copy)]
#[repr(C)]
pub struct CheckBytes<'a> {
    pub con: RasterBytes<'a>,
    pub dir: RasterBytes<'a>,
    pub acc: RasterBytes<'a>,
    pub bas: RasterBytes<'a>,
    pub rnk: RasterBytes<'a>,
}

/// How far apart cells are: a width and a height of all cells; or, where both are 0, a text with a line for each row.
#[derive(Clone, Copy)]
#[repr(C)]
pub struct SpacingBytes<'a> {
    pub width: u32,
    pub height: u32,
    pub widths: GivenBytes<'a>,
}

/// What C asks: over tiles of a side or, where `has_dem` isn't 0, over one raster of elevations; with a list of sinks and
/// how far apart cells are; the rasters, and the number of those that are judged.
#[derive(Clone, Copy)]
#[repr(C)]
pub struct Request<'a> {
    pub side: u32,
    pub has_dem: u32,
    pub tiles: &'a [TileBytes<'a>],
    pub dem: RasterBytes<'a>,
    pub sinks: GivenBytes<'a>,
    pub spacing: SpacingBytes<'a>,
    pub rasters: CheckBytes<'a>,
    pub judged: u32,
}
