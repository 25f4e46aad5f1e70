//! Which rows of a file are counted, those of con in a check, those of elevations and of written rasters in `make`; and
//! where rows end among the bytes of a file.

ghost use Rattle.std.specs.Prelude.{◌≡◌, ◌+◌};
ghost use Rattle.drain_raster.specs.RasterRows.{packed_len};
ghost use Rattle.drain_progress.specs.Progress.{IsRowCount};

use crate::counted_device::CountedDevice;
use crate::progress::Progress;
use crate::progress_lines::Phase;
use drain_grid::SetProduct;
use drain_header::Header;
use drain_hgt::TileInput;
use drain_sets::header_on;

/// Which rows of a device are counted, where they end, how many rows there are before them, and how many in all.
#[derive(Clone, Copy)]
pub struct Rows {
    pub phase: Phase,
    pub ends: RowEnds,
    pub before: u32,
    pub all: u32,
}

/// The first row ends after the first number of bytes, and each further one the second number of bytes later.
#[derive(Clone, Copy)]
pub struct RowEnds {
    pub first: u64,
    pub each: u64,
}

impl RowEnds {
    /// How many rows end within this number of bytes. Rows of no bytes count as none.
    pub fn rows_within(&self, bytes: u64) -> u64
        ensures { IsRowCount self.now.first self.now.each bytes result }
    {
        let Some(after) = bytes.checked_sub(self.first) else {
            return 0;
        };
        match after.checked_div(self.each) {
            Some(further) => further.saturating_add(1),
            None => 0,
        }
    }
}

/// Where the rows of a raster with this header end.
pub fn raster_row_ends(header: &Header) -> RowEnds
    ensures first { result.first ≡ header.now.skip + packed_len header.now }
    ensures each { result.each ≡ header.now.row_bytes }
{
    let packed = u64::from(header.cols) * (u64::from(header.bits) / 8);
    RowEnds {
        first: u64::from(header.skip) + packed,
        each: u64::from(header.row_bytes),
    }
}

/// The rows of a raster that is read in this phase, by its header.
pub fn read_rows(phase: Phase, header: &Header) -> Rows {
    Rows {
        phase,
        ends: raster_row_ends(header),
        before: 0,
        all: header.rows,
    }
}

/// The rows of a product's raster to be written on elevations with this header, after those of the products before it.
pub fn written_rows(elevations: &Header, product: SetProduct) -> Rows {
    let header = header_on(elevations, product.product());
    let place: u32 = match product {
        SetProduct::Con => 0,
        SetProduct::Dir => 1,
        SetProduct::Acc => 2,
        SetProduct::Bas => 3,
        SetProduct::Rnk => 4,
    };
    Rows {
        phase: Phase::Writing,
        ends: raster_row_ends(&header),
        before: header.rows.saturating_mul(place),
        all: header.rows.saturating_mul(5),
    }
}

/// Has the rows of tiles of this side counted, which are read one after the other.
pub fn count_tiles<'a, S>(
    tiles: &mut [TileInput<CountedDevice<'a, S>>],
    side: u32,
    progress: &'a Progress<'a>,
) {
    let all = side.saturating_mul(u32::try_from(tiles.len()).unwrap_or(u32::MAX));
    let mut before: u32 = 0;
    for tile in tiles.iter_mut() {
        tile.body
            .count_by(progress.counter(tile_rows(side, before, all)));
        before = before.saturating_add(side);
    }
}

/// The rows of one tile with this number of rows, after those of the tiles before it.
fn tile_rows(side: u32, before: u32, all: u32) -> Rows {
    let row_bytes = 2 * u64::from(side);
    Rows {
        phase: Phase::Reading,
        ends: RowEnds {
            first: row_bytes,
            each: row_bytes,
        },
        before,
        all,
    }
}
