//! The inputs of a check, made from small arrays of numbers.

use crate::bytes::Bytes;
use drain_grid::SetProduct;

/// A tile's name and its bytes.
#[derive(Clone, Copy)]
pub struct TileBytes {
    pub name: Bytes,
    pub body: Bytes,
}

/// A product's header and the bytes of its raster.
#[derive(Clone, Copy)]
pub struct RasterBytes {
    pub header: Bytes,
    pub body: Bytes,
}

/// The given number of first tiles, the list of sinks, and their products.
#[derive(Clone, Copy)]
pub struct Example {
    pub side: u32,
    pub tiles: [TileBytes; 3],
    pub tile_count: usize,
    pub sinks: Bytes,
    pub con: RasterBytes,
    pub dir: RasterBytes,
    pub acc: RasterBytes,
    pub bas: RasterBytes,
    pub rnk: RasterBytes,
}

impl Example {
    pub fn tiles(&self) -> &[TileBytes] {
        self.tiles.get(..self.tile_count).unwrap_or(&[])
    }

    /// The same with this list of sinks.
    pub fn listing(self, text: &str) -> Example {
        self.with_sinks(Bytes::of(text.as_bytes()))
    }

    /// The same with a list of these bytes.
    pub fn with_sinks(mut self, sinks: Bytes) -> Example {
        self.sinks = sinks;
        self
    }

    /// Appends a tile. If there is no room for it, it has none.
    pub fn push_tile(&mut self, tile: TileBytes) {
        if let Some(place) = self.tiles.get_mut(self.tile_count) {
            *place = tile;
        }
        self.tile_count = self.tile_count.saturating_add(1);
    }

    pub fn raster(&self, product: SetProduct) -> &RasterBytes {
        match product {
            SetProduct::Con => &self.con,
            SetProduct::Dir => &self.dir,
            SetProduct::Acc => &self.acc,
            SetProduct::Bas => &self.bas,
            SetProduct::Rnk => &self.rnk,
        }
    }

    pub fn raster_mut(&mut self, product: SetProduct) -> &mut RasterBytes {
        match product {
            SetProduct::Con => &mut self.con,
            SetProduct::Dir => &mut self.dir,
            SetProduct::Acc => &mut self.acc,
            SetProduct::Bas => &mut self.bas,
            SetProduct::Rnk => &mut self.rnk,
        }
    }
}

/// The lines of a header for the tile N00E000 of this side; of side 4 if it is another than 2 or 3.
pub fn grid_of(side: u32) -> &'static str {
    match side {
        2 => "NROWS 2\nNCOLS 2\nULXMAP 0\nULYMAP 1\nXDIM 1\nYDIM 1\n",
        3 => "NROWS 3\nNCOLS 3\nULXMAP 0\nULYMAP 1\nXDIM 0.5\nYDIM 0.5\n",
        _ =>
            "NROWS 4\nNCOLS 4\nULXMAP 0\nULYMAP 1\nXDIM 0.333333333333333\nYDIM 0.333333333333333\n",
    }
}

/// The lines of a header on a product's pixels.
fn pixels_of(product: SetProduct) -> &'static str {
    match product {
        SetProduct::Con => "BYTEORDER I\nNBITS 16\nPIXELTYPE SIGNEDINT\n",
        SetProduct::Dir => "BYTEORDER I\nNBITS 8\n",
        _ => "BYTEORDER I\nNBITS 32\nPIXELTYPE UNSIGNEDINT\n",
    }
}

/// A product's header with these lines on its grid.
pub fn header_on(product: SetProduct, grid: &str) -> Bytes {
    let mut header = Bytes::of(grid.as_bytes());
    header.extend(pixels_of(product).as_bytes());
    header
}

/// A tile of these samples, each with its most significant byte first.
pub fn tile(name: &str, samples: &[i64]) -> TileBytes {
    let mut body = Bytes::new();
    for sample in samples {
        let bytes = sample.to_be_bytes();
        body.extend(&bytes[6..]);
    }
    TileBytes {
        name: Bytes::of(name.as_bytes()),
        body,
    }
}

/// A number as a product's pixel, its least significant byte first.
fn push_pixel(body: &mut Bytes, product: SetProduct, number: i64) {
    let bytes = number.to_le_bytes();
    match product {
        SetProduct::Con => body.extend(&bytes[..2]),
        SetProduct::Dir => body.extend(&bytes[..1]),
        _ => body.extend(&bytes[..4]),
    }
}

fn raster(product: SetProduct, grid: &str, numbers: &[i64]) -> RasterBytes {
    let mut body = Bytes::new();
    for number in numbers {
        push_pixel(&mut body, product, *number);
    }
    RasterBytes {
        header: header_on(product, grid),
        body,
    }
}

/// Products of these numbers, one product after the other, and no tile yet.
pub fn products_on(side: u32, grid: &str, numbers: &[i64]) -> Example {
    let cells = numbers.len() / 5;
    Example {
        side,
        tiles: [tile("", &[]); 3],
        tile_count: 0,
        sinks: Bytes::new(),
        con: raster(SetProduct::Con, grid, &numbers[..cells]),
        dir: raster(SetProduct::Dir, grid, &numbers[cells..2 * cells]),
        acc: raster(SetProduct::Acc, grid, &numbers[2 * cells..3 * cells]),
        bas: raster(SetProduct::Bas, grid, &numbers[3 * cells..4 * cells]),
        rnk: raster(SetProduct::Rnk, grid, &numbers[4 * cells..]),
    }
}

/// A tile and its products with these lines of a header on their grid: the samples, then the numbers of one product after the other.
pub fn tile_on(side: u32, name: &str, grid: &str, numbers: &[i64]) -> Example {
    let cells = numbers.len() / 6;
    let mut example = products_on(side, grid, &numbers[cells..]);
    example.push_tile(tile(name, &numbers[..cells]));
    example
}

/// The tile N00E000 and its products.
pub fn one_tile(side: u32, numbers: &[i64]) -> Example {
    tile_on(side, "N00E000.hgt", grid_of(side), numbers)
}

/// The numbers with others in some of their places.
pub fn changed<const N: usize>(numbers: &[i64; N], changes: &[(usize, i64)]) -> [i64; N] {
    let mut copy = *numbers;
    for &(place, number) in changes {
        if let Some(found) = copy.get_mut(place) {
            *found = number;
        }
    }
    copy
}
