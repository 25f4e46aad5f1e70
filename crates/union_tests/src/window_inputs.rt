//! Tiles and their products, in bytes.

use drain_device::{ByteList, SliceSource};
use drain_grid::{Spacing, SpacingInput};
use drain_hgt::TileInput;
use drain_verdict::{AuditProducts, Given, RasterInput};
use std::alloc::{AllocError, Global};
use std::test::Fail;

/// How far apart the cells are: of one width and height, or by a text with a line for each row.
#[derive(Clone, Copy)]
pub enum Cells<'a> {
    Of(u32, u32),
    ByRow(&'a str),
}

/// Tiles that all have these samples, their products, a list of sinks, and how far apart cells are.
#[derive(Clone, Copy)]
pub struct Inputs<'a> {
    pub side: u32,
    pub names: &'a [&'a str],
    pub samples: &'a [u8],
    /// The headers of the conditioned elevations, and of the other rasters.
    pub headers: (&'a str, &'a str),
    pub con: &'a [u8],
    pub dir: &'a [u8],
    pub acc: &'a [u8],
    pub bas: &'a [u8],
    pub sinks: &'a str,
    pub cells: Cells<'a>,
}

impl<'a> Inputs<'a> {
    /// The tiles as they are read.
    pub fn tiles(&self, alloc: Global) -> Result<Vec<TileInput<SliceSource<'a>>>, AllocError> {
        let mut tiles = Vec::new(alloc);
        for name in self.names {
            tiles.push(TileInput {
                name: list(alloc, name)?,
                body: SliceSource::new(self.samples),
            })?;
        }
        Ok(tiles)
    }

    /// The samples as those of a raster with this header.
    pub fn dem(
        &self,
        alloc: Global,
        header: &str,
    ) -> Result<[RasterInput<SliceSource<'a>>; 1], AllocError> {
        Ok([raster(alloc, header, self.samples)?])
    }

    /// What is given beside the rasters.
    pub fn given(&self) -> Result<Given<'a>, Fail> {
        let spacing = match self.cells {
            Cells::Of(width, height) => match Spacing::new(width, height) {
                Some(spacing) => SpacingInput::Same(spacing),
                None => return Err(Fail::new("a spacing")),
            },
            Cells::ByRow(text) => SpacingInput::ByRow(text.as_bytes()),
        };
        Ok(Given {
            sinks: self.sinks.as_bytes(),
            spacing,
        })
    }

    /// The products as they are read.
    pub fn products(&self, alloc: Global) -> Result<AuditProducts<SliceSource<'a>>, AllocError> {
        let (of_heights, of_numbers) = self.headers;
        Ok(AuditProducts {
            con: raster(alloc, of_heights, self.con)?,
            dir: raster(alloc, of_numbers, self.dir)?,
            acc: raster(alloc, of_numbers, self.acc)?,
            bas: raster(alloc, of_numbers, self.bas)?,
        })
    }
}

fn list(alloc: Global, text: &str) -> Result<ByteList, AllocError> {
    Ok(ByteList::new(text.as_bytes().to_vec(alloc)?))
}

fn raster<'a>(
    alloc: Global,
    header: &str,
    body: &'a [u8],
) -> Result<RasterInput<SliceSource<'a>>, AllocError> {
    Ok(RasterInput {
        header: list(alloc, header)?,
        body: SliceSource::new(body),
    })
}

/// The samples of the tile N00E000 of side 4, and the numbers of its four products.
#[derive(Clone, Copy)]
pub struct Slope {
    pub tile: [u8; 32],
    pub con: [u8; 32],
    pub dir: [u8; 16],
    pub acc: [u8; 16],
    pub bas: [u8; 16],
}

/// Each row falls to the east, and its last cell is an outlet.
pub fn right_slope() -> Slope {
    Slope {
        tile: [
            0, 4, 0, 3, 0, 2, 0, 1, 0, 4, 0, 3, 0, 2, 0, 1, 0, 4, 0, 3, 0, 2, 0, 1, 0, 4, 0, 3, 0,
            2, 0, 1,
        ],
        con: [
            4, 0, 3, 0, 2, 0, 1, 0, 4, 0, 3, 0, 2, 0, 1, 0, 4, 0, 3, 0, 2, 0, 1, 0, 4, 0, 3, 0, 2,
            0, 1, 0,
        ],
        dir: [1, 1, 1, 0, 1, 1, 1, 0, 1, 1, 1, 0, 1, 1, 1, 0],
        acc: [1, 2, 3, 4, 1, 2, 3, 4, 1, 2, 3, 4, 1, 2, 3, 4],
        bas: [9, 9, 9, 9, 2, 2, 2, 2, 8, 8, 8, 8, 1, 1, 1, 1],
    }
}

/// The headers of the slope's conditioned elevations, and of the other rasters.
const SLOPE_HEADERS: (&str, &str) = (
    "NROWS 4\nNCOLS 4\nULXMAP 0\nULYMAP 1\nXDIM 0.333333333333333\nYDIM 0.333333333333333\nBYTEORDER I\nNBITS 16\nPIXELTYPE SIGNEDINT\n",
    "NROWS 4\nNCOLS 4\nULXMAP 0\nULYMAP 1\nXDIM 0.333333333333333\nYDIM 0.333333333333333\nBYTEORDER I\nNBITS 8\n",
);

/// The header of a raster of elevations with the samples of the tile, most significant bytes first.
pub const SLOPE_DEM: &str =
    "NROWS 4\nNCOLS 4\nULXMAP -0.5\nULYMAP 1.000000000000001\nXDIM 0.333333333333333\nYDIM 30\nBYTEORDER M\nNBITS 16\nPIXELTYPE SIGNEDINT\n";

/// The headers of the products that lie on it.
pub const ON_SLOPE_DEM: (&str, &str) = (
    "NROWS 4\nNCOLS 4\nULXMAP -0.5\nULYMAP 1\nXDIM 0.333333333333333\nYDIM 30\nBYTEORDER I\nNBITS 16\nPIXELTYPE SIGNEDINT\n",
    "NROWS 4\nNCOLS 4\nULXMAP -0.5\nULYMAP 1\nXDIM 0.333333333333333\nYDIM 30\nBYTEORDER I\nNBITS 8\n",
);

/// The first of them with the line of the default no-data number.
pub const WITH_NODATA: &str =
    "NROWS 4\nNCOLS 4\nULXMAP 0\nULYMAP 1\nXDIM 0.333333333333333\nYDIM 0.333333333333333\nBYTEORDER I\nNBITS 16\nPIXELTYPE SIGNEDINT\nNODATA -32768\n";

impl Slope {
    /// The inputs, with this list of sinks.
    pub fn listing<'a>(&'a self, sinks: &'a str) -> Inputs<'a> {
        self.headed(SLOPE_HEADERS.0, sinks)
    }

    /// The inputs with headers of rasters that lie on the raster of elevations, and with this list of sinks.
    pub fn on_dem<'a>(&'a self, sinks: &'a str) -> Inputs<'a> {
        Inputs {
            headers: ON_SLOPE_DEM,
            ..self.listing(sinks)
        }
    }

    /// The inputs, with this header of con and this list of sinks.
    pub fn headed<'a>(&'a self, con_header: &'a str, sinks: &'a str) -> Inputs<'a> {
        Inputs {
            side: 4,
            names: &["N00E000.hgt"],
            samples: &self.tile,
            headers: (con_header, SLOPE_HEADERS.1),
            con: &self.con,
            dir: &self.dir,
            acc: &self.acc,
            bas: &self.bas,
            sinks,
            cells: Cells::Of(1, 1),
        }
    }
}

/// Two level tiles of side 2, the eastern one first: 2 rows of 3 outlets.
pub const LEVEL_TILES: Inputs = Inputs {
    side: 2,
    names: &["n00e001.HGT", "N00E000.hgt"],
    samples: &[0; 8],
    headers: (
        "NROWS 2\nNCOLS 3\nULXMAP 0\nULYMAP 1\nXDIM 1\nYDIM 1\nBYTEORDER I\nNBITS 16\nPIXELTYPE SIGNEDINT\n",
        "NROWS 2\nNCOLS 3\nULXMAP 0\nULYMAP 1\nXDIM 1\nYDIM 1\nBYTEORDER I\nNBITS 8\n",
    ),
    con: &[0; 12],
    dir: &[0; 6],
    acc: &[1; 6],
    bas: &[6, 5, 4, 3, 2, 1],
    sinks: "",
    cells: Cells::Of(1, 1),
};
