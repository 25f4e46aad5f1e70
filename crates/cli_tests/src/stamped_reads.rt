//! Inputs advance together: no source gives a row's first byte long before the others have given the rows above it.

ghost use Rattle.std.specs.Prelude.{None};
ghost use Rattle.drain_device.specs.Counts.{no_faults};

use crate::inputs::Tile;
use crate::making::make;
use crate::printed::{Printed, check_printed, empty_files, files_of, whole_sink};
use drain_cli::runs::judge::run_audit;
use drain_device::{ByteList, ByteSource, DeviceFault, SliceSource, VecSink};
use drain_grid::{PerProduct, SetProduct};
use drain_hgt::TileInput;
use drain_verdict::{AuditProducts, Products, RasterInput};
use std::alloc::{AllocError, Global};
use std::cell::Cell;
use std::process::Abort;
use std::test::Fail;

/// How many rows and columns a tile has. Each product has as many rows.
const SIDE: usize = 64;

/// A tile of zeros.
const ZEROS: [u8; 2 * SIDE * SIDE] = [0; 2 * SIDE * SIDE];

/// Two tiles of zeros, side by side.
static TILES: [Tile<'static>; 2] = [
    Tile {
        name: "N00E000.hgt",
        bytes: &ZEROS,
    },
    Tile {
        name: "N00E001.hgt",
        bytes: &ZEROS,
    },
];

/// For each row a number of the common clock.
type Stamps = [u64; SIDE];

/// The stamps of each row's first byte, and of its last.
type Given = (Stamps, Stamps);

/// A source that gives one byte a call. For each row it notes when the first byte and when the last was given.
#[derive(Drop)]
struct Stamped<'a> {
    rest: &'a [u8],
    row_len: usize,
    given: usize,
    clock: &'a Cell<u64>,
    first: Stamps,
    last: Stamps,
}

impl<'a> Stamped<'a> {
    fn new(bytes: &'a [u8], clock: &'a Cell<u64>) -> Stamped<'a> {
        Stamped {
            rest: bytes,
            row_len: bytes.len() / SIDE,
            given: 0,
            clock,
            first: [0; SIDE],
            last: [0; SIDE],
        }
    }

    /// Notes that the next byte was given.
    fn stamp(&mut self) {
        let now = self.clock.get().saturating_add(1);
        self.clock.set(now);
        let row = self.given.checked_div(self.row_len).unwrap_or(0);
        if let Some(first) = self.first.get_mut(row) {
            if *first == 0 {
                *first = now;
            }
        }
        if let Some(last) = self.last.get_mut(row) {
            *last = now;
        }
        self.given = self.given.saturating_add(1);
    }
}

impl ByteSource for Stamped<'_> {
    ghost bytes_left = { λ s. None };

    ghost counts = { λ s. no_faults };

    fn read_some(&mut self, out: &mut [u8]) -> Result<usize, DeviceFault> {
        let Some((byte, rest)) = self.rest.split_first() else {
            return Ok(0);
        };
        let Some(slot) = out.first_mut() else {
            return Ok(0);
        };
        *slot = *byte;
        self.rest = rest;
        self.stamp();
        Ok(1)
    }

    fn failures(&self) -> u64 {
        0
    }

    fn interruptions(&self) -> u64 {
        0
    }
}

/// The files of the products that are made of the tiles.
fn made(alloc: Global) -> Result<Vec<VecSink>, Fail> {
    let mut files = empty_files(alloc, 8 * SIDE * SIDE)?;
    let run = make(alloc, 64, &TILES, &[], files.as_mut_slice())?;
    match run.status {
        0 => Ok(files),
        _ => Err("the files were not made and written".into()),
    }
}

/// Files of products that are read by one clock.
#[derive(Clone, Copy)]
struct Watched<'a> {
    files: &'a [VecSink],
    clock: &'a Cell<u64>,
}

impl<'a> Watched<'a> {
    fn new(files: &'a [VecSink], clock: &'a Cell<u64>) -> Watched<'a> {
        Watched { files, clock }
    }
}

/// A product whose header and raster are among the files.
fn product_of<'a>(
    alloc: Global,
    watched: Watched<'a>,
    product: SetProduct,
) -> Result<RasterInput<Stamped<'a>>, Fail> {
    let (header, raster) = files_of(watched.files, product)?;
    Ok(RasterInput {
        header: ByteList::new(Vec::from_slice(alloc, header)?),
        body: Stamped::new(raster, watched.clock),
    })
}

/// The products whose headers and rasters are the files.
fn products<'a>(alloc: Global, watched: Watched<'a>) -> Result<Products<Stamped<'a>>, Fail> {
    let input = |product: SetProduct| -> Result<RasterInput<Stamped<'_>>, Fail> {
        product_of(alloc, watched, product)
    };
    PerProduct::from_each(&input)
}

/// The products of an audit among those of a check.
fn without_ranks<'a>(products: Products<Stamped<'a>>) -> AuditProducts<Stamped<'a>> {
    let Products {
        con,
        dir,
        acc,
        bas,
        rnk: _,
    } = products;
    AuditProducts { con, dir, acc, bas }
}

/// One of the tiles, as a source.
fn tile<'a>(
    alloc: Global,
    tile: &Tile<'a>,
    clock: &'a Cell<u64>,
) -> Result<TileInput<Stamped<'a>>, AllocError> {
    Ok(TileInput {
        name: ByteList::new(Vec::from_slice(alloc, tile.name.as_bytes())?),
        body: Stamped::new(tile.bytes, clock),
    })
}

/// Both tiles.
fn tiles<'a>(
    alloc: Global,
    clock: &'a Cell<u64>,
) -> Result<[TileInput<Stamped<'a>>; 2], AllocError> {
    let west = tile(alloc, &TILES[0], clock)?;
    let east = tile(alloc, &TILES[1], clock)?;
    Ok([west, east])
}

/// The stamps of a source.
fn stamps_of(source: &Stamped<'_>) -> Given {
    (source.first, source.last)
}

/// The stamps of the tiles and of the products of an audit.
fn stamps_of_audited(
    [west, east]: &[TileInput<Stamped<'_>>; 2],
    products: &AuditProducts<Stamped<'_>>,
) -> [Given; 6] {
    [
        stamps_of(&west.body),
        stamps_of(&east.body),
        stamps_of(&products.con.body),
        stamps_of(&products.dir.body),
        stamps_of(&products.acc.body),
        stamps_of(&products.bas.body),
    ]
}

/// The stamps of the tiles and of each product, after a check.
fn checked<'a>(
    alloc: Global,
    clock: &'a Cell<u64>,
    mut products: Products<Stamped<'a>>,
) -> Result<[Given; 7], Fail> {
    let mut tiles = tiles(alloc, clock)?;
    let run = check_printed(alloc, 64, &mut tiles, &[], &mut products)?;
    if run.status != 0 {
        return Err("not accepted".into());
    }
    let rnk = stamps_of(&products.rnk.body);
    let [west, east, con, dir, acc, bas] = stamps_of_audited(&tiles, &without_ranks(products));
    Ok([west, east, con, dir, acc, bas, rnk])
}

/// The same after an audit.
fn audited<'a>(
    alloc: Global,
    clock: &'a Cell<u64>,
    products: &mut AuditProducts<Stamped<'a>>,
) -> Result<[Given; 6], Fail> {
    let mut tiles = tiles(alloc, clock)?;
    let mut out = whole_sink(alloc)?;
    let status = run_audit(alloc, 64, &mut tiles, &[], products, &mut out);
    let run = Printed::new(out.as_slice(), status)?;
    if run.status != 0 {
        return Err("not accepted".into());
    }
    Ok(stamps_of_audited(&tiles, products))
}

/// The stamps of a check of the tiles with these files.
fn stamps_of_a_check(alloc: Global, files: &[VecSink]) -> Result<[Given; 7], Fail> {
    let clock = Cell::new(0);
    let products = products(alloc, Watched::new(files, &clock))?;
    checked(alloc, &clock, products)
}

/// The stamps of an audit of the tiles with these files.
fn stamps_of_an_audit(alloc: Global, files: &[VecSink]) -> Result<[Given; 6], Fail> {
    let clock = Cell::new(0);
    let products = products(alloc, Watched::new(files, &clock))?;
    audited(alloc, &clock, &mut without_ranks(products))
}

/// The first row of which a source gave a byte before the other had given the last of the row four above.
fn too_early(first: &Stamps, last: &Stamps) -> Option<usize> {
    (4..SIDE).find(|&row| first[row] <= last[row - 4] || last[row - 4] == 0)
}

/// Fails the test if a source was read four rows ahead of another.
fn advance_together(rt: &impl Abort, stamps: &[Given]) {
    for (k, (first, _)) in stamps.iter().enumerate() {
        for (j, (_, last)) in stamps.iter().enumerate() {
            assert_eq!(rt; too_early(first, last), None, "{k} {j}");
        }
    }
}

#[test]
fn no_source_of_a_check_is_four_rows_ahead_of_another(rt: HostRuntime) -> Result<(), Fail> {
    let files = made(rt.alloc())?;
    let stamps = stamps_of_a_check(rt.alloc(), files.as_slice())?;
    advance_together(&rt, &stamps);
    Ok(())
}

#[test]
fn no_source_of_an_audit_is_four_rows_ahead_of_another(rt: HostRuntime) -> Result<(), Fail> {
    let files = made(rt.alloc())?;
    let stamps = stamps_of_an_audit(rt.alloc(), files.as_slice())?;
    advance_together(&rt, &stamps);
    Ok(())
}
