//! What standard error says of refusals that a slip in the command line may have caused. The line on standard output is
//! the same with it.

use drain_answer::outcome::Status;
use drain_device::ByteSource;
use drain_explain::refused::{kind_detail, shape_detail, text_of};
use drain_explain::{Extent, RefusalDetail};
use drain_files::open_judged::OpenElevations;
use drain_grid::{HeightKind, PerProduct, Product};
use drain_hgt::TileInput;
use drain_verdict::ground::GroundInput;
use drain_verdict::stages::{layout_of, read_headers};
use drain_verdict::{RasterInput, Refusal, dem_header};
use std::alloc::Global;

/// A product that was refused since it has other rows or columns than the elevations.
#[derive(Clone, Copy)]
pub struct OtherShape {
    pub product: Product,
    pub expected: Extent,
    pub found: Extent,
    pub hint: &'static str,
}

impl OtherShape {
    /// Says what was found, and what was expected.
    pub fn print(&self, rt: &HostRuntime) {
        let name = self.product.name();
        let (rows, cols) = (self.expected.rows, self.expected.cols);
        let (found_rows, found_cols) = (self.found.rows, self.found.cols);
        let hint = self.hint;
        let _ = eprintln!(rt;
            "error: {name}: it has {found_rows} rows and {found_cols} columns, and the elevations have {rows} and {cols}{hint}"
        );
    }
}

/// The product with another shape, if a run that ended with this status was refused for one; of tiles their side may be
/// another.
pub fn other_shape<R: ByteSource>(
    alloc: Global,
    status: u8,
    elevations: &OpenElevations<R>,
    headers: &PerProduct<&[u8]>,
) -> Option<OtherShape> {
    if status != Status::Refused.code() {
        return None;
    }
    match elevations {
        OpenElevations::Tiles(open) => {
            let layout = layout_of(alloc, open.side, open.tiles.as_slice()).ok()?;
            other_shape_on::<R, TileInput<R>>(&layout, headers, ": is --side right?")
        }
        OpenElevations::Dem(dem) => {
            let header = dem_header(&dem[0]).ok()?;
            other_shape_on::<R, RasterInput<R>>(&header, headers, "")
        }
    }
}

/// The same on elevations with this frame.
fn other_shape_on<R: ByteSource, T: GroundInput<R>>(
    frame: &T::Frame,
    headers: &PerProduct<&[u8]>,
    hint: &'static str,
) -> Option<OtherShape> {
    let Err(Refusal::WrongShape(product)) = read_headers::<R, T>(frame, headers) else {
        return None;
    };
    let kind = T::height_kind(frame);
    let detail = shape_detail(kind, T::shape(frame), product, text_of(headers, product))?;
    let RefusalDetail::Shape {
        product,
        expected,
        found,
    } = detail
    else {
        return None;
    };
    Some(OtherShape {
        product,
        expected,
        found,
        hint,
    })
}

/// A con that was refused since its numbers are of another kind than those of the raster of elevations.
#[derive(Clone, Copy)]
pub struct OtherKind {
    pub expected: HeightKind,
}

impl OtherKind {
    /// Says what both are, and what to write.
    pub fn print(&self, rt: &HostRuntime) {
        let words = match self.expected {
            HeightKind::Single => {
                "the DEM has floats, and con whole numbers: write con as PIXELTYPE FLOAT with NBITS 32"
            }
            HeightKind::Whole => {
                "the DEM has whole numbers, and con floats: write con as PIXELTYPE SIGNEDINT or UNSIGNEDINT"
            }
        };
        let _ = eprintln!(rt; "error: con: {words}");
    }
}

/// That con, if a run that ended with this status was refused for its header.
pub fn other_kind<R: ByteSource>(
    status: u8,
    elevations: &OpenElevations<R>,
    headers: &PerProduct<&[u8]>,
) -> Option<OtherKind> {
    let OpenElevations::Dem(dem) = elevations else {
        return None;
    };
    if status != Status::Refused.code() {
        return None;
    }
    let header = dem_header(&dem[0]).ok()?;
    let refused = read_headers::<R, RasterInput<R>>(&header, headers);
    let Err(Refusal::BadHeader(product, fault)) = refused else {
        return None;
    };
    let text = text_of(headers, product);
    match kind_detail(header.kind, product, fault, text)? {
        RefusalDetail::Kind { expected, .. } => Some(OtherKind { expected }),
        _ => None,
    }
}

/// If the text of a header was refused and its file has the name of a raster, says so.
pub fn print_raster_as_header(rt: &HostRuntime, status: u8, path: &str) {
    if status == Status::Refused.code() && is_raster_name(path) {
        let _ = eprintln!(rt;
            "error: {path}: it is named as a raster: its header is the file that ends in .hdr"
        );
    }
}

/// Whether the name is that of a raster.
fn is_raster_name(path: &str) -> bool {
    path.ends_with(".bil") || path.ends_with(".BIL")
}
