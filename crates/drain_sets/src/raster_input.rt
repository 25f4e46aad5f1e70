//! The rasters of products as a call takes them: of each its header and the source of its bytes.

use drain_device::ByteList;
use drain_grid::PerProduct;

/// A product's whole header, and the source of its raster's bytes.
#[derive(Drop)]
pub struct RasterInput<R> {
    pub header: ByteList,
    pub body: R,
}

/// The products of one ground.
pub type Products<R> = PerProduct<RasterInput<R>>;

/// The products of an audit: all but the ranks.
#[derive(Drop)]
pub struct AuditProducts<R> {
    pub con: RasterInput<R>,
    pub dir: RasterInput<R>,
    pub acc: RasterInput<R>,
    pub bas: RasterInput<R>,
}
