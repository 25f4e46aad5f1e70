//! Why a raster is not read, or not written.

use drain_grid::Cell;
use thiserror::Error;

/// Why bytes are no raster.
#[derive(Clone, Copy, PartialEq, Eq, Debug, Error)]
pub enum RasterFault {
    /// A byte of some pixel is missing.
    #[error("the raster is too short")]
    Short,
    /// Out of memory for the numbers.
    #[error("out of memory")]
    OutOfMemory,
}

/// Why a raster is not written.
#[derive(Clone, Copy, PartialEq, Eq, Debug, Error)]
pub enum WriteFault {
    /// A pixel of this size can't encode the number at the cell. Nothing was written.
    #[error("a number is out of range")]
    OutOfRange(Cell),
    /// The sink failed for good. A part of the bytes was written, from the first on.
    #[error("the write failed")]
    WriteFailed,
}
