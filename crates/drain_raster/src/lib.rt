//! Rasters of pixels as bytes: reading them into memory, or a row at a time, and writing them to a device.
//!
//! A raster is the body of an Esri BIL file of one band. Its header says how many pixels there are, and how and where
//! each is encoded.
#![tactic(auto)]

mod fault;
mod kept;
pub mod laws;
mod number_rows;
mod pixel;
mod pixel_rows;
mod placing;
mod range;
mod raster_rows;
mod read;
mod row_memory;
mod write;

pub use fault::{RasterFault, WriteFault};
pub use placing::{has_pixel_size, lies_on};
pub use raster_rows::RasterRows;
pub use read::{needed_len, nodata, read_raster, shape, voids};
pub use write::write_raster;
