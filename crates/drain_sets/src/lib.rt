//! A set of products as it is handed in and out: its rasters as inputs, its files and their headers, and which stage of
//! making it has begun.
#![tactic(auto)]

pub mod follow;
pub mod missing;
pub mod product_headers;
pub mod raster_input;
pub mod set_files;

pub use follow::{Follow, Stage, Unfollowed};
pub use product_headers::header_on;
pub use raster_input::{AuditProducts, Products, RasterInput};
pub use set_files::{
    DERIVED_COUNT, DERIVED_FILES, FILE_COUNT, FilePart, SET_FILES, SetFault, SetFile,
};
