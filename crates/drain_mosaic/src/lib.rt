//! Mosaics: which tiles make one, and their joined elevation, whole or row by row.
#![tactic(auto)]

mod edges;
pub mod first_seam;
pub mod laws;
pub mod layout;
pub mod mosaic_rows;
mod one_row;
mod overlay;
mod placed_rows;
pub mod seams;

pub use layout::{Layout, LayoutFault};
pub use mosaic_rows::MosaicRows;
pub use seams::{SeamFault, join};
