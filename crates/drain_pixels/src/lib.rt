//! The pixels of a row: as the bytes of a raster or as numbers, and as lanes of 16 or 32 bits.
#![tactic(auto)]

pub mod ground_row;
pub mod lane;
mod narrowing;
pub mod pixel_row;
pub mod row_lanes;
pub mod stored;
pub mod voids;

pub use ground_row::GroundRow;
pub use pixel_row::{PixelKind, PixelRow};
pub use stored::{PixelNumbers, Pixels};
pub use voids::Voids;
