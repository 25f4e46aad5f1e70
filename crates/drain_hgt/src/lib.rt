//! Tiles: their names and their samples, whole or row by row.
#![tactic(auto)]

pub mod input;
pub mod laws;
pub mod name;
pub mod tile;
pub mod tile_rows;

pub use input::TileInput;
pub use name::{NameFault, TileName};
pub use tile::{TileFault, read_tile};
pub use tile_rows::TileRows;
