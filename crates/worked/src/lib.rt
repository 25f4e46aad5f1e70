//! What tests share: small grids with products, sets of rasters, headers, a raster's number at any cell, at which calls a
//! scripted device answers otherwise, and whether memory was just refused.
#![tactic(auto)]

pub mod calls;
pub mod grids;
pub mod headers;
pub mod memory;
pub mod pixels;
pub mod sets;
pub mod shafts;
