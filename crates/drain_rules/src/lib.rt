//! The verdict on a grid's products, and on a fill input: each rule at each cell, the first fault, and the counts of an
//! acceptance.
//!
//! A walk scans the judged cells in row order and looks at one patch at a time. It stops at the first fault, so the cells
//! before it keep every rule. Of these it keeps three counts, and the outlets: their labels, which the rule SharedLabel
//! compares, or a list of them. It is generic over what is kept, and over rows that show patches: those of whole
//! rasters, or three rows of numbers. That rules kept at every cell make the products correct is `drain_grid`'s law `correct_from_rules`. The walk over a fill input checks only rules 4
//! to 9; that these make the filled surface is the law `least_from_rules`.
#![tactic(auto)]

pub mod fill_inland;
pub mod fill_input;
pub mod fill_walk;
pub mod labels;
pub mod laws;
pub mod part_rules;
pub mod patch_rules;
pub mod raster_walk;
pub mod row_view;
pub mod screen;
pub mod three_rows;
pub mod walk;

pub use fill_input::fill_length;
pub use fill_walk::check_fill;
pub use labels::Labels;
pub use patch_rules::{PatchRow, patch_fault};
pub use raster_walk::{RasterRow, verdict_of};
pub use row_view::{Kept, RowView};
pub use three_rows::ThreeRows;
pub use walk::{Area, Walk};
