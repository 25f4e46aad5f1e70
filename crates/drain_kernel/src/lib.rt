//! A pass along a row that clears many cells at a time, and never reports a fault.
#![tactic(auto)]

mod around;
mod cells;
mod column_test;
mod columns;
mod con_alone;
pub mod falls;
mod height_lanes;
mod in_unit;
pub mod kept;
mod lane_height;
mod lane_row;
mod lane_rows;
pub mod lanes;
pub mod laws;
mod near;
pub mod outlets;
mod product_lanes;
mod ranked;
pub mod slopes;
mod stretches;
mod strides;
mod sums;
mod vouched;
mod ways_down;

pub use falls::falls_at;
pub use kept::kept_until;
pub use lanes::Lanes;
pub use outlets::outlet_holds_at;
pub use slopes::Slopes;
