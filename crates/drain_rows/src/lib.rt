//! The rows of a grid and its products, one after another, three in memory at a time, and what is noted of each.
#![tactic(auto)]

pub mod all_rows;
pub mod grid_rows;
pub mod listed_voids;
pub mod row_buffer;
pub mod row_flows;
pub mod row_visitor;
mod window;

pub use all_rows::visit_rows;
pub use grid_rows::GridRows;
pub use listed_voids::ListedVoids;
pub use row_buffer::RowBuffer;
pub use row_flows::first_endless;
pub use row_visitor::{BothVisitors, RowVisitor, VerdictVisitor, WalkStop};
