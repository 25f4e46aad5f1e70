//! Where directions lead, from elevations and directions alone: which paths end and after how many steps, how many cells
//! drain through each cell, and the label of its basin.
#![tactic(auto)]

pub mod accumulation;
pub mod basins;
pub mod cell_flows;
mod cell_numbers;
pub mod endless_path;
pub mod flow;
pub mod laws;
mod places;
pub mod walk;
mod ways;

pub use accumulation::{accumulate, accumulate_codes};
pub use basins::{label_ended, label_ended_codes};
pub use cell_flows::{CellFlows, flows_of_rasters};
pub use endless_path::{EndlessPath, LostBy, RING_TOLD};
pub use flow::{CertifyRefusal, Flow};
pub use walk::{UNKNOWN, count_steps};
