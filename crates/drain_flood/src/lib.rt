//! The filled surface, by a flood; then the way of each cell: down the steepest way, or along its flat to a low edge.
//!
//! Source: the flood is Priority-Flood (Barnes, Lehman and Mulla 2014), with traces as in Zhou, Sun and Fu (2016).
#![tactic(auto)]

mod around;
pub mod exact_ways;
mod falls;
mod flat_steps;
pub mod flats;
pub mod flood;
mod height_queue;
pub mod heights;
pub mod laws;
pub mod layers;
pub mod level_queue;
mod level_stacks;
mod open_cells;
mod places;
mod shores;
pub mod surface;
mod tracing;
pub mod ways;

pub use flats::{CodesAndRanks, Flats, ways_on_flats};
pub use flood::{Flood, fill, fill_heights};
pub use heights::{HeightList, Heights, WideHeights};
pub use level_queue::LevelQueue;
pub use surface::Surface;
