//! One window of a union: whether the rules hold at its judged cells, from the bytes of its tiles and products.
//!
//! A window is a box in a mosaic of tiles. The rows of the mosaic come one after another, from north to south: the walk
//! of `drain_rules` tries the rules at the judged cells, and a second one notes what the window shows along its seams.
//! Cells outside the judged area are looked at only as neighbors.
#![tactic(auto)]

pub mod answered;
mod dem_window;
pub mod judge;
mod judge_ground;
mod judged_area;
mod judged_rows;
pub mod laws;
pub mod listed_outlets;
pub mod seam_walk;
mod tile_window;
pub mod window_ground;

pub use answered::{WindowRefusal, window_line};
pub use judge::judge_window_on;
pub use window_ground::WindowGround;
