//! The rules of basin labels: Label at a cell, and the labels of outlets for SharedLabel.
//!
//! A basin is all that drains to one outlet. Label passes a cell's label on along its direction, and SharedLabel
//! requires that no two outlets have one label. The second is about the whole grid, so it needs a set of the outlets'
//! labels so far.
//!
//! Source: basins of D8 directions (O'Callaghan and Mark 1984); the rules are this project's own.
#![tactic(auto)]

mod blocks;
pub mod label;
mod lowest;
pub mod outlets;

pub use label::{expected_label, fault};
pub use outlets::OutletLabels;
