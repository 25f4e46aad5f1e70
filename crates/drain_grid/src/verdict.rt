//! The verdict on the products of a grid.

use crate::rule::Rule;

/// The size of the grid, and how many of its cells have data, are raised, and are outlets.
#[derive(Clone, Copy, PartialEq, Eq, Debug)]
pub struct Counts {
    pub rows: u32,
    pub cols: u32,
    pub data_cells: u32,
    /// Data cells whose conditioned elevation is above the ground.
    pub raised: u32,
    /// Data cells whose direction is 0.
    pub outlets: u32,
}

/// Accepted if every rule holds at every cell, else rejected with the first fault: of the cells at which a rule fails
/// the first in row order, and of the rules that fail there the first.
#[derive(Clone, Copy, PartialEq, Eq, Debug)]
pub enum Verdict {
    Accepted(Counts),
    Rejected { rule: Rule, row: u32, col: u32 },
}
