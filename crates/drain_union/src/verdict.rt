//! The verdict on a window or a union.

use drain_grid::{Cell, Rule};

/// The size of a window or a union, and how many of its cells have data, are raised, and are outlets. A count that doesn't
/// fit is the greatest number of 64 bits; no count of a union's own cells is as large.
#[derive(Clone, Copy, PartialEq, Eq, Debug)]
pub struct UnionCounts {
    pub rows: u32,
    pub cols: u32,
    pub data_cells: u64,
    pub raised: u64,
    pub outlets: u64,
}

/// A cell at which this rule fails.
#[derive(Clone, Copy, PartialEq, Eq, Debug)]
pub struct Fault {
    pub cell: Cell,
    pub rule: Rule,
}

/// Accepted with the counts, or rejected with the first fault.
#[derive(Clone, Copy, PartialEq, Eq, Debug)]
pub enum UnionVerdict {
    Accepted(UnionCounts),
    Rejected(Fault),
}
