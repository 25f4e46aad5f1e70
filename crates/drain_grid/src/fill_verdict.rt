//! The verdict on a conditioned surface with spill parents, or why there is none.

use crate::rule::Rule;
use thiserror::Error;

/// The size of the tile, and how many cells have data and are raised.
#[derive(Clone, Copy, PartialEq, Eq, Debug)]
pub struct FillCounts {
    pub rows: u32,
    pub cols: u32,
    pub data_cells: u32,
    pub raised: u32,
}

/// The verdict on bytes of the right length.
#[derive(Clone, Copy, PartialEq, Eq, Debug)]
pub enum FillVerdict {
    Accepted(FillCounts),
    Rejected { rule: Rule, row: u32, col: u32 },
}

/// Why there is no verdict.
#[derive(Clone, Copy, PartialEq, Eq, Debug, Error)]
pub enum FillRefusal {
    /// A tile can't have this number of samples along an edge.
    #[error("the side is not from 2 to 3601")]
    BadSide,
    /// There are not nine bytes for each cell.
    #[error("the input is not nine bytes for each cell")]
    BadLength,
}
