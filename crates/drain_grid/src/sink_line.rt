//! A line of a sink list.

use crate::cell::Cell;

/// The cell that a line lists, and the number of the line, counted from 1.
#[derive(Clone, Copy, PartialEq, Eq, Debug)]
pub struct SinkLine {
    pub line: u64,
    pub cell: Cell,
}
