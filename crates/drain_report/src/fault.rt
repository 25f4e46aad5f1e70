//! Why a text is no report.

use thiserror::Error;

/// Why a text is no report of a window; lines are counted from 1.
#[derive(Clone, Copy, PartialEq, Eq, Debug, Error)]
pub enum ReportFault {
    /// The first line isn't that of a report of this version.
    #[error("not a report of this version")]
    WrongVersion,
    /// The text ends before this line, or within it.
    #[error("line {0} is missing")]
    MissingLine(u64),
    /// The line isn't the one that has to stand there.
    #[error("line {0} can't be read")]
    BadLine(u64),
    /// A number of the line is out of its range.
    #[error("a number of line {0} is out of range")]
    OutOfRange(u64),
    /// More follows the last line.
    #[error("text after the end")]
    AfterEnd,
    #[error("out of memory")]
    OutOfMemory,
}
