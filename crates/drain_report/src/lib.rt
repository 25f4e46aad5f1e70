//! The text of a window's report: what a run on a window writes into a file, and what a merge reads.
#![tactic(auto)]

mod facts;
mod fault;
mod grid;
mod head;
mod lines;
mod lists;
mod numbers;
mod place;
mod read;
mod seams;
mod spacings;
mod tiles;
mod verdict;
mod write;

pub use fault::ReportFault;
pub use read::read_report;
pub use write::write_report;
