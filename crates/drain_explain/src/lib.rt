//! What is said of judged rasters with its explanation: for every rule at how many cells it fails and where first, what
//! the first fault shows, and a map; and of refused inputs what was expected and found.
//!
//! The answer is that of `drain_verdict`, found in the same pass over the rows, by a walk that also notes each fault
//! (`drain_faults`). If there is a path without an end, it says where that path leads.
#![tactic(auto)]

pub mod elevation_range;
pub mod explain;
pub mod fault_visitor;
pub mod findings;
pub mod refusal_detail;
pub mod refused;
pub mod seen;
pub mod slopes;

pub use drain_findings::{
    ElevationRange, Extent, Findings, NotData, RefusalDetail, SHOWN_BYTES, Slopes, TileValue,
    judged_product,
};
pub use explain::explain_on;
pub use fault_visitor::{FaultVisitor, Mapping};
pub use findings::{Explanation, answer_and_findings};
pub use refused::{ExplainedInput, FileLookup};
