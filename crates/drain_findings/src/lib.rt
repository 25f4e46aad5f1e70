//! What explains an answer: which rules fail at how many cells and where first, the range of the elevations, where a path
//! without an end leads; of refused inputs, what was expected and found.
//!
//! `drain_explain` finds these facts, `drain_page` prints them.
#![tactic(auto)]

pub mod elevation_range;
pub mod findings;
pub mod laws;
pub mod refusal_detail;
pub mod slopes;

pub use elevation_range::ElevationRange;
pub use findings::{Findings, judged_product};
pub use refusal_detail::{Extent, NotData, RefusalDetail, SHOWN_BYTES, TileValue};
pub use slopes::Slopes;
