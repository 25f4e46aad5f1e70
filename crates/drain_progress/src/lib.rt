//! What `--progress` prints: which rows or parts are done, and when a line is due.
#![tactic(auto)]

pub mod counted_device;
pub mod laws;
pub mod progress;
pub mod progress_lines;
pub mod rows;
pub mod throttle;
