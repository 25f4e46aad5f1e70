//! Floats of single precision: the numbers that their patterns and texts mean.
#![tactic(auto)]

pub mod laws;
pub mod patterns;
pub mod words;

pub use patterns::{is_finite, number, pattern};
pub use words::{nodata, word_of};
