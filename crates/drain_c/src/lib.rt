//! Verdicts, explanations and derived rasters of bytes in memory, for C and what calls C. `include/drain.h` declares the
//! calls.
#![tactic(auto)]

pub mod answer;
pub mod call;
mod derived;
mod explain;
pub mod exported_derive_request;
pub mod exported_explain_request;
pub mod exported_judge;
pub mod exported_version;
pub mod faults;
pub mod found;
pub mod given;
mod judge;
pub mod laws;
pub mod layout;
mod question;
mod show_derived;
mod show_explained;
mod sources;
pub mod spacing;
mod whole;
