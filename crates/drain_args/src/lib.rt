//! The command line: what each command takes, its help texts, and the request that the arguments make.
#![tactic(auto)]

pub mod clusters;
pub(crate) mod commands;
mod elevations;
pub mod explain_texts;
pub mod form;
pub mod given;
pub mod help_texts;
pub mod place_texts;
pub mod requests;
pub mod spacing_texts;
pub mod spacings;
pub mod window_texts;
