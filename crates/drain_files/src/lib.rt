//! The files of a command: their paths, opening and reading them, and writing outputs without a loss.
#![tactic(auto)]

pub mod file_id;
pub mod file_paths;
pub mod laws;
pub mod map_file;
pub mod open_failure;
pub mod open_files;
pub mod open_judged;
pub mod open_spacing;
pub mod output_paths;
pub mod outputs;
pub mod simplest;
pub mod source_or_ones;
pub mod whole_input;
