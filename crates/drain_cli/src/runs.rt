//! A run for each command, over any source and any sink.

pub mod derive_set;
pub mod explain_files;
pub mod explain_opened;
pub mod judge;
pub mod judge_files;
pub mod judge_json;
pub mod judged_outcome;
pub mod made_spacing;
pub mod make_set;
pub mod opened_given;
pub mod report_input;
pub mod report_output;
pub mod run_explain;
pub mod run_fill;
pub mod run_header;
pub mod run_join;
pub mod run_merge;
pub mod run_window;
pub mod slips;
pub mod write_set;
