//! The program `drain` as functions: a run for each command, over any source and any sink, and the program, which opens
//! the files of a run.
#![tactic(auto)]

pub mod answer;
pub mod laws;
pub mod program;
pub mod runs;
