//! The program `drain`: an acceptance checker for drainage rasters.
#![tactic(auto)]

use drain_cli::program::run_program;
use std::process::ExitCode;

fn main(rt: HostRuntime) -> ExitCode {
    ExitCode::from(run_program(&rt))
}
