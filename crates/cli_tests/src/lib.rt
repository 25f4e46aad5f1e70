//! Tests of the runs of `drain` over sources and sinks in memory.
#![tactic(auto)]

#[cfg(test)]
mod check_runs;
#[cfg(test)]
mod dem_runs;
#[cfg(test)]
mod explain_runs;
#[cfg(test)]
mod file_paths;
#[cfg(test)]
mod fill_runs;
#[cfg(test)]
mod header_runs;
#[cfg(test)]
mod inputs;
#[cfg(test)]
mod level_tile;
#[cfg(test)]
mod list_reads;
#[cfg(test)]
mod make_runs;
#[cfg(test)]
mod making;
#[cfg(test)]
mod printed;
#[cfg(test)]
mod progress;
#[cfg(test)]
mod spacings;
#[cfg(test)]
mod stamped_reads;
