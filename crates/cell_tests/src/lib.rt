//! Tests of cells, patches and the rules at one cell.
#![tactic(auto)]

#[cfg(test)]
mod accum;
#[cfg(test)]
mod agree;
#[cfg(test)]
mod basin;
#[cfg(test)]
mod endless_paths;
#[cfg(test)]
mod fill;
#[cfg(test)]
mod flat;
#[cfg(test)]
mod fractions;
#[cfg(test)]
mod grid;
#[cfg(test)]
mod open;
#[cfg(test)]
mod presence;
#[cfg(test)]
mod run_grids;
#[cfg(test)]
mod runs;
#[cfg(test)]
mod sinks;
#[cfg(test)]
mod slope;
#[cfg(test)]
mod spacing;
#[cfg(test)]
mod spacing_texts;
#[cfg(test)]
mod whole_rasters;
