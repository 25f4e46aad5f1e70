//! Tests of the rules at every cell of whole rasters, and of a fill input.
#![tactic(auto)]

#[cfg(test)]
mod con_alone;
#[cfg(test)]
mod every_fault;
#[cfg(test)]
mod examples;
#[cfg(test)]
mod filled_surfaces;
#[cfg(test)]
mod given_rows;
#[cfg(test)]
mod judged_faults;
#[cfg(test)]
mod kept_runs;
#[cfg(test)]
mod laned_rows;
#[cfg(test)]
mod listed_sinks;
#[cfg(test)]
mod long_rows;
#[cfg(test)]
mod part_rows;
#[cfg(test)]
mod product_faults;
#[cfg(test)]
mod raster_verdicts;
#[cfg(test)]
mod rows_of_bytes;
#[cfg(test)]
mod rows_of_numbers;
#[cfg(test)]
mod screened_rows;
#[cfg(test)]
mod spaced_rows;
#[cfg(test)]
mod spill_levels;
#[cfg(test)]
mod unasked_ranks;
#[cfg(test)]
mod wide_rows;
