//! Tests of `make` and `derive`: mosaics worked out by hand from the definitions, and terrains whose products pass.
#![tactic(auto)]

#[cfg(test)]
mod agree;
#[cfg(test)]
mod dem_bytes;
#[cfg(test)]
mod derived;
#[cfg(test)]
mod derived_bytes;
#[cfg(test)]
mod derived_flows;
#[cfg(test)]
mod float_bytes;
#[cfg(test)]
mod followed;
#[cfg(test)]
mod funnel;
#[cfg(test)]
mod headers;
#[cfg(test)]
mod level_queue;
#[cfg(test)]
mod listed_sinks;
#[cfg(test)]
mod listed_terrains;
#[cfg(test)]
mod made;
#[cfg(test)]
mod numbers;
#[cfg(test)]
mod raster_numbers;
#[cfg(test)]
mod spaced_rows;
#[cfg(test)]
mod terrain_samples;
#[cfg(test)]
mod terrains;
