//! Tests of devices, texts, headers, tiles, mosaics, the pixels of rasters and rows of both.
#![tactic(auto)]

#[cfg(test)]
mod agree;
#[cfg(test)]
mod devices;
#[cfg(test)]
mod float_headers;
#[cfg(test)]
mod header_lines;
#[cfg(test)]
mod headers;
#[cfg(test)]
mod mosaic_rows;
#[cfg(test)]
mod mosaics;
#[cfg(test)]
mod pixel_row_kinds;
#[cfg(test)]
mod pixel_rows;
#[cfg(test)]
mod placing;
#[cfg(test)]
mod raster_writes;
#[cfg(test)]
mod rasters;
#[cfg(test)]
mod row_sources;
#[cfg(test)]
mod second_calls;
#[cfg(test)]
mod texts;
#[cfg(test)]
mod tiles;
