//! Whether the bytes of a call are whole: none are missing, for which C had NULL.

ghost use Rattle.std.specs.Prelude.{◌≡◌};
ghost use Rattle.drain_c.specs.Whole.{are_elevations_whole, are_rasters_whole, are_tiles_whole, is_raster_whole, is_text_whole, is_tile_whole};

use crate::call::Elevations;
use crate::given::{CheckBytes, GivenBytes, RasterBytes, TileBytes};
use drain_grid::Judged;

/// Whether the bytes of all tiles are whole, or those of the raster of elevations.
pub fn are_elevations_whole(elevations: &Elevations) -> bool
    ensures { result ≡ are_elevations_whole elevations.now }
{
    match elevations {
        Elevations::Tiles { tiles, .. } => are_tiles_whole(tiles),
        Elevations::Dem(dem) => is_raster_whole(dem),
    }
}

/// Whether the bytes of the rasters that are judged are.
pub fn are_rasters_whole(judged: Judged, given: &CheckBytes) -> bool
    ensures { result ≡ are_rasters_whole judged given.now }
{
    is_raster_whole(&given.con)
        && (!judged.has_dir() || is_raster_whole(&given.dir))
        && (!judged.has_acc() || is_raster_whole(&given.acc))
        && (!judged.has_bas() || is_raster_whole(&given.bas))
        && (!judged.has_rnk() || is_raster_whole(&given.rnk))
}

/// Whether those of a raster are.
pub fn is_raster_whole(raster: &RasterBytes) -> bool
    ensures { result ≡ is_raster_whole raster.now }
{
    is_text_whole(&raster.header) && is_text_whole(&raster.pixels)
}

fn are_tiles_whole(tiles: &[TileBytes]) -> bool
    ensures { result ≡ are_tiles_whole tiles.now }
{
    tiles.iter().all(is_tile_whole)
}

fn is_tile_whole(tile: &TileBytes) -> bool
    ensures { result ≡ is_tile_whole tile.now }
{
    is_text_whole(&tile.name) && is_text_whole(&tile.samples)
}

/// Whether a text is there.
pub fn is_text_whole(text: &GivenBytes) -> bool
    ensures { result ≡ is_text_whole text.now }
{
    text.missing == 0
}
