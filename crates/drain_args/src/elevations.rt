//! Which elevations are named: tiles, or one raster.

ghost use Rattle.drain_args.specs.Names.{IfOk, found_of};
ghost use Rattle.drain_args.specs.Requests.{AreElevations, AreTiles, IsDemOption};

use crate::commands::CommandSpec;
use crate::given::{option_given, paths_given, side_given};
use crate::help_texts;
use crate::requests::{DemArgs, DemEnding, Elevations, TileArgs, bad_value};
use clap::{ArgMatches, Error};
use std::alloc::Global;

/// The tiles.
fn tiles_given<'a>(alloc: Global, given: &ArgMatches<'a>) -> Result<TileArgs<'a>, Error>
    ensures { IfOk result (AreTiles (found_of given.now)) }
{
    let side = side_given(alloc, given)?;
    let paths = paths_given(alloc, given, "tiles")?;
    Ok(TileArgs { side, paths })
}

/// The path of a raster of elevations has another ending.
#[derive(Clone, Copy)]
struct OtherRaster;

/// The raster of elevations, if one is named.
fn dem_given<'a>(given: &ArgMatches<'a>) -> Result<Option<DemArgs<'a>>, OtherRaster>
    ensures { IfOk result (IsDemOption (found_of given.now)) }
{
    let Some(path) = option_given(given, "dem") else {
        return Ok(None);
    };
    if let Some(stem) = path.strip_suffix(".bil") {
        return Ok(Some(DemArgs {
            stem,
            ending: DemEnding::Lower,
        }));
    }
    match path.strip_suffix(".BIL") {
        Some(stem) => Ok(Some(DemArgs {
            stem,
            ending: DemEnding::Upper,
        })),
        None => Err(OtherRaster),
    }
}

/// The elevations of this command: one raster, or else tiles.
pub(crate) fn elevations_given<'a>(
    alloc: Global,
    spec: &'static CommandSpec,
    given: &ArgMatches<'a>,
) -> Result<Elevations<'a>, Error>
    ensures { IfOk result (AreElevations (found_of given.now)) }
{
    match dem_given(given) {
        Ok(Some(dem)) => Ok(Elevations::Dem(dem)),
        Ok(None) => Ok(Elevations::Tiles(tiles_given(alloc, given)?)),
        Err(OtherRaster) => Err(bad_value(alloc, spec, help_texts::BAD_DEM)?),
    }
}
