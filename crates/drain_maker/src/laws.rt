//! Laws on the definitions of this crate.
//!
//! A law is a function whose body only calls other laws: its contract is the law, and a caller gets the law by calling
//! it.

ghost use Rattle.drain_maker.specs.Accepted.{MadeIsAccepted, MadeOnDemIsAccepted};
ghost use Rattle.drain_maker.specs.Derived.{DerivedByDirections, DerivedCompletes};
ghost use Rattle.drain_maker.specs.Made.{RoutesEnd, RoutesKeepRules};

use drain_header::laws::text_reads_back;
use drain_raster::laws::{bytes_read_back, numbers_are_pixels};
use drain_rules::laws::equal_grids_have_one_verdict;

/// Products that were made for a mosaic's elevations, written to files and checked with the same tiles, are accepted.
pub fn made_is_accepted()
    ensures { MadeIsAccepted }
{
    text_reads_back();
    bytes_read_back();
    numbers_are_pixels();
    equal_grids_have_one_verdict();
}

/// And those made for one raster of elevations, checked with the same raster, are accepted.
pub fn made_on_dem_is_accepted()
    ensures { MadeOnDemIsAccepted }
{
    text_reads_back();
    bytes_read_back();
    numbers_are_pixels();
    equal_grids_have_one_verdict();
}

/// The flows of the ways on a filled surface are those of the grid, and every run ends.
pub fn routes_end()
    ensures { RoutesEnd }
{}

/// With right counts and labels the products are correct, every run is sound, and every rule of a check holds at every
/// cell.
pub fn routes_keep_rules()
    ensures { RoutesKeepRules }
{}

/// Products whose accumulation, labels and ranks are derived from their directions are correct exactly if their heights
/// and directions are right, and every rule of a check holds of them exactly then.
pub fn derived_completes()
    ensures { DerivedCompletes }
{}

/// Rasters that are derived for one grid and products are derived for all with the same elevations and directions.
pub fn derived_by_directions()
    ensures { DerivedByDirections }
{}
