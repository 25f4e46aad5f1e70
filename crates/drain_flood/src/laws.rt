//! What the definitions of this crate mean together.
//!
//! A law is a function with an empty body: its contract is the law.

ghost use Rattle.std.specs.Prelude.{◌≡◌, pos, neg_ℤ};
ghost use Rattle.drain_flood.specs.declared.level_queue.TheConstants.{MAX_CELLS};
ghost use Rattle.drain_flood.specs.Laws.{KeptByReaching, AllAreReached, FloodIsDone, FloodIsFilled, KeptBySettling, AllAreSettled, FlatsKeepRules, SurfaceKeepsRules, FlatsArePresent, FloodShowsVoids};

use crate::layers::{NO_HEIGHT, NO_RANK, OPEN, REACHED, UNREACHED, VOID};

/// The numerals of the constants that definitions name.
///
/// A queue of levels holds at most 829,497,601 items: the cells of the greatest mosaic, 28,801 rows of as many. The
/// no-data numbers of heights, codes and ranks are the default ones. The marks are this project's own.
pub fn constants()
    ensures max_cells { MAX_CELLS ≡ 829497601 }
    ensures open { OPEN ≡ 0 }
    ensures reached { REACHED ≡ 253 }
    ensures unreached { UNREACHED ≡ 254 }
    ensures void { VOID ≡ 255 }
    ensures no_height { NO_HEIGHT ≡ neg_ℤ (pos 32768) }
    ensures no_rank { NO_RANK ≡ 4294967295 }
{}

/// What holds of a flood still holds after one more cell is reached.
pub fn kept_by_reaching()
    ensures { KeptByReaching }
{}

/// If the trail is empty and no cell waits, every data cell is reached.
pub fn all_are_reached()
    ensures { AllAreReached }
{}

/// Then the grid is filled.
pub fn flood_is_done()
    ensures { FloodIsDone }
{}

/// The heights of a surface of a grid are the filled surface.
pub fn flood_is_filled()
    ensures { FloodIsFilled }
{}

/// What holds while flats get their ways still holds after one more cell gets its way.
pub fn kept_by_settling()
    ensures { KeptBySettling }
{}

/// If every cell was looked at and the trail is empty, every data cell of a surface that drains has its way.
pub fn all_are_settled()
    ensures { AllAreSettled }
{}

/// Such ways keep rules 3 and 10 to 12 at every cell.
pub fn flats_keep_rules()
    ensures { FlatsKeepRules }
{}

/// A filled surface keeps rules 4, 5 and 9 at every cell.
pub fn surface_keeps_rules()
    ensures { SurfaceKeepsRules }
{}

/// The height of a flooded grid is that of a void exactly at voids.
pub fn flood_shows_voids()
    ensures { FloodShowsVoids }
{}

/// Codes and ranks are the default no-data numbers exactly at voids, and so is the height its own number of a void.
pub fn flats_are_present()
    ensures { FlatsArePresent }
{}
