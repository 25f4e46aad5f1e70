//! What the rules about some rasters mean.
//!
//! A law is a function with an empty body: its contract is the law.

ghost use Rattle.drain_laws.specs.PartOf.{PartIsLocal, SurfaceIsPart};

/// Judged rasters with directions are part of a correct set exactly if every path ends and every rule about them holds at
/// every cell.
pub fn part_is_local()
    ensures { PartIsLocal }
{}

/// Heights alone are part of a correct set exactly if they are the filled surface, with their no-data number exactly
/// at voids.
pub fn surface_is_part()
    ensures { SurfaceIsPart }
{}
