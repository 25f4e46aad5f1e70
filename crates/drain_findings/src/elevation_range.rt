//! The least and the greatest elevation.

/// The least and the greatest elevation of some data cells, by their numbers: whole numbers in the unit of the elevations,
/// or the places of floats among the floats, which are ordered as they are.
#[derive(Clone, Copy, PartialEq, Eq, Debug)]
pub struct ElevationRange {
    pub least: i64,
    pub greatest: i64,
}
