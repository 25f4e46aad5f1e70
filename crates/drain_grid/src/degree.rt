//! The unit of places and sizes on the map: 10^-15 degree, fine enough for every header, so that places are whole
//! numbers. This project's own.

/// How many units make one degree.
pub const UNITS_PER_DEGREE: u128 = 1_000_000_000_000_000;
