//! Small grids with products, worked out by hand from the rules, for the tests of every crate that checks products: the
//! elevations, then con, dir, acc, bas and rnk, each in row order.

/// A pit of elevation 1 in a border of elevation 5, filled.
pub fn pit() -> [i64; 54] {
    [
        5, 5, 5, 5, 1, 5, 5, 5, 5, // elevations
        5, 5, 5, 5, 5, 5, 5, 5, 5, // con
        0, 0, 0, 0, 1, 0, 0, 0, 0, // dir
        1, 1, 1, 1, 1, 2, 1, 1, 1, // acc
        1, 2, 3, 4, 5, 5, 6, 7, 8, // bas
        0, 0, 0, 0, 1, 0, 0, 0, 0, // rnk
    ]
}

/// The line of an acceptance of the pit.
pub const PIT_LINE: &str = "accepted rows=3 cols=3 data=9 raised=1 outlets=8";

/// Four cells of elevation 0.
pub fn level() -> [i64; 24] {
    [
        0, 0, 0, 0, // elevations
        0, 0, 0, 0, // con
        0, 0, 0, 0, // dir
        1, 1, 1, 1, // acc
        1, 2, 3, 4, // bas
        0, 0, 0, 0, // rnk
    ]
}

/// The line of their acceptance.
pub const LEVEL_LINE: &str = "accepted rows=2 cols=2 data=4 raised=0 outlets=4";

/// Four voids.
pub fn voids() -> [i64; 24] {
    [
        -32768, -32768, -32768, -32768, // elevations
        -32768, -32768, -32768, -32768, // con
        255, 255, 255, 255, // dir
        0, 0, 0, 0, // acc
        0, 0, 0, 0, // bas
        4294967295, 4294967295, 4294967295, 4294967295, // rnk
    ]
}

/// The line of their acceptance.
pub const VOIDS_LINE: &str = "accepted rows=2 cols=2 data=0 raised=0 outlets=0";

/// Rows that fall from west to east.
pub fn slope() -> [i64; 96] {
    [
        4, 3, 2, 1, 4, 3, 2, 1, 4, 3, 2, 1, 4, 3, 2, 1, // elevations
        4, 3, 2, 1, 4, 3, 2, 1, 4, 3, 2, 1, 4, 3, 2, 1, // con
        1, 1, 1, 0, 1, 1, 1, 0, 1, 1, 1, 0, 1, 1, 1, 0, // dir
        1, 2, 3, 4, 1, 2, 3, 4, 1, 2, 3, 4, 1, 2, 3, 4, // acc
        1, 1, 1, 1, 2, 2, 2, 2, 3, 3, 3, 3, 4, 4, 4, 4, // bas
        3, 2, 1, 0, 3, 2, 1, 0, 3, 2, 1, 0, 3, 2, 1, 0, // rnk
    ]
}

/// The line of an acceptance of the slope.
pub const SLOPE_LINE: &str = "accepted rows=4 cols=4 data=16 raised=0 outlets=4";

/// A flat, on which two cells lead to each other.
pub fn ring() -> [i64; 96] {
    [
        5, 5, 5, 5, 5, 5, 5, 5, 5, 5, 5, 5, 5, 5, 5, 5, // elevations
        5, 5, 5, 5, 5, 5, 5, 5, 5, 5, 5, 5, 5, 5, 5, 5, // con
        0, 0, 0, 0, 0, 1, 16, 0, 0, 16, 1, 0, 0, 0, 0, 0, // dir
        1, 1, 1, 1, 1, 1, 1, 1, 2, 1, 1, 2, 1, 1, 1, 1, // acc
        1, 2, 3, 4, 5, 13, 13, 6, 7, 7, 8, 8, 9, 10, 11, 12, // bas
        0, 0, 0, 0, 0, 1, 2, 0, 0, 1, 1, 0, 0, 0, 0, 0, // rnk
    ]
}

/// A pit under a border that is higher in the east, with a conditioned elevation that is needlessly high.
pub fn needless_crest() -> [i64; 54] {
    [
        5, 5, 5, 5, 1, 7, 5, 5, 5, // elevations
        5, 5, 5, 5, 7, 7, 5, 5, 5, // con
        0, 0, 0, 0, 4, 4, 0, 0, 0, // dir
        1, 1, 1, 1, 1, 1, 1, 2, 2, // acc
        1, 2, 3, 4, 6, 7, 5, 6, 7, // bas
        0, 0, 0, 0, 0, 0, 0, 0, 0, // rnk
    ]
}

/// Two flats with a column of voids between them: 3 rows of 7 cells.
pub fn parted() -> [i64; 126] {
    let x = 4294967295;
    let v = -32768;
    [
        0, 0, 0, v, 0, 0, 0, 0, 0, 0, v, 0, 0, 0, 0, 0, 0, v, 0, 0, 0, // elevations
        0, 0, 0, v, 0, 0, 0, 0, 0, 0, v, 0, 0, 0, 0, 0, 0, v, 0, 0, 0, // con
        0, 0, 0, 255, 0, 0, 0, 0, 1, 0, 255, 0, 16, 0, 0, 0, 0, 255, 0, 0, 0, // dir
        1, 1, 1, 0, 1, 1, 1, 1, 1, 2, 0, 2, 1, 1, 1, 1, 1, 0, 1, 1, 1, // acc
        1, 2, 3, 0, 4, 5, 6, 7, 8, 8, 0, 9, 9, 10, 11, 12, 13, 0, 14, 15, 16, // bas
        0, 0, 0, x, 0, 0, 0, 0, 1, 0, x, 0, 1, 0, 0, 0, 0, x, 0, 0, 0, // rnk
    ]
}

/// A pit of elevation 1 in a border of elevation 5, listed as a sink: it stays as it is, and all of it drains there.
pub fn listed_pit() -> [i64; 54] {
    [
        5, 5, 5, 5, 1, 5, 5, 5, 5, // elevations
        5, 5, 5, 5, 1, 5, 5, 5, 5, // con
        2, 4, 8, 1, 0, 16, 128, 64, 32, // dir
        1, 1, 1, 1, 9, 1, 1, 1, 1, // acc
        1, 1, 1, 1, 1, 1, 1, 1, 1, // bas
        0, 0, 0, 0, 0, 0, 0, 0, 0, // rnk
    ]
}

/// The list of its sink.
pub const LISTED_PIT_SINKS: &str = "1 1\n";

/// The line of its acceptance with that list.
pub const LISTED_PIT_LINE: &str = "accepted rows=3 cols=3 data=9 raised=0 outlets=1";

/// The line of its rejection where no sink is listed.
pub const UNLISTED_PIT_LINE: &str = "rejected rule=12 FlatStep row=1 col=1";
