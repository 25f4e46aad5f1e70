//! Where one raster lies on another: a hundredth of a pixel at the corner, and another over the whole raster.

use crate::agree::same;
use drain_header::{Header, parse_header};
use drain_raster::{has_pixel_size, lies_on};
use std::test::Fail;

/// The text of a header of 2 rows and 3 columns at this place.
macro_rules! at {
    ($ulx:literal, $uly:literal, $xdim:literal, $ydim:literal) => {
        concat!(
            "NROWS 2\nNCOLS 3\nULXMAP ", $ulx, "\nULYMAP ", $uly, "\nXDIM ", $xdim, "\nYDIM ",
            $ydim, "\n"
        )
    };
}

/// Elevations with pixels of 30 by 10, far from the origin.
const ELEVATIONS: &str = at!("500000", "-4000000", "30", "10");

/// Other headers, and whether their rasters lie on the elevations.
static PLACES: [(&str, bool); 15] = [
    (ELEVATIONS, true),
    (at!("500000.3", "-4000000", "30", "10"), true),
    (at!("500000.300000000000001", "-4000000", "30", "10"), false),
    (at!("499999.7", "-4000000", "30", "10"), true),
    (at!("499999.699999999999999", "-4000000", "30", "10"), false),
    (at!("500000", "-3999999.9", "30", "10"), true),
    (at!("500000", "-3999999.899999999999999", "30", "10"), false),
    (at!("500000", "-4000000.100000000000001", "30", "10"), false),
    (at!("500000", "-4000000", "30.1", "10"), true),
    (at!("500000", "-4000000", "30.100000000000001", "10"), false),
    (at!("500000", "-4000000", "29.899999999999999", "10"), false),
    (at!("500000", "-4000000", "30", "10.05"), true),
    (at!("500000", "-4000000", "30", "10.050000000000001"), false),
    (at!("500000", "-4000000", "30", "9.949999999999999"), false),
    (at!("499999.7", "-3999999.9", "29.9", "10.05"), true),
];

/// The header of a text.
fn header(text: &str) -> Result<Header, Fail> {
    Ok(parse_header(text.as_bytes()).ok().ok_or("a header")?)
}

#[test]
fn a_hundredth_of_a_pixel(rt: HostRuntime) -> Result<(), Fail> {
    let elevations = header(ELEVATIONS)?;
    for &(text, expected) in &PLACES {
        same(&rt, text, lies_on(&elevations, &header(text)?), expected);
    }
    Ok(())
}

/// Headers, and whether their pixels have a size.
static SIZES: [(&str, bool); 5] = [
    (
        at!("0", "0", "0.000000000000001", "0.000000000000001"),
        true,
    ),
    (at!("0", "0", "0", "1"), false),
    (at!("0", "0", "1", "0"), false),
    (at!("0", "0", "-1", "1"), false),
    (at!("0", "0", "1", "-1"), false),
];

#[test]
fn sizes_above_zero(rt: HostRuntime) -> Result<(), Fail> {
    for &(text, expected) in &SIZES {
        same(&rt, text, has_pixel_size(&header(text)?), expected);
    }
    Ok(())
}
