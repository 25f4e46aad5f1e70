//! How far apart cells are: from the text of `--spacing`, and from a header.

use drain_args::spacing_texts::spacing_named;
use drain_files::open_spacing::pixel_spacing;
use drain_grid::Spacing;
use drain_header::parse_header;
use std::process::Abort;
use std::test::Fail;

/// A text, and the width and the height that it names; 0 and 0 if it names none.
static NAMED: [(&str, u32, u32); 18] = [
    ("1,1", 1, 1),
    ("30,20", 30, 20),
    ("30.0,20", 30, 20),
    ("0.5,1", 5, 10),
    (".5,1.", 5, 10),
    ("0.25,0.3", 25, 30),
    ("100,1000", 100, 1000),
    ("0.010,0.02000", 1, 2),
    ("1073741824,1", 1073741824, 1),
    ("1073741825,1", 0, 0),
    ("0.000000000000000001,0.000000000000000002", 1, 2),
    ("0.0,1", 0, 0),
    ("1", 0, 0),
    ("1,2,3", 0, 0),
    (",1", 0, 0),
    (".,1", 0, 0),
    ("1e1,1", 0, 0),
    ("-1,1", 0, 0),
];

/// Fails the test if this isn't the expected spacing.
fn same_spacing(rt: &impl Abort, case: &str, found: Option<Spacing>, width: u32, height: u32) {
    assert_eq!(rt; found, Spacing::new(width, height), "{case}");
}

#[test]
fn of_a_text(rt: HostRuntime) {
    for &(text, width, height) in &NAMED {
        same_spacing(&rt, text, spacing_named(text), width, height);
    }
}

/// A header's pixel sizes, and the spacing that they are; 0 and 0 if they are none. Six with many places are cells of one
/// second of arc, 1.5, 2, 3, 5 and 10 times as wide, and of 10 / 3 by 10, as GDAL 3.6.2 writes them; three more have
/// fifteen places.
static SIZES: [(&str, u32, u32); 17] = [
    ("XDIM 30\nYDIM 20\n", 3, 2),
    ("XDIM 0.000833333333333\nYDIM 0.000833333333333\n", 1, 1),
    ("XDIM 0.000833333333333\nYDIM 0.000416666666667\n", 2, 1),
    (
        "XDIM 0.000416666666666667\nYDIM 0.000277777777777778\n",
        3,
        2,
    ),
    (
        "XDIM 0.000555555555555556\nYDIM 0.000277777777777778\n",
        2,
        1,
    ),
    (
        "XDIM 0.000833333333333333\nYDIM 0.000277777777777778\n",
        3,
        1,
    ),
    (
        "XDIM 0.00138888888888889\nYDIM 0.000277777777777778\n",
        5,
        1,
    ),
    (
        "XDIM 0.00277777777777778\nYDIM 0.000277777777777778\n",
        10,
        1,
    ),
    ("XDIM 3.33333333333333\nYDIM 10\n", 1, 3),
    ("XDIM 0.000416666666667\nYDIM 0.000277777777778\n", 3, 2),
    ("XDIM 0.001388888888889\nYDIM 0.000277777777778\n", 5, 1),
    ("XDIM 3.333333333333333\nYDIM 10.000000000000000\n", 1, 3),
    ("XDIM 0.000277778\nYDIM 0.000416666\n", 138889, 208333),
    ("XDIM 1\nYDIM 1073741824\n", 1, 1073741824),
    ("XDIM 1\nYDIM 1073741825\n", 0, 0),
    ("XDIM 0.000000000000001\nYDIM 1000\n", 0, 0),
    ("XDIM -1\nYDIM 2\n", 1, 1),
];

#[test]
fn of_a_header(rt: HostRuntime) -> Result<(), Fail> {
    for &(sizes, width, height) in &SIZES {
        let text = format!(in rt.alloc(); "NROWS 1\nNCOLS 1\nULXMAP 0\nULYMAP 0\n{sizes}")?;
        let header = parse_header(text.as_bytes())?;
        same_spacing(&rt, sizes, pixel_spacing(&header), width, height);
    }
    Ok(())
}
