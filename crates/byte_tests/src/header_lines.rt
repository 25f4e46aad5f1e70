//! Decimals and lines of the format's tables, each with the value that the table gives; texts of faults.

use crate::agree::same;
use drain_grid::HeightKind;
use drain_header::decimal::{coordinate, nodata};
use drain_header::lines::read_lines;
use drain_header::{ByteOrdering, Header, HeaderFault, Key, Place, header_text};
use std::alloc::Global;
use std::process::Abort;
use std::test::Fail;
use worked::headers::CON_TEXT;

/// Decimals, each with its value in units of 15 digits after the point; none if it has none.
static COORDINATES: [(&str, Option<i128>); 15] = [
    ("-105", Some(-105_000_000_000_000_000)),
    ("1e-3", Some(1_000_000_000_000)),
    ("8.33e-004", Some(833_000_000_000)),
    ("-.5", Some(-500_000_000_000_000)),
    ("5.", Some(5_000_000_000_000_000)),
    ("0.0000000000000019", Some(1)),
    ("1e10", Some(10_000_000_000_000_000_000_000_000)),
    ("-1e10", Some(-10_000_000_000_000_000_000_000_000)),
    ("10000000000.0000000000000000001", None),
    (".", None),
    (".e1", None),
    ("1e-0003", None),
    ("1e11", None),
    ("0x1", None),
    ("-0", Some(0)),
];

#[test]
fn decimals_in_units(rt: HostRuntime) -> Result<(), Fail> {
    for &(text, expected) in &COORDINATES {
        same(&rt, text, coordinate(text.as_bytes()), expected);
    }
    Ok(())
}

/// Decimals, each with the whole number that it is; none where it is none.
static NODATA: [(&str, Option<i64>); 6] = [
    ("-9999.0", Some(-9999)),
    ("10000000000", Some(10_000_000_000)),
    ("10000000001", None),
    ("0.5", None),
    ("0.00000000000000000001", None),
    ("-32768", Some(-32768)),
];

#[test]
fn decimals_of_nodata(rt: HostRuntime) -> Result<(), Fail> {
    for &(text, expected) in &NODATA {
        same(&rt, text, nodata(text.as_bytes()), expected);
    }
    Ok(())
}

/// 60,000 digits: zeros, but for the first, the second and the last.
fn long_digits(ends: [u8; 3]) -> [u8; 60000] {
    let [first, second, last] = ends;
    let mut digits = [b'0'; 60000];
    digits[0] = first;
    digits[1] = second;
    digits[59999] = last;
    digits
}

/// What these digits are as a coordinate, and as a number for no data.
fn values(digits: &[u8]) -> (Option<i128>, Option<i64>) {
    (coordinate(digits), nodata(digits))
}

/// Ends of long decimals, each with the two values that it has.
static LONG: [(&str, [u8; 3], Option<i128>, Option<i64>); 4] = [
    ("zero", *b"0.0", Some(0), Some(0)),
    ("a last digit", *b"0.1", Some(0), None),
    ("one", *b"001", Some(1_000_000_000_000_000), Some(1)),
    ("a large one", *b"101", None, None),
];

/// The digits are many, and the value is small.
#[test]
fn long_decimals(rt: HostRuntime) -> Result<(), Fail> {
    for &(case, ends, units, number) in &LONG {
        same(&rt, case, values(&long_digits(ends)), (units, number));
    }
    Ok(())
}

/// Lines of headers, each with its first fault.
static LINES: [(&str, Option<HeaderFault>); 9] = [
    ("", None),
    ("NROWS 2\nmoretext x\n\n", None),
    ("NROWS 0\n", Some(HeaderFault::BadValue(1))),
    ("NROWS 2\nNROWS 2\n", Some(HeaderFault::RepeatedKey(2))),
    (
        "nrows 2\r\nNcols 7\r\nNROWS 0\r\nNBITS x",
        Some(HeaderFault::RepeatedKey(3)),
    ),
    ("NROWS 2\n  NBITS\n", Some(HeaderFault::BadValue(2))),
    ("NODATA 0.5", Some(HeaderFault::BadValue(1))),
    (
        "\tBYTEORDER  m metres\nLAYOUT BIX",
        Some(HeaderFault::BadValue(2)),
    ),
    ("PIXELTYPE FLOAT", None),
];

#[test]
fn first_faults_of_lines(rt: HostRuntime) -> Result<(), Fail> {
    for &(text, expected) in &LINES {
        same(
            &rt,
            text,
            read_lines(text.as_bytes(), HeightKind::Whole).err(),
            expected,
        );
    }
    Ok(())
}

/// Faults, each with its text.
static FAULTS: [(HeaderFault, &str); 5] = [
    (HeaderFault::TooLong, "TooLong"),
    (HeaderFault::RepeatedKey(3), "RepeatedKey 3"),
    (HeaderFault::BadValue(4294967295), "BadValue 4294967295"),
    (HeaderFault::MissingKey(Key::Ulxmap), "MissingKey ULXMAP"),
    (HeaderFault::RowTooShort, "RowTooShort"),
];

#[test]
fn texts_of_faults(rt: HostRuntime) -> Result<(), Fail> {
    for &(fault, expected) in &FAULTS {
        same(&rt, expected, fault.text().as_str(), expected);
    }
    Ok(())
}

/// The header of a conditioned raster of 3 by 3 pixels.
pub const CONDITIONED: Header = Header {
    rows: 3,
    cols: 3,
    bits: 16,
    order: ByteOrdering::Least,
    signed: true,
    skip: 0,
    row_bytes: 6,
    place: Place {
        ulx: 0,
        uly: 1_000_000_000_000_000,
        xdim: 500_000_000_000_000,
        ydim: 500_000_000_000_000,
    },
    nodata: Some(-32768),
    kind: HeightKind::Whole,
};

/// A header without a no-data number that lies west of Greenwich.
const WESTERN: Header = Header {
    rows: 1,
    cols: 28801,
    bits: 8,
    order: ByteOrdering::Most,
    signed: false,
    skip: 4294967295,
    row_bytes: 28801,
    place: Place {
        ulx: -500_000_000_000_000,
        uly: -105_000_000_000_000_001,
        xdim: 833_333_333_333,
        ydim: 10_000_000_000_000_000_000_000_000,
    },
    nodata: None,
    kind: HeightKind::Whole,
};

/// Its text.
const WESTERN_TEXT: &str =
    "BYTEORDER M\nLAYOUT BIL\nNROWS 1\nNCOLS 28801\nNBANDS 1\nNBITS 8\nBANDROWBYTES 28801\n\
     TOTALROWBYTES 28801\nSKIPBYTES 4294967295\nPIXELTYPE UNSIGNEDINT\n\
     ULXMAP -0.500000000000000\nULYMAP -105.000000000000001\nXDIM 0.000833333333333\n\
     YDIM 10000000000.000000000000000\n";

/// Ends the test where a header has another text.
fn has_text(rt: &impl Abort, alloc: Global, header: &Header, expected: &str) -> Result<(), Fail> {
    let text = header_text(alloc, header)?;
    same(rt, header.cols, str::from_utf8(&text), Ok(expected));
    Ok(())
}

#[test]
fn headers_as_text(rt: HostRuntime) -> Result<(), Fail> {
    has_text(&rt, rt.alloc(), &CONDITIONED, CON_TEXT)?;
    has_text(&rt, rt.alloc(), &WESTERN, WESTERN_TEXT)
}
