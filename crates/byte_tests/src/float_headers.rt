//! Headers of floats: the kind that each says, and its answer for floats and for whole heights.
//!
//! The numbers are those of `struct.pack` of Python: a float's pattern, below 0 for a sign and without it.

use crate::agree::same;
use drain_grid::HeightKind;
use drain_header::{
    ByteOrdering, Header, HeaderFault, header_text, kind_said, parse_header, parse_header_of,
};
use std::alloc::{AllocError, Global};
use std::test::Fail;

/// The lines of the pixels, and of the order of bytes, before the others.
#[derive(Clone, Copy)]
struct Lines {
    order: &'static str,
    bits: &'static str,
    kind: &'static str,
    nodata: &'static str,
}

/// A header of three rows and three columns with these lines.
fn text(alloc: Global, lines: &Lines) -> Result<Vec<u8>, AllocError> {
    let parts = [
        lines.order,
        "LAYOUT BIL\nNROWS 3\nNCOLS 3\nNBANDS 1\n",
        lines.bits,
        "BANDROWBYTES 24\nTOTALROWBYTES 24\nSKIPBYTES 0\n",
        lines.kind,
        "ULXMAP 0.000000000000000\nULYMAP 1.000000000000000\n",
        "XDIM 0.500000000000000\nYDIM 0.500000000000000\n",
        lines.nodata,
    ];
    let mut text = Vec::new(alloc);
    for part in parts {
        text.extend_from_slice(part.as_bytes())?;
    }
    Ok(text)
}

/// What floats change in a header.
type Told = (HeightKind, u8, bool, ByteOrdering, Option<i64>);

fn told(answer: Result<Header, HeaderFault>) -> Result<Told, HeaderFault> {
    let header = answer?;
    Ok((
        header.kind,
        header.bits,
        header.signed,
        header.order,
        header.nodata,
    ))
}

/// The texts of no-data numbers of floats, each with its number.
static NODATA: [(&str, Option<i64>); 9] = [
    ("NODATA -9999\n", Some(-1176255488)),
    ("NODATA -3.4028235e+38\n", Some(-2139095039)),
    ("NODATA nan\n", Some(2143289344)),
    ("NODATA -NaN\n", Some(2143289344)),
    ("NODATA inf\n", Some(2139095040)),
    ("NODATA -inf\n", Some(-2139095040)),
    ("NODATA -32767.1\n", Some(-1191181875)),
    ("NODATA -0\n", Some(0)),
    ("", None),
];

#[test]
fn floats_in_both_orders(rt: HostRuntime) -> Result<(), Fail> {
    for &(nodata, number) in &NODATA {
        let mut lines = Lines {
            order: "BYTEORDER I\n",
            bits: "NBITS 32\n",
            kind: "PIXELTYPE FLOAT\n",
            nodata,
        };
        let bytes = text(rt.alloc(), &lines)?;
        same(&rt, nodata, kind_said(&bytes), HeightKind::Single);
        let least = told(parse_header_of(&bytes, HeightKind::Single));
        let floats = (HeightKind::Single, 32, true, ByteOrdering::Least, number);
        same(&rt, nodata, least, Ok(floats));
        lines.order = "byteorder m\n";
        let bytes = text(rt.alloc(), &lines)?;
        let most = told(parse_header_of(&bytes, HeightKind::Single));
        let floats = (HeightKind::Single, 32, true, ByteOrdering::Most, number);
        same(&rt, nodata, most, Ok(floats));
    }
    Ok(())
}

/// Lines of bits and of the pixel type: the kind that they say, and the faults for floats and for whole heights.
static FAULTS: [(
    &str,
    &str,
    HeightKind,
    Option<HeaderFault>,
    Option<HeaderFault>,
); 9] = [
    (
        "NBITS 32\n",
        "pixeltype float\n",
        HeightKind::Single,
        None,
        Some(HeaderFault::BadPixelType),
    ),
    (
        "NBITS 64\n",
        "PIXELTYPE FLOAT\n",
        HeightKind::Single,
        Some(HeaderFault::BadBits),
        Some(HeaderFault::BadBits),
    ),
    (
        "NBITS 16\n",
        "PIXELTYPE FLOAT\n",
        HeightKind::Single,
        Some(HeaderFault::BadBits),
        Some(HeaderFault::BadPixelType),
    ),
    (
        "NBITS 8\n",
        "PIXELTYPE FLOAT\n",
        HeightKind::Single,
        Some(HeaderFault::BadBits),
        Some(HeaderFault::BadPixelType),
    ),
    (
        "",
        "PIXELTYPE FLOAT\n",
        HeightKind::Single,
        Some(HeaderFault::BadBits),
        Some(HeaderFault::BadPixelType),
    ),
    (
        "NBITS 32\n",
        "PIXELTYPE SIGNEDINT\n",
        HeightKind::Whole,
        Some(HeaderFault::BadPixelType),
        None,
    ),
    (
        "NBITS 32\n",
        "",
        HeightKind::Whole,
        Some(HeaderFault::BadPixelType),
        None,
    ),
    (
        "NBITS 16\n",
        "PIXELTYPE SIGNEDINT\n",
        HeightKind::Whole,
        Some(HeaderFault::BadBits),
        None,
    ),
    (
        "NBITS 32\n",
        "PIXELTYPE FLOAT64\n",
        HeightKind::Whole,
        Some(HeaderFault::BadPixelType),
        Some(HeaderFault::BadPixelType),
    ),
];

fn fault(answer: Result<Header, HeaderFault>) -> Option<HeaderFault> {
    match answer {
        Ok(_) => None,
        Err(fault) => Some(fault),
    }
}

#[test]
fn pixels_that_are_no_floats(rt: HostRuntime) -> Result<(), Fail> {
    for &(bits, kind, said, of_floats, of_whole) in &FAULTS {
        let lines = Lines {
            order: "BYTEORDER I\n",
            bits,
            kind,
            nodata: "NODATA -9999\n",
        };
        let bytes = text(rt.alloc(), &lines)?;
        same(&rt, bits, kind_said(&bytes), said);
        let single = fault(parse_header_of(&bytes, HeightKind::Single));
        same(&rt, bits, single, of_floats);
        same(&rt, bits, fault(parse_header(&bytes)), of_whole);
    }
    Ok(())
}

/// A no-data number that isn't whole is a float's, and of whole heights a bad value of its line.
#[test]
fn a_no_data_number_by_its_kind(rt: HostRuntime) -> Result<(), Fail> {
    let half = b"PIXELTYPE FLOAT\nNODATA 0.5\n";
    let single = fault(parse_header_of(half, HeightKind::Single));
    same(
        &rt,
        "half",
        single,
        Some(HeaderFault::MissingKey(drain_header::Key::Nrows)),
    );
    let whole = fault(parse_header(half));
    same(&rt, "half", whole, Some(HeaderFault::BadValue(2)));
    let word = b"NODATA none\n";
    let single = fault(parse_header_of(word, HeightKind::Single));
    same(&rt, "none", single, Some(HeaderFault::BadValue(1)));
    same(
        &rt,
        "none",
        kind_said(b"PIXELTYPE SIGNEDINT\nPIXELTYPE FLOAT"),
        HeightKind::Whole,
    );
    Ok(())
}

/// No-data numbers of floats, each with the line that is written of it.
static WRITTEN: [(&str, &str); 7] = [
    ("NODATA -9999\n", "NODATA -9999.0\n"),
    ("NODATA -3.4028235e+38\n", "NODATA -3.4028235e38\n"),
    ("NODATA NaN\n", "NODATA nan\n"),
    ("NODATA Infinity\n", "NODATA inf\n"),
    ("NODATA -inf\n", "NODATA -inf\n"),
    ("NODATA -32767.10\n", "NODATA -32767.1\n"),
    ("", ""),
];

#[test]
fn floats_as_text(rt: HostRuntime) -> Result<(), Fail> {
    for &(nodata, line) in &WRITTEN {
        let mut lines = Lines {
            order: "BYTEORDER M\n",
            bits: "NBITS 32\n",
            kind: "PIXELTYPE FLOAT\n",
            nodata,
        };
        let bytes = text(rt.alloc(), &lines)?;
        let Ok(header) = parse_header_of(&bytes, HeightKind::Single) else {
            return Ok(same(&rt, nodata, "a fault", "a header"));
        };
        let written = header_text(rt.alloc(), &header)?;
        lines.nodata = line;
        let expected = text(rt.alloc(), &lines)?;
        same(&rt, nodata, written.as_slice(), expected.as_slice());
    }
    Ok(())
}
