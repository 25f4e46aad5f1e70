//! Whole headers: each text with the header that it describes, or its first fault.

use crate::agree::same;
use crate::header_lines::CONDITIONED;
use drain_header::{Header, HeaderFault, Key, Place, header_text, parse_header};
use std::alloc::{AllocError, Global};
use std::test::Fail;
use worked::headers::{CON_TEXT, USUAL};

/// What replaces the line of this number, if something does.
fn replaced<'a>(number: usize, changes: &[(usize, &'a str)]) -> Option<&'a str> {
    let mut now = None;
    for (changed, other) in changes {
        if *changed == number {
            now = Some(*other);
        }
    }
    now
}

/// The lines, each with this end, and some of them replaced. Lines are counted from 1.
fn text(alloc: Global, end: &str, changes: &[(usize, &str)]) -> Result<Vec<u8>, AllocError> {
    let mut text = Vec::new(alloc);
    for (at, line) in CON_TEXT.lines().enumerate() {
        let line = replaced(at + 1, changes).unwrap_or(line);
        text.extend_from_slice(line.as_bytes())?;
        text.extend_from_slice(end.as_bytes())?;
    }
    Ok(text)
}

/// The result for that text without its last n bytes.
fn parsed(
    alloc: Global,
    end: &str,
    changes: &[(usize, &str)],
    cut: usize,
) -> Result<Result<Header, HeaderFault>, AllocError> {
    let bytes = text(alloc, end, changes)?;
    let length = bytes.len().saturating_sub(cut);
    Ok(parse_header(&bytes[..length]))
}

/// What is replaced in the lines, and the expected fault.
static FAULTS: [(&str, &[(usize, &str)], HeaderFault); 13] = [
    (
        "three bands of four bits",
        &[(5, "NBANDS 3"), (6, "NBITS 4")],
        HeaderFault::NotOneBand,
    ),
    ("no band", &[(5, "NBANDS 0")], HeaderFault::NotOneBand),
    ("four bits", &[(6, "NBITS 4")], HeaderFault::BadBits),
    ("half a bit", &[(6, "NBITS 0.5")], HeaderFault::BadValue(6)),
    (
        "floating point",
        &[(10, "PIXELTYPE FLOAT")],
        HeaderFault::BadPixelType,
    ),
    (
        "a pixel type without a word",
        &[(10, "PIXELTYPE")],
        HeaderFault::BadValue(10),
    ),
    (
        "five bytes for three pixels of two",
        &[(8, "TOTALROWBYTES 5")],
        HeaderFault::RowTooShort,
    ),
    ("no row", &[(3, "NROWS 0")], HeaderFault::BadValue(3)),
    (
        "rows are missing and a line is bad",
        &[(3, ""), (15, "NODATA x")],
        HeaderFault::BadValue(15),
    ),
    (
        "no place, four bits",
        &[(6, "NBITS 4"), (11, ""), (12, "")],
        HeaderFault::MissingKey(Key::Ulxmap),
    ),
    (
        "two bad lines",
        &[(4, "NCOLS x"), (9, "SKIPBYTES x")],
        HeaderFault::BadValue(4),
    ),
    (
        "rows twice, once in other case and without a value",
        &[(9, "nRoWs")],
        HeaderFault::RepeatedKey(9),
    ),
    (
        "rows twice",
        &[(1, "NROWS 2"), (2, "NROWS 2")],
        HeaderFault::RepeatedKey(2),
    ),
];

#[test]
fn the_last_faults(rt: HostRuntime) -> Result<(), Fail> {
    for &(name, changes, wanted) in &FAULTS {
        let answer = parsed(rt.alloc(), "\n", changes, 0)?;
        same(&rt, name, answer, Err(wanted));
    }
    Ok(())
}

/// The lines in small letters, with tabs, and with numbers written differently.
const SMALL_LETTERS: [(usize, &str); 15] = [
    (1, "\tbyteorder\ti"),
    (2, "layout bsq"),
    (3, "nrows 3"),
    (4, "ncols 3"),
    (5, "nbands 1"),
    (6, "nbits 16"),
    (7, "bandrowbytes 6"),
    (8, "totalrowbytes 6"),
    (9, "skipbytes 0"),
    (10, "pixeltype signedint"),
    (11, "ulxmap 0"),
    (12, "ulymap +1e0"),
    (13, "xdim .5"),
    (14, "ydim 5e-1"),
    (15, "nodata -32768.0"),
];

/// Without each line whose value is the default.
const DEFAULTS: [(usize, &str); 7] = [
    (1, ""),
    (2, ""),
    (5, ""),
    (7, ""),
    (8, ""),
    (9, ""),
    (10, ""),
];

/// The small header, or this fault.
fn small_or(fault: Option<HeaderFault>) -> Result<Header, HeaderFault> {
    match fault {
        None => Ok(CONDITIONED),
        Some(fault) => Err(fault),
    }
}

/// A line's end after further words, and two lines more.
const MORE: &str = " and more\nmoretext x\n\n";

/// The end of each line, what is replaced in the lines, how many bytes are cut off, and the expected fault.
static SPELLINGS: [(&str, &str, &[(usize, &str)], usize, Option<HeaderFault>); 10] = [
    ("as it is", "\n", &[], 0, None),
    ("carriage returns", "\r\n", &[], 0, None),
    ("further words and lines", MORE, &[], 0, None),
    ("small letters and tabs", "\r\n", &SMALL_LETTERS, 0, None),
    (
        "small letters, further words",
        MORE,
        &SMALL_LETTERS,
        0,
        None,
    ),
    ("defaults", "\r\n", &DEFAULTS, 0, None),
    ("defaults, further words", MORE, &DEFAULTS, 0, None),
    ("no line feed", "\r\n", &[], 1, None),
    ("no line end", "\r\n", &[], 2, None),
    (
        "two carriage returns",
        "\r\r\n",
        &[],
        0,
        Some(HeaderFault::BadValue(1)),
    ),
];

/// Carriage returns, tabs, small letters, further words and lines of other tools change nothing. The last line counts with a carriage
/// return alone, and without a line end. Of two carriage returns one is part of the last word.
#[test]
fn other_spellings(rt: HostRuntime) -> Result<(), Fail> {
    for &(name, end, changes, cut, fault) in &SPELLINGS {
        let answer = parsed(rt.alloc(), end, changes, cut)?;
        same(&rt, name, answer, small_or(fault));
    }
    Ok(())
}

#[test]
fn a_usual_tool(rt: HostRuntime) -> Result<(), Fail> {
    let wanted = Header {
        rows: 1201,
        cols: 1201,
        row_bytes: 2402,
        place: Place {
            ulx: -105_000_000_000_000_000,
            uly: 38_000_000_000_000_000,
            xdim: 833_333_333_333,
            ydim: 833_333_333_333,
        },
        ..CONDITIONED
    };
    let given = parse_header(USUAL.as_bytes());
    same(&rt, "a usual tool", given, Ok(wanted));
    Ok(())
}

/// How many line feeds a text has, and the expected fault.
static LINE_FEEDS: [(usize, HeaderFault); 3] = [
    (0, HeaderFault::MissingKey(Key::Nrows)),
    (65536, HeaderFault::MissingKey(Key::Nrows)),
    (65537, HeaderFault::TooLong),
];

#[test]
fn the_longest_text(rt: HostRuntime) -> Result<(), Fail> {
    let mut line_feeds = Vec::new(rt.alloc());
    for &(length, wanted) in &LINE_FEEDS {
        line_feeds.resize(length, b'\n')?;
        let answer = parse_header(&line_feeds);
        same(&rt, length, answer, Err(wanted));
    }
    Ok(())
}

/// What is written of a header is what was read, and is read as the same header.
#[test]
fn writes_what_it_reads(rt: HostRuntime) -> Result<(), Fail> {
    let bytes = text(rt.alloc(), "\n", &[])?;
    let written = header_text(rt.alloc(), &CONDITIONED)?;
    same(&rt, "written", written.as_slice(), bytes.as_slice());
    let again = parse_header(written.as_slice());
    same(
        &rt,
        "read again",
        (bytes.len(), again),
        (230, Ok(CONDITIONED)),
    );
    Ok(())
}
