//! Headers with numbers and decimals at their bounds and beyond, some of 60,000 digits.

use crate::agree::same_line;
use crate::example::{Example, one_tile};
use crate::runs::told_of_header;
use drain_answer::lines::Line;
use std::alloc::{AllocError, Global};
use std::process::Abort;
use std::test::Fail;
use worked::grids::{PIT_LINE, pit, voids};
use worked::headers::CON_TEXT;

/// Con's header on four voids.
const TEXT_OF_VOIDS: &str = "BYTEORDER I
LAYOUT BIL
NROWS 2
NCOLS 2
NBANDS 1
NBITS 16
BANDROWBYTES 4
TOTALROWBYTES 4
SKIPBYTES 0
PIXELTYPE SIGNEDINT
ULXMAP 0.000000000000000
ULYMAP 1.000000000000000
XDIM 1.000000000000000
YDIM 1.000000000000000
NODATA -32768
";

/// A line of a header: how it begins, 60,000 times a digit or none, and how it ends.
#[derive(Clone, Copy)]
struct HeaderLine {
    begin: &'static str,
    digit: Option<u8>,
    end: &'static str,
}

impl HeaderLine {
    /// A line without many digits.
    fn short(begin: &'static str) -> HeaderLine {
        HeaderLine {
            begin,
            digit: None,
            end: "",
        }
    }
}

/// Appends a line to a header.
fn push_line(header: &mut Vec<u8>, line: HeaderLine) -> Result<(), AllocError> {
    header.extend_from_slice(line.begin.as_bytes())?;
    if let Some(digit) = line.digit {
        header.extend_from_slice(&[digit; 60000])?;
    }
    header.extend_from_slice(line.end.as_bytes())?;
    header.push(b'\n')?;
    Ok(())
}

/// The bytes of a header of this text, with another line in the place of one of its own, counted from 1.
fn header_of(
    alloc: Global,
    text: &'static str,
    number: usize,
    replaced: HeaderLine,
) -> Result<Vec<u8>, AllocError> {
    let mut header = Vec::new(alloc);
    for (place, line) in text.lines().enumerate() {
        let line = if place.saturating_add(1) == number {
            replaced
        } else {
            HeaderLine::short(line)
        };
        push_line(&mut header, line)?;
    }
    Ok(header)
}

/// The line of an example whose con has a header of this text, with another line in the place of one of its own.
fn line_with(
    alloc: Global,
    example: &Example,
    text: &'static str,
    number: usize,
    replaced: HeaderLine,
) -> Result<Line, AllocError> {
    let header = header_of(alloc, text, number, replaced)?;
    told_of_header(alloc, example, &header)
}

/// Fails the test if the line for an example with such a header isn't the expected one.
fn header_tells(
    rt: &impl Abort,
    alloc: Global,
    example: &Example,
    text: &'static str,
    (number, replaced): (usize, HeaderLine),
    owed: &str,
) -> Result<(), Fail> {
    let given = line_with(alloc, example, text, number, replaced)?;
    same_line(rt, replaced.begin, &given, owed);
    Ok(())
}

/// The number of a line of the header, its replacement, and the expected line.
static AT_BOUNDS: [(usize, &str, &str); 8] = [
    (9, "SKIPBYTES 4294967295", "refused RasterShort con"),
    (8, "TOTALROWBYTES 4294967295", "refused RasterShort con"),
    (
        9,
        "SKIPBYTES 4294967296",
        "refused BadHeader con BadValue 9",
    ),
    (3, "NROWS 28801", "refused WrongShape con"),
    (11, "ULXMAP 1e10", "refused Misplaced con"),
    (11, "ULXMAP 1e99", "refused BadHeader con BadValue 11"),
    (15, "NODATA 10000000000", PIT_LINE),
    (
        15,
        "NODATA 10000000001",
        "refused BadHeader con BadValue 15",
    ),
];

#[test]
fn numbers_at_their_bounds(rt: HostRuntime) -> Result<(), Fail> {
    let example = one_tile(3, &pit());
    for &(number, replaced, owed) in &AT_BOUNDS {
        let short = (number, HeaderLine::short(replaced));
        header_tells(&rt, rt.alloc(), &example, CON_TEXT, short, owed)?;
    }
    Ok(())
}

/// How a line begins, the digit that is repeated, how it ends, and the expected line.
static LONG_DECIMALS: [(&str, u8, &str, &str); 3] = [
    (
        "ULXMAP 1",
        b'0',
        "e-99",
        "refused BadHeader con BadValue 11",
    ),
    ("ULXMAP 0.", b'0', "", PIT_LINE),
    ("ULXMAP 0.", b'9', "", "refused Misplaced con"),
];

#[test]
fn decimals_of_60_000_digits(rt: HostRuntime) -> Result<(), Fail> {
    let example = one_tile(3, &pit());
    for &(begin, digit, end, owed) in &LONG_DECIMALS {
        let long = HeaderLine {
            begin,
            digit: Some(digit),
            end,
        };
        header_tells(&rt, rt.alloc(), &example, CON_TEXT, (11, long), owed)?;
    }
    Ok(())
}

/// No pixel of 16 bits has the number that voids would have to have.
#[test]
fn voids_without_a_number_for_them(rt: HostRuntime) -> Result<(), Fail> {
    let example = one_tile(2, &voids());
    let replaced = (15, HeaderLine::short("NODATA 10000000000"));
    let owed = "rejected rule=1 VoidCell row=0 col=0";
    header_tells(&rt, rt.alloc(), &example, TEXT_OF_VOIDS, replaced, owed)
}
