//! Lists of sinks: which lines list which cells, and which line is bad.

use crate::agree::same;
use drain_grid::{Cell, SinkFault, Sinks, parse_sinks};
use std::alloc::{AllocError, Global};
use std::process::Abort;
use std::test::Fail;
use worked::memory::owed;

/// How many lines list a cell, and of the first four the number, the row and the column; or the fault.
type Listed = Result<(usize, [(u64, u32, u32); 4]), SinkFault>;

/// What a text lists.
fn listed(alloc: Global, text: &[u8]) -> Listed {
    let sinks = parse_sinks(alloc, text)?;
    let mut entries = [(0, 0, 0); 4];
    for (i, entry) in entries.iter_mut().enumerate() {
        if i < sinks.count() {
            let (line, cell) = sinks.entry(i);
            *entry = (line, cell.row, cell.col);
        }
    }
    Ok((sinks.count(), entries))
}

/// That these lines list a cell, at most four.
fn lines(entries: &[(u64, u32, u32)]) -> Listed {
    let mut first = [(0, 0, 0); 4];
    for (place, entry) in first.iter_mut().zip(entries) {
        *place = *entry;
    }
    Ok((entries.len(), first))
}

/// Ends the test if the two differ, and reports the case.
fn same_list(rt: &impl Abort, case: &[u8], given: Listed, expected: Listed) {
    assert_eq!(rt; given, expected, "{case:?}");
}

/// Texts, each with the lines that list a cell: the number, the row and the column.
static LISTS: [(&str, &[(u64, u32, u32)]); 21] = [
    ("", &[]),
    ("\n", &[]),
    ("\n \n\t\n \t \r\n\r\n\r", &[]),
    ("1 1\n", &[(1, 1, 1)]),
    ("1 1", &[(1, 1, 1)]),
    ("1 1\r\n2 0\r\n", &[(1, 1, 1), (2, 2, 0)]),
    ("1 1\r", &[(1, 1, 1)]),
    (" \t1 \t 2\t ", &[(1, 1, 2)]),
    ("1\t2", &[(1, 1, 2)]),
    ("1 1\n\n \t\n2 0\n\n", &[(1, 1, 1), (4, 2, 0)]),
    ("\r\n\n3 4", &[(3, 3, 4)]),
    ("007 0000000000000000000001\n", &[(1, 7, 1)]),
    ("0 0", &[(1, 0, 0)]),
    ("00 000", &[(1, 0, 0)]),
    ("4294967295 4294967295", &[(1, 4294967295, 4294967295)]),
    ("00000000000000000004294967295 1", &[(1, 4294967295, 1)]),
    ("1 1\n1 1\n", &[(1, 1, 1), (2, 1, 1)]),
    ("1 1\n2 2\n01 001", &[(1, 1, 1), (2, 2, 2), (3, 1, 1)]),
    ("28801 28801\n99999 0", &[(1, 28801, 28801), (2, 99999, 0)]),
    ("9 9\n5 5\n7 7", &[(1, 9, 9), (2, 5, 5), (3, 7, 7)]),
    (
        "3 0\n2 1\n\n1 2\n0 3",
        &[(1, 3, 0), (2, 2, 1), (4, 1, 2), (5, 0, 3)],
    ),
];

#[test]
fn lines_that_list_cells(rt: HostRuntime) {
    for &(text, entries) in &LISTS {
        let given = listed(rt.alloc(), text.as_bytes());
        same_list(&rt, text.as_bytes(), given, lines(entries));
    }
}

/// Texts, each with the line that is bad.
static BAD: [(&[u8], u64); 48] = [
    (b"x", 1),
    (b"1", 1),
    (b"1 1 1", 1),
    (b"1 1 x", 1),
    (b"1 x", 1),
    (b"x 1", 1),
    (b"1\n1", 1),
    (b"+1 1", 1),
    (b"1 +1", 1),
    (b"-1 1", 1),
    (b"1 -1", 1),
    (b"-0 0", 1),
    (b"1 -", 1),
    (b"1.0 1", 1),
    (b"1 1.", 1),
    (b"1e0 1", 1),
    (b"0x1 1", 1),
    (b"1_0 1", 1),
    (b"1,1", 1),
    (b"1, 1", 1),
    (b"(1 1)", 1),
    (b"# 1", 1),
    (b"1 1 # a pit", 1),
    (b"ROW COL\n1 1", 1),
    (b"4294967296 1", 1),
    (b"1 4294967296", 1),
    (b"4294967297 1", 1),
    (b"18446744073709551616 1", 1),
    (b"1 18446744073709551617", 1),
    (b"1 340282366920938463463374607431768211457", 1),
    (b"1\x0b1", 1),
    (b"1 1\x0b", 1),
    (b"1 \x0b1", 1),
    (b"1 1 \x0b", 1),
    (b"\x0b", 1),
    (b"1\x0c1", 1),
    (b"1 1\x00", 1),
    (b"1\xc2\xa01", 1),
    (b"\xef\xbb\xbf1 1", 1),
    (b"\xd9\xa1 1", 1),
    (b"1 1\r\r\n", 1),
    (b"\r\r\n", 1),
    (b"1\r1", 1),
    (b"\r1 1", 1),
    (b"1 1\nx\n", 2),
    (b"1 1\nx\ny\n-1 -1\n", 2),
    (b"\n\r\n \t\nx", 4),
    (b"0 0\n\n0 0\r\n\n1\n\n1 1 1", 5),
];

#[test]
fn lines_that_are_bad(rt: HostRuntime) {
    for &(text, line) in &BAD {
        let given = listed(rt.alloc(), text);
        let expected = Err(SinkFault::BadSinkLine(line));
        same_list(&rt, text, given, expected);
    }
}

/// What a text lists that begins so, goes on with 60,000 times a byte, and ends so.
fn listed_long(alloc: Global, begin: &[u8], byte: u8, end: &[u8]) -> Result<Listed, AllocError> {
    let mut text = Vec::new(alloc);
    text.extend_from_slice(begin)?;
    text.extend_from_slice(&[byte; 60000])?;
    text.extend_from_slice(end)?;
    Ok(listed(alloc, &text))
}

/// The begin of a text, the byte, and the end; and the line that lists a cell, or that is bad.
static LONG: [(&str, u8, &str, Result<(u64, u32, u32), u64>); 17] = [
    ("", b'0', "7 1", Ok((1, 7, 1))),
    ("7 ", b'0', "1", Ok((1, 7, 1))),
    ("7 ", b'0', "", Ok((1, 7, 0))),
    ("", b'0', "4294967295 1", Ok((1, 4294967295, 1))),
    ("", b'0', "4294967296 1", Err(1)),
    ("1", b'0', " 1", Err(1)),
    ("1 1", b'0', "", Err(1)),
    ("", b'9', " 1", Err(1)),
    ("1 ", b'9', "", Err(1)),
    ("", b'0', "x 1", Err(1)),
    ("7", b' ', "1", Ok((1, 7, 1))),
    ("7 1", b'\t', "", Ok((1, 7, 1))),
    ("7 1", b' ', "x", Err(1)),
    ("", b'\n', "7 1", Ok((60001, 7, 1))),
    ("7 1", b'\n', "", Ok((1, 7, 1))),
    ("", b'\n', "x", Err(60001)),
    ("7 1", b'\n', "\n1", Err(60002)),
];

/// That one line lists a cell, or is bad.
fn one_line(line: Result<(u64, u32, u32), u64>) -> Listed {
    match line {
        Ok(entry) => lines(&[entry]),
        Err(bad) => Err(SinkFault::BadSinkLine(bad)),
    }
}

#[test]
fn texts_of_60_000_bytes(rt: HostRuntime) -> Result<(), Fail> {
    for &(begin, byte, end, line) in &LONG {
        let given = listed_long(rt.alloc(), begin.as_bytes(), byte, end.as_bytes())?;
        same_list(&rt, end.as_bytes(), given, one_line(line));
    }
    Ok(())
}

/// Which cells of four rows and columns are listed; a bit for each column, the least for the first.
type Places = [u8; 4];

/// A row's bits.
fn bits(row: &[bool; 4]) -> u8 {
    let [first, second, third, fourth] = row.map(u8::from);
    first | second << 1 | third << 2 | fourth << 3
}

/// The places that a list has, and those that it marks where every column was marked before.
fn places(alloc: Global, text: &str) -> Result<(Places, Places), SinkFault> {
    let sinks = parse_sinks(alloc, text.as_bytes())?;
    Ok((places_had(&sinks), places_marked(&sinks)))
}

fn places_had(sinks: &Sinks) -> Places {
    let mut places = [0; 4];
    for (row, place) in (0..4).zip(places.iter_mut()) {
        *place = bits(&[0, 1, 2, 3].map(|col| sinks.has(Cell { row, col })));
    }
    places
}

fn places_marked(sinks: &Sinks) -> Places {
    let mut places = [0; 4];
    for (row, place) in (0..4).zip(places.iter_mut()) {
        let mut marks = [true; 4];
        sinks.mark_row(row, &mut marks);
        *place = bits(&marks);
    }
    places
}

/// Texts, each with the cells that it lists.
static PLACES: [(&str, Places); 12] = [
    ("", [0, 0, 0, 0]),
    ("\n\n", [0, 0, 0, 0]),
    ("1 1\n", [0, 0b0010, 0, 0]),
    ("1 1\n1 1\n01 01", [0, 0b0010, 0, 0]),
    ("0 0\n3 3", [0b0001, 0, 0, 0b1000]),
    ("0 3\n1 0", [0b1000, 0b0001, 0, 0]),
    ("3 3\n0 3\n3 0\n0 0", [0b1001, 0, 0, 0b1001]),
    ("2 3\n2 2\n2 1\n2 0", [0, 0, 0b1111, 0]),
    ("0 1\n2 1\n0 2", [0b0110, 0, 0b0010, 0]),
    // Past the last column, and below the last row.
    ("0 4\n1 5\n2 4294967295", [0, 0, 0, 0]),
    ("4 0\n5 1\n4294967295 2", [0, 0, 0, 0]),
    ("1 2\n1 4\n1 4294967295\n2 0", [0, 0b0100, 0b0001, 0]),
];

#[test]
fn places_of_listed_cells(rt: HostRuntime) {
    for &(text, expected) in &PLACES {
        same(
            &rt,
            text,
            places(rt.alloc(), text),
            Ok((expected, expected)),
        );
    }
}

/// What a list marks of a row whose columns were all marked before, and of one of no columns.
fn marked(alloc: Global, text: &str, row: u32) -> Result<[bool; 3], SinkFault> {
    let sinks = parse_sinks(alloc, text.as_bytes())?;
    let mut marks = [true; 3];
    sinks.mark_row(row, &mut []);
    sinks.mark_row(row, &mut marks);
    Ok(marks)
}

/// Rows, each with the marks of its first three columns.
static MARKS: [(u32, [bool; 3]); 7] = [
    (0, [false, false, false]),
    (6, [false, false, false]),
    (7, [true, false, true]),
    (8, [false, true, false]),
    (9, [false, false, false]),
    (4294967294, [false, false, false]),
    (4294967295, [true, false, false]),
];

#[test]
fn marks_of_one_row(rt: HostRuntime) {
    let text = "7 2\n4294967295 0\n7 0\n8 1\n6 4294967295\n4294967294 4294967295";
    for &(row, expected) in &MARKS {
        same(&rt, row, marked(rt.alloc(), text, row), Ok(expected));
    }
}

/// Whether a list has these cells: near the ends of what a row and a column can be.
fn ends(alloc: Global, text: &str) -> Result<[bool; 5], SinkFault> {
    let sinks = parse_sinks(alloc, text.as_bytes())?;
    let last = u32::MAX;
    Ok([(0, 0), (0, last), (1, 0), (last, 0), (last, last)].map(|(row, col)| sinks.has(Cell {
        row,
        col,
    })))
}

/// Texts, each with which of the cells near the ends it lists.
static ENDS: [(&str, [bool; 5]); 6] = [
    ("0 0", [true, false, false, false, false]),
    ("0 4294967295", [false, true, false, false, false]),
    ("1 0", [false, false, true, false, false]),
    ("4294967295 0", [false, false, false, true, false]),
    ("4294967295 4294967295", [false, false, false, false, true]),
    ("", [false, false, false, false, false]),
];

/// The last column of a row is not the first of the next, nor a row a column.
#[test]
fn cells_at_the_ends_of_32_bits(rt: HostRuntime) {
    for &(text, expected) in &ENDS {
        same(&rt, text, ends(rt.alloc(), text), Ok(expected));
    }
}

#[test]
fn no_sink(rt: HostRuntime) {
    let none = Sinks::none(rt.alloc());
    let given = (none.count(), places_had(&none), places_marked(&none));
    same(&rt, "none", given, (0, [0; 4], [0; 4]));
}

/// Faults, each with its text.
static TEXTS: [(SinkFault, &str); 3] = [
    (
        SinkFault::BadSinkLine(1),
        "line 1 is not a row and a column",
    ),
    (
        SinkFault::BadSinkLine(u64::MAX),
        "line 18446744073709551615 is not a row and a column",
    ),
    (SinkFault::OutOfMemory, "out of memory"),
];

#[test]
fn faults_of_lists_as_texts(rt: HostRuntime) -> Result<(), Fail> {
    for &(fault, expected) in &TEXTS {
        let given = format!(in rt.alloc(); "{fault}")?;
        same(&rt, expected, given.as_str(), expected);
    }
    Ok(())
}

/// Twelve lines that list a cell, with empty ones between: so the buffers grow more than once.
const TWELVE: &str = "0 0\n\n1 1\n2 2\n3 3\n4 4\n5 5\n\n6 6\n7 7\n8 8\n9 9\n10 10\n11 11\n";

#[test]
fn a_list_after_refused_memory(rt: HostRuntime) {
    let right = Ok((12, [(1, 0, 0), (3, 1, 1), (4, 2, 2), (5, 3, 3)]));
    let first = listed(rt.alloc(), TWELVE.as_bytes());
    let expected = owed(rt.alloc(), Err(SinkFault::OutOfMemory), right);
    same_list(&rt, b"first", first, expected);
    same_list(&rt, b"again", listed(rt.alloc(), TWELVE.as_bytes()), right);
}

/// A bad line after good ones: it is reported, unless memory ran out before it.
#[test]
fn a_bad_line_after_refused_memory(rt: HostRuntime) {
    let text = b"0 0\n1 1\n2 2\n3 3\n4 4\n5 5\n6 6\n7 7\n8 8\n9\n";
    let right = Err(SinkFault::BadSinkLine(10));
    let first = listed(rt.alloc(), text);
    let expected = owed(rt.alloc(), Err(SinkFault::OutOfMemory), right);
    same_list(&rt, b"first", first, expected);
    same_list(&rt, b"again", listed(rt.alloc(), text), right);
}
